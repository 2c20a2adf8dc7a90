//! Registers of 64 bits, whose halves are read and written.

ghost use Rattle.std.specs.Prelude.{◌≡◌, ◌/◌, ◌%◌, ◌^◌};
ghost use Rattle.nvme_spec.specs.Registers as register;

/// The low half of a register of 64 bits.
pub fn low(value: u64) -> u32
    ensures { result ≡ value % 2 ^ 32 }
{
    (value & 0xffff_ffff) as u32
}

/// The high half of a register of 64 bits.
pub fn high(value: u64) -> u32
    ensures { result ≡ value / 2 ^ 32 }
{
    (value >> 32) as u32
}

/// A register of 64 bits whose low half is written.
pub fn with_low(value: u64, v: u32) -> u64
    ensures { result ≡ register.with_low value v }
{
    (value >> 32 << 32) + u64::from(v)
}

/// A register of 64 bits whose high half is written.
pub fn with_high(value: u64, v: u32) -> u64
    ensures { result ≡ register.with_high value v }
{
    (value & 0xffff_ffff) + (u64::from(v) << 32)
}

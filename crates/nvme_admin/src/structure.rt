//! Data structures of little-endian fields, as bytes.

ghost use Rattle.std.specs.Prelude.{◌≡◌, ◌+◌, ◌-◌, ◌<◌, ◌≤◌, [], ◌∷◌, ◌++◌, length, replicate};
ghost use Rattle.std.specs.Int.{w16, w32, w64, to_le_bytes};
ghost use Rattle.nvme_spec.specs.Bytes.{with_bytes};

use byteorder::{ByteOrder, LittleEndian};

/// Writes a field of one byte.
pub fn put_u8(structure: &mut [u8], at: usize, value: u8)
    requires inside { at < length structure.old }
    ensures { structure.new ≡ with_bytes structure.old at (value ∷ []) }
{
    structure[at] = value;
}

/// Writes a field of two bytes.
pub fn put_u16(structure: &mut [u8], at: usize, value: u16)
    requires inside { at + 2 ≤ length structure.old }
    ensures { structure.new ≡ with_bytes structure.old at (to_le_bytes w16 value) }
{
    LittleEndian::write_u16(&mut structure[at..at + 2], value);
}

/// Writes a field of four bytes.
pub fn put_u32(structure: &mut [u8], at: usize, value: u32)
    requires inside { at + 4 ≤ length structure.old }
    ensures { structure.new ≡ with_bytes structure.old at (to_le_bytes w32 value) }
{
    LittleEndian::write_u32(&mut structure[at..at + 4], value);
}

/// Writes a field of eight bytes.
pub fn put_u64(structure: &mut [u8], at: usize, value: u64)
    requires inside { at + 8 ≤ length structure.old }
    ensures { structure.new ≡ with_bytes structure.old at (to_le_bytes w64 value) }
{
    LittleEndian::write_u64(&mut structure[at..at + 8], value);
}

/// Writes ASCII text into a field of `size` bytes, filled with spaces.
pub fn put_text(structure: &mut [u8], at: usize, size: usize, text: &[u8])
    requires short { length text.now ≤ size }
    requires inside { at + size ≤ length structure.old }
    ensures { structure.new ≡ with_bytes structure.old at (text.now ++ replicate (size - length text.now) 0x20) }
{
    put_bytes(structure, at, text);
    put_spaces(structure, at + text.len(), size - text.len());
}

fn put_bytes(structure: &mut [u8], at: usize, bytes: &[u8])
    requires inside { at + length bytes.now ≤ length structure.old }
    ensures { structure.new ≡ with_bytes structure.old at bytes.now }
{
    structure[at..at + bytes.len()].copy_from_slice(bytes);
}

fn put_spaces(structure: &mut [u8], at: usize, count: usize)
    requires inside { at + count ≤ length structure.old }
    ensures { structure.new ≡ with_bytes structure.old at (replicate count 0x20) }
{
    structure[at..at + count].fill(b' ');
}

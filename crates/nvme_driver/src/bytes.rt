//! Replaces bytes in the middle of others.

ghost use Rattle.std.specs.Prelude.{◌≡◌, ◌+◌, ◌≤◌, length};
ghost use Rattle.nvme_spec.specs.Bytes.{with_bytes};

/// Replaces the bytes of `whole` from `at` by `part`, which must fit.
pub fn put_bytes(whole: &mut [u8], at: usize, part: &[u8])
    requires { at + length part.now ≤ length whole.old }
    ensures { whole.new ≡ with_bytes whole.old at part.now }
{
    whole[at..at + part.len()].copy_from_slice(part);
}

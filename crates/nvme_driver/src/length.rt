//! The length of a transfer.

ghost use Rattle.std.specs.Prelude.{◌≡◌, ◌≤◌};
ghost use Rattle.nvme_spec.specs.Limits.{most_bytes};

use std::marker::Model;

/// The number of bytes of one transfer, at most 131,072. Contracts see it as a number.
#[derive(Clone, Copy, Debug)]
pub struct Length {
    bytes: usize,
}

impl Model for Length {
    ghost use Rattle.std.specs.Prelude.{ℕ, ◌≤◌};
    ghost use Rattle.nvme_spec.specs.Limits.{most_bytes};

    ghost Value = { ℕ };

    ghost view = { λ l. l.bytes };

    ghost invariant = { λ l. l.bytes ≤ most_bytes };

    ghost inverse = { λ n. record { bytes = n } };
}

impl Length {
    /// A length of this many bytes.
    pub fn new(bytes: usize) -> Length
        requires { bytes ≤ most_bytes }
        ensures { result ≡ bytes }
    {
        Length { bytes }
    }

    /// The number of bytes.
    pub fn bytes(self) -> usize
        ensures bytes { result ≡ self }
        ensures most { result ≤ most_bytes }
    {
        self.bytes
    }
}

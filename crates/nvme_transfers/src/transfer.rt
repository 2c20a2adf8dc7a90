//! A command that an R2T has asked for data, and how much of them it has.

ghost use Rattle.std.specs.Prelude.{◌≡◌, true};
ghost use Rattle.nvme_transfers.specs.Parts as def;

use crate::command::Command;
use crate::part::{Completed, Part};

/// A command whose R2T was sent.
#[derive(Clone, Copy)]
pub struct Transfer {
    pub command: Command,
    /// How many of its data have come.
    pub count: u32,
    /// Whether the digests of these were right.
    pub is_sound: bool,
}

impl Transfer {
    /// A command none of whose data have come.
    pub(crate) fn of(command: Command) -> Transfer
        ensures { result ≡ def.begun command }
    {
        Transfer {
            command,
            count: 0,
            is_sound: true,
        }
    }

    /// Whether a part is the next of this command's data.
    #[tactic(auto, unfolding(crate::specs::Parts::fits))]
    pub(crate) fn fits(&self, part: &Part) -> bool
        ensures { result ≡ def.fits self.now part.now }
    {
        let end = u64::from(part.offset) + u64::from(part.length);
        let length = u64::from(self.command.length);
        part.cid == self.command.cid()
            && part.offset == self.count
            && part.length > 0
            && end <= length
            && part.is_last == (end == length)
    }

    /// The same with a part that fits.
    #[tactic(auto, using(crate::proofs::Fitting::fits_within))]
    pub(crate) fn with(self, part: &Part) -> Transfer
        requires { def.fits self part.now ≡ true }
        ensures { result ≡ def.with_part self part.now }
    {
        Transfer {
            command: self.command,
            count: self.count + part.length,
            is_sound: self.is_sound && part.is_sound,
        }
    }

    /// The command, which has all its data.
    pub(crate) fn completed(&self) -> Completed
        ensures { result ≡ def.completed self.now }
    {
        Completed {
            command: self.command,
            is_sound: self.is_sound,
        }
    }
}

//! Journals for C: which commands one has to keep, so that a subsystem that starts again has the access state of the
//! last one, and how much of their data.

ghost use Rattle.std.specs.Prelude.{◌≡◌};
ghost use Rattle.nvme_journal.specs.Records as records;

use nvme_journal::{kept_length, lasts};

/// Whether a command of the Admin Queue, or of another queue, has to be kept if it succeeds.
#[unsafe(no_mangle)]
pub extern "C" fn nvmesim_journal_lasts(entry: &[u8; 64], is_admin: bool) -> bool
    ensures { result ≡ records.lasts is_admin entry.now }
{
    lasts(entry, is_admin)
}

/// How many bytes of such a command's data have to be kept, by the first two.
#[unsafe(no_mangle)]
pub extern "C" fn nvmesim_journal_kept_length(head: &[u8; 2], is_admin: bool) -> u32
    ensures { result ≡ records.kept_length is_admin head.now }
{
    kept_length(head, is_admin)
}

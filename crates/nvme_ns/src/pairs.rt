//! Which namespaces are attached to which controllers, as a table, so that no list is searched.

ghost use Rattle.std.specs.Prelude.{◌≡◌, ◌<◌, ◌↔◌, IsTrue};
ghost use Rattle.std.specs.List.{AllByRecursion};
ghost use Rattle.nvme_ns.specs.Attached.{IsPair, number, TellsPairs};

use crate::refusal::MAX_ATTACHMENTS;

/// For each pair of a controller and a namespace, by its number, whether it is attached.
pub type PairTable = [bool; MAX_ATTACHMENTS];

/// Whether there may be such a controller, 1 to 16, and such a namespace, 1 to 8.
pub fn is_pair(cntlid: u16, nsid: u32) -> bool
    ensures { IsTrue result ↔ IsPair (cntlid, nsid) }
{
    (1..=16).contains(&cntlid) && (1..=8).contains(&nsid)
}

/// The number of such a pair.
pub fn pair_number(cntlid: u16, nsid: u32) -> usize
    requires { IsPair (cntlid, nsid) }
    ensures number { result ≡ number (cntlid, nsid) }
    ensures below { result < 128 }
{
    8 * usize::from(cntlid) + nsid as usize - 9
}

/// The table of these attachments.
pub fn pair_table(attachments: &[(u16, u32)]) -> PairTable
    requires { AllByRecursion IsPair attachments.now }
    ensures { TellsPairs result attachments.now }
{
    let mut table = [false; MAX_ATTACHMENTS];
    for pair in attachments {
        table[pair_number(pair.0, pair.1)] = true;
    }
    table
}

//! Counts of the entries of a ring, without a division.

ghost use Rattle.std.specs.Prelude.{◌≡◌, ◌+◌, ◌*◌, ◌%◌, ◌<◌, ◌≤◌};
ghost use Rattle.nvme_spec.specs.Queues.{ahead, slot_of, phase_tag};

/// The count after this one, modulo `turn`.
#[tactic(auto, using(crate::proofs::Turns::next_within, crate::proofs::Turns::next_round))]
pub fn next(count: u16, turn: u16) -> u16
    requires { count < turn }
    ensures { result ≡ (count + 1) % turn }
{
    let next = count + 1;
    if next == turn { 0 } else { next }
}

/// How far one slot is ahead of another.
#[tactic(auto, using(crate::proofs::Turns::ahead_within, crate::proofs::Turns::ahead_round))]
pub fn distance(size: u16, slot: u16, other: u16) -> u16
    requires small { size ≤ 64 }
    requires slot { slot < size }
    requires other { other < size }
    ensures { result ≡ ahead size slot other }
{
    if slot >= other {
        slot - other
    } else {
        size - other + slot
    }
}

/// The slot of an entry that is counted modulo twice the size.
#[tactic(auto, using(crate::proofs::Turns::slot_first, crate::proofs::Turns::slot_second))]
pub fn slot(size: u16, count: u16) -> u16
    requires { count < 2 * size }
    ensures slot { result ≡ slot_of size count }
    ensures below { result < size }
{
    if count < size { count } else { count - size }
}

/// The phase tag of the entry with a count modulo twice the size: 1 in the first pass through the queue, then 0.
#[tactic(auto, using(crate::proofs::Turns::phase_first, crate::proofs::Turns::phase_second))]
pub fn phase(size: u16, count: u16) -> bool
    requires { count < 2 * size }
    ensures { result ≡ phase_tag size count }
{
    count < size
}

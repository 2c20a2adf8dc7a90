//! Doorbells (Submission Queue y Tail Doorbell, Completion Queue y Head Doorbell).

ghost use Rattle.std.specs.Prelude.{◌≡◌};
ghost use Rattle.nvme_spec.specs.Registers as register;

use crate::offset::DOORBELLS;
use nvme_spec::RegEffect;

/// The highest queue identifier.
const LAST_QUEUE: u64 = 4;

/// The effect of a write to this offset, or `Nothing` if no doorbell is there.
#[tactic(auto, unfolding(nvme_spec::specs::Registers::doorbell))]
pub fn doorbell(offset: u64, v: u32) -> RegEffect
    ensures { result ≡ register.doorbell offset v }
{
    if offset < DOORBELLS {
        return RegEffect::Nothing;
    }
    let queue = (offset - DOORBELLS) / 8;
    if queue > LAST_QUEUE {
        return RegEffect::Nothing;
    }
    let value = (v & 0xffff) as u16;
    match offset % 8 {
        0 => RegEffect::SqTail(queue as u16, value),
        4 => RegEffect::CqHead(queue as u16, value),
        _ => RegEffect::Nothing,
    }
}

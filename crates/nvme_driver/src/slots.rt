//! The slots of a driver, one for each request that it has not delivered.

ghost use Rattle.std.specs.Prelude.{
  ◌≡◌,
  ◌<◌,
  position,
  is_none,
  length,
  map,
  IfSome,
  None,
  Some,
  nat_lt,
  true,
  MatchOption,
};
ghost use Rattle.nvme_driver.specs.Drivers.{abort};
ghost use Rattle.nvme_driver.specs.Polls.{
  waiting_at as spec_waiting_at,
  aborted_at as spec_aborted_at,
  live_in as spec_live_in,
  IsOldest,
};

use crate::lane::Lane;
use crate::length::Length;
use crate::ticket::Ticket;

/// A request that was not delivered.
#[derive(Clone, Copy, Debug)]
pub struct Waiting {
    /// Its ticket.
    pub ticket: Ticket,
    /// The lane (queue pair) of its command.
    pub lane: Lane,
    /// The number of bytes of its answer if it succeeds: those of a Read, a Report or an Identify, else 0.
    pub received: Length,
    /// Whether it waits for its answer: otherwise it was aborted.
    pub live: bool,
}

/// The lowest slot that is free.
pub fn lowest_free(slots: &[Option<Waiting>]) -> Option<usize>
    ensures { result ≡ position is_none slots.now }
{
    slots.iter().position(|slot| slot.is_none())
}

/// The request in a slot.
pub fn waiting_at(slots: &[Option<Waiting>], slot: usize) -> Option<Waiting>
    ensures { result ≡ spec_waiting_at slots.now slot }
{
    slots.get(slot).copied().flatten()
}

/// The live request of a lane in a slot.
pub fn live_in(slots: &[Option<Waiting>], lane: Lane, slot: usize) -> Option<Waiting>
    ensures request { result ≡ spec_live_in lane (spec_waiting_at slots.now slot) }
    ensures slot { IfSome result (λ w. slot < length slots.now) }
{
    let waiting = waiting_at(slots, slot)?;
    let is_own = waiting.lane.queue_id() == lane.queue_id();
    (is_own && waiting.live).then_some(waiting)
}

/// The ticket of an aborted request in a slot.
fn aborted_at(slots: &[Option<Waiting>], slot: usize) -> Option<Ticket>
    ensures { result ≡ spec_aborted_at slots.now slot }
{
    let waiting = waiting_at(slots, slot)?;
    (!waiting.live).then_some(waiting.ticket)
}

/// Whether a ticket is below that of the oldest so far.
fn is_older(ticket: Ticket, oldest: Option<(usize, Ticket)>) -> bool
    ensures { MatchOption oldest (result ≡ true) (λ o. result ≡ nat_lt ticket.0 (o.1).0) }
{
    match oldest {
        None => true,
        Some((_, lowest)) => ticket.0 < lowest.0,
    }
}

/// The slot and the ticket of the aborted request with the lowest one.
pub fn oldest_aborted(slots: &[Option<Waiting>]) -> Option<(usize, Ticket)>
    ensures none { result ≡ None → IsOldest slots.now None }
    ensures some { IfSome result (λ r. (r.0 < length slots.now) × IsOldest slots.now (Some r.0)
        × (spec_aborted_at slots.now r.0 ≡ Some r.1)) }
{
    let mut oldest: Option<(usize, Ticket)> = None;
    for slot in 0..slots.len() {
        if let Some(ticket) = aborted_at(slots, slot) {
            if is_older(ticket, oldest) {
                oldest = Some((slot, ticket));
            }
        }
    }
    oldest
}

/// A slot's request after its controller was reset.
fn aborted(slot: Option<Waiting>) -> Option<Waiting>
    ensures { result ≡ abort slot }
{
    slot.map(|waiting| Waiting {
        live: false,
        ..waiting
    })
}

/// Aborts all requests.
pub fn abort_all(slots: &mut [Option<Waiting>])
    ensures { slots.new ≡ map abort slots.old }
{
    for index in 0..slots.len() {
        slots[index] = aborted(slots[index]);
    }
}

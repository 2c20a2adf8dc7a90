//! Delivers answers.

ghost use Rattle.std.specs.Prelude.{
  ◌≡◌,
  ◌<◌,
  ◌≤◌,
  ◌++◌,
  IfSome,
  Some,
  None,
  length,
  take,
  drop,
  true,
  MatchOption,
};
ghost use Rattle.nvme_wire.specs.Completion.{cid, sq_head};
ghost use Rattle.nvme_spec.specs.Limits.{most_bytes};
ghost use Rattle.nvme_driver.specs.Calls.{Calls};
ghost use Rattle.nvme_driver.specs.Layout.{slot_count};
ghost use Rattle.nvme_driver.specs.Drivers.{ends as ends_of};
ghost use Rattle.nvme_driver.specs.Polls.{
  IsPolled,
  IsOldest,
  aborted_at,
  answered as spec_answered,
  answer_len as spec_answer_len,
  consumed_ends,
  handed_len,
  handed_up,
  is_new,
  loads,
  looks,
};

use super::Driver;
use crate::answer::Answer;
use crate::ends::Ends;
use crate::faults::PollFault;
use crate::found::{Found, is_success, next_if_new};
use crate::lane::Lane;
use crate::layout::data_area;
use crate::length::Length;
use crate::port::Port;
use crate::slots::{Waiting, live_in, oldest_aborted};
use crate::state::State;
use crate::ticket::Ticket;
use nvme_wire::{Cqe, Status};

/// The number of bytes of data of an answer.
fn answer_len(received: Length, status: Status) -> usize
    ensures len { result ≡ spec_answer_len received status }
    ensures most { result ≤ most_bytes }
{
    if is_success(status) {
        received.bytes()
    } else {
        0
    }
}

impl Driver {
    /// The slot and ticket of the aborted request with the lowest ticket. The slots are searched once after a reset,
    /// instead of at each poll.
    fn oldest_aborted(&mut self) -> Option<(usize, Ticket)>
        ensures driver { self.new ≡ self.old }
        ensures none { result ≡ None → IsOldest self.old.slots None }
        ensures some { IfSome result (λ r. (r.0 < slot_count) × IsOldest self.old.slots (Some r.0)
            × (aborted_at self.old.slots r.0 ≡ Some r.1)) }
    {
        if self.none_aborted {
            return None;
        }
        let oldest = oldest_aborted(&self.slots);
        self.none_aborted = oldest.is_none();
        oldest
    }

    /// The first new completion: of the admin lane (queue pair), then of the I/O lane.
    fn found<P: Port>(&self, port: &mut P) -> Option<Found>
        ensures calls { Calls P.step port.old (looks self.now result) port.new }
        ensures new { IfSome result (λ f. is_new (ends_of f.lane self.now) f.entry ≡ true) }
        ensures size { IfSome result (λ f. length f.entry ≡ 16) }
        ensures links { P.links port.new ≡ P.links port.old }
    {
        if let Some(entry) = next_if_new(port, Lane::Admin, self.admin) {
            return Some(Found {
                lane: Lane::Admin,
                entry,
            });
        }
        let entry = next_if_new(port, Lane::Io, self.io)?;
        Some(Found {
            lane: Lane::Io,
            entry,
        })
    }

    /// The request that a completion answers, and the ends of its lane after the completion is consumed.
    fn answered(&self, lane: Lane, entry: Cqe) -> Option<(Waiting, Ends)>
        ensures request { MatchOption result (spec_answered self.now lane entry ≡ None)
            (λ r. spec_answered self.now lane entry
            ≡ Some r.0) }
        ensures ends { IfSome result (λ r. r.1 ≡ consumed_ends (ends_of lane self.now) (sq_head entry)) }
        ensures slot { IfSome result (λ r. cid entry < slot_count) }
    {
        if entry.sq_id() != lane.queue_id() {
            return None;
        }
        let mut ends = self.ends(lane);
        if !ends.consume(entry.sq_head()) {
            return None;
        }
        let waiting = live_in(&self.slots, lane, usize::from(entry.cid()))?;
        Some((waiting, ends))
    }

    /// Delivers the answer in a new completion, with its data at the front of the buffer.
    fn hand_up<P: Port>(
        &mut self,
        port: &mut P,
        found: Found,
        buffer: &mut [u8],
    ) -> Result<Option<Answer>, PollFault>
        requires { most_bytes ≤ length buffer.old }
        ensures answer { result ≡ (handed_up self.old found (take (handed_len result) buffer.new)).answer }
        ensures driver { self.new ≡ (handed_up self.old found (take (handed_len result) buffer.new)).driver }
        ensures calls { Calls P.step port.old (
            loads found.entry (take (handed_len result) buffer.new) (spec_answered self.old found.lane found.entry)
            ++ (handed_up self.old found (take (handed_len result) buffer.new)).calls) port.new }
        ensures behind { drop (handed_len result) buffer.new ≡ drop (handed_len result) buffer.old }
        ensures whole { length buffer.new ≡ length buffer.old }
        ensures most { handed_len result ≤ most_bytes }
        ensures slot { IfSome (spec_answered self.old found.lane found.entry) (λ w. cid found.entry < slot_count) }
        ensures links { P.links port.new ≡ P.links port.old }
    {
        let Some((waiting, ends)) = self.answered(found.lane, found.entry) else {
            self.state = State::Failed;
            return Err(PollFault::UnknownCommand);
        };
        let slot = usize::from(found.entry.cid());
        let status = found.entry.status();
        let len = answer_len(waiting.received, status);
        port.loads(data_area(slot), &mut buffer[..len]);
        self.slots[slot] = None;
        self.set_ends(found.lane, ends);
        port.write32(found.lane.head_doorbell(), u32::from(ends.head()));
        Ok(Some(Answer::Done {
            ticket: waiting.ticket,
            status,
            dw0: found.entry.dw0(),
            len,
        }))
    }

    /// Delivers the next answer, with its data at the front of the buffer, or returns `None` if there is no new one.
    /// Aborted requests come first, in every state, by rising tickets; then a completion of the admin lane, then one of
    /// the I/O lane. The buffer must have at least 131,072 bytes. Its bytes after the answer's data are unchanged, and
    /// all of them if no answer with data is delivered.
    ///
    /// # Errors
    ///
    /// `NotUp` if the driver is not up. `UnknownCommand` if the new completion is of another queue, answers no request
    /// that waits in its lane, or has an impossible head: it is not consumed, and the driver has failed.
    pub fn poll_into<P: Port>(
        &mut self,
        port: &mut P,
        buffer: &mut [u8],
    ) -> Result<Option<Answer>, PollFault>
        requires { most_bytes ≤ length buffer.old }
        ensures polls { IsPolled P.step self.old port.old result self.new port.new buffer.new }
        ensures behind { drop (handed_len result) buffer.new ≡ drop (handed_len result) buffer.old }
        ensures links { P.links port.new ≡ P.links port.old }
    {
        if let Some((slot, ticket)) = self.oldest_aborted() {
            self.slots[slot] = None;
            return Ok(Some(Answer::Aborted { ticket }));
        }
        if !self.is_up() {
            return Err(PollFault::NotUp);
        }
        let Some(found) = self.found(port) else {
            return Ok(None);
        };
        self.hand_up(port, found, buffer)
    }
}

//! Places a request.

ghost use Rattle.std.specs.Prelude.{◌≡◌, ◌<◌, ◌≤◌, IfOk, IfErr, OnOk, OnErr, Some, None, false, length};
ghost use Rattle.nvme_wire.specs.Submission.{submission_of};
ghost use Rattle.nvme_spec.specs.Queues.{submission_room};
ghost use Rattle.nvme_spec.specs.Limits.{most_bytes};
ghost use Rattle.nvme_driver.specs.Calls.{Calls};
ghost use Rattle.nvme_driver.specs.Layout.{slot_count};
ghost use Rattle.nvme_driver.specs.Pointers.{first_entry as spec_first_entry, second_entry as spec_second_entry};
ghost use Rattle.nvme_driver.specs.Requests.{is_bad as bad, asked_of};
ghost use Rattle.nvme_driver.specs.Drivers.{
  ends as ends_of,
  ticket_count,
  free_slot,
  place_refusal,
  lane_of,
  entry_fields,
  entry_of,
  IsPlaced,
  HoldsItsRequest,
};

use super::Driver;
use crate::faults::PlaceRefusal;
use crate::layout::{PAGE, data_area, list_page};
use crate::length::Length;
use crate::page_list::store_page_list;
use crate::port::Port;
use crate::request::Request;
use crate::slots::{Waiting, lowest_free};
use crate::ticket::Ticket;
use nvme_wire::{Sqe, SqeFields};

/// PRP Entry 1 of a request in a slot that transfers `moved` bytes: the slot's data, if there are any.
pub fn first_entry(slot: usize, moved: usize) -> u64
    requires { slot < slot_count }
    ensures { result ≡ spec_first_entry slot moved }
{
    if moved == 0 { 0 } else { data_area(slot) }
}

/// PRP Entry 2: nothing, the second page of its data, or the list of its pages.
pub fn second_entry(slot: usize, moved: usize) -> u64
    requires { slot < slot_count }
    ensures { result ≡ spec_second_entry slot moved }
{
    if moved <= PAGE {
        0
    } else if moved <= 2 * PAGE {
        data_area(slot) + PAGE as u64
    } else {
        list_page(slot)
    }
}

/// The entry of a request's command in a slot, whose number is its Command Identifier.
#[tactic(auto, using(nvme_wire::proofs::Made::submission_is_read_back))]
fn entry(request: &Request<'_>, slot: usize) -> Sqe
    requires good { bad request.now ≡ false }
    requires slot { slot < slot_count }
    ensures entry { result ≡ entry_of request.now slot }
    ensures says { submission_of (entry_of request.now slot) ≡ entry_fields (asked_of request.now) slot }
{
    let moved = request.moved();
    let [cdw10, cdw11, cdw12] = request.words();
    Sqe::from(SqeFields {
        opcode: request.opcode(),
        cid: slot as u16,
        nsid: request.nsid(),
        prp1: first_entry(slot, moved),
        prp2: second_entry(slot, moved),
        cdw10,
        cdw11,
        cdw12,
        cdw13: 0,
        cdw14: 0,
        cdw15: 0,
    })
}

impl Driver {
    /// The slot and the ticket for the next request, or the first reason to refuse this one.
    fn admit(&self, request: &Request<'_>) -> Result<(usize, Ticket), PlaceRefusal>
        ensures refused { IfErr result (λ refusal. place_refusal self.now request.now ≡ Some refusal) }
        ensures admitted { IfOk result (λ p. (place_refusal self.now request.now ≡ None)
            × (free_slot self.now ≡ Some p.0)
            × (p.1 ≡ record { 0 = self.now.next })) }
        ensures good { OnOk result (bad request.now ≡ false) }
        ensures room { OnOk result ((0 < submission_room (ends_of (lane_of request.now) self.now).tail)
            × (self.now.next < ticket_count)) }
        ensures slot { IfOk result (λ p. p.0 < slot_count) }
    {
        if !self.is_up() {
            return Err(PlaceRefusal::NotReady);
        }
        if request.is_bad() {
            return Err(PlaceRefusal::BadRequest);
        }
        let Some(slot) = lowest_free(&self.slots) else {
            return Err(PlaceRefusal::NoSlot);
        };
        if self.ends(request.lane()).is_full() {
            return Err(PlaceRefusal::RingFull);
        }
        let Some(ticket) = self.tickets.peek() else {
            return Err(PlaceRefusal::TicketsExhausted);
        };
        Ok((slot, ticket))
    }

    /// Places a request: stores its data, the list of its pages if it needs one, and its entry, and no other byte. The
    /// controller sees it after the next `ring`. The answer will have the same ticket.
    ///
    /// # Errors
    ///
    /// The first of `NotReady`, `BadRequest`, `NoSlot`, `RingFull` and `TicketsExhausted` that holds. Nothing then
    /// changes, and the port is not called.
    pub fn place<P: Port>(
        &mut self,
        port: &mut P,
        request: &Request<'_>,
    ) -> Result<Ticket, PlaceRefusal>
        ensures refused { IfErr result (λ refusal. place_refusal self.old request.now ≡ Some refusal) }
        ensures unchanged { OnErr result ((self.new ≡ self.old) × (port.new ≡ port.old)) }
        ensures ticket { IfOk result (λ ticket. (place_refusal self.old request.now ≡ None)
            × (ticket ≡ record { 0 = self.old.next })) }
        ensures placed { OnOk result (IsPlaced P.step self.old request.now port.old self.new port.new) }
        ensures holds { OnOk result (HoldsItsRequest self.old (P.bytes port.old) (P.bytes port.new) request.now) }
        ensures links { P.links port.new ≡ P.links port.old }
    {
        let (slot, ticket) = self.admit(request)?;
        let lane = request.lane();
        let mut ends = self.ends(lane);
        let entry_place = lane.submission_queue() + 64 * u64::from(ends.tail());
        request.payload().store(port, data_area(slot));
        store_page_list(port, slot, request.moved());
        port.store(entry_place, &entry(request, slot).to_bytes());
        ends.put();
        self.slots[slot] = Some(Waiting {
            ticket,
            lane,
            received: Length::new(request.received()),
            live: true,
        });
        self.tickets.advance();
        self.set_ends(lane, ends);
        Ok(ticket)
    }
}

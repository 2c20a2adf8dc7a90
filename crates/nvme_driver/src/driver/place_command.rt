//! Places a command that is no request.

ghost use Rattle.std.specs.Prelude.{◌≡◌, ◌<◌, ◌≤◌, IfOk, IfErr, OnOk, OnErr, Some, None, length};
ghost use Rattle.nvme_wire.specs.Submission.{submission_entry, submission_of};
ghost use Rattle.nvme_spec.specs.Queues.{submission_room};
ghost use Rattle.nvme_spec.specs.Limits.{most_bytes};
ghost use Rattle.nvme_driver.specs.Layout.{slot_count};
ghost use Rattle.nvme_driver.specs.Drivers.{ends as ends_of, ticket_count, free_slot, entry_fields};
ghost use Rattle.nvme_driver.specs.HostCommands.{
  asked_by_host,
  command_refusal,
  moved_by,
  IsCommandPlaced,
  HoldsItsCommand,
};

use super::Driver;
use super::place::{first_entry, second_entry};
use crate::faults::PlaceRefusal;
use crate::host_command::HostCommand;
use crate::layout::data_area;
use crate::length::Length;
use crate::page_list::store_page_list;
use crate::port::Port;
use crate::slots::{Waiting, lowest_free};
use crate::ticket::Ticket;
use nvme_spec::MOST_BYTES;
use nvme_wire::{Sqe, SqeFields};

/// The entry of a command in a slot, whose number is its Command Identifier.
#[tactic(auto, using(nvme_wire::proofs::Made::submission_is_read_back))]
fn entry_in(command: &HostCommand<'_>, slot: usize) -> Sqe
    requires slot { slot < slot_count }
    ensures entry { result ≡ submission_entry (entry_fields (asked_by_host command.now) slot) }
    ensures says { submission_of (submission_entry (entry_fields (asked_by_host command.now) slot))
        ≡ entry_fields (asked_by_host command.now) slot }
{
    let moved = command.payload.moved_length();
    let [cdw10, cdw11, cdw12] = command.host_words();
    Sqe::from(SqeFields {
        opcode: command.host_opcode(),
        cid: slot as u16,
        nsid: command.host_nsid(),
        prp1: first_entry(slot, moved),
        prp2: second_entry(slot, moved),
        cdw10,
        cdw11,
        cdw12,
        cdw13: 0,
        cdw14: 0,
        cdw15: 0,
    })
}

impl Driver {
    /// The slot and the ticket for a command, or the first reason to refuse it.
    fn admit_command(&self, command: &HostCommand<'_>) -> Result<(usize, Ticket), PlaceRefusal>
        ensures refused { IfErr result (λ refusal. command_refusal self.now (asked_by_host command.now)
            ≡ Some refusal) }
        ensures admitted { IfOk result (λ p. (command_refusal self.now (asked_by_host command.now) ≡ None)
            × (free_slot self.now ≡ Some p.0)
            × (p.1 ≡ record { 0 = self.now.next })) }
        ensures short { OnOk result (moved_by command.now.payload ≤ most_bytes) }
        ensures room { OnOk result ((0 < submission_room (ends_of command.now.lane self.now).tail)
            × (self.now.next < ticket_count)) }
        ensures slot { IfOk result (λ p. p.0 < slot_count) }
    {
        if !self.is_up() {
            return Err(PlaceRefusal::NotReady);
        }
        if command.payload.moved_length() > MOST_BYTES {
            return Err(PlaceRefusal::BadRequest);
        }
        let Some(slot) = lowest_free(&self.slots) else {
            return Err(PlaceRefusal::NoSlot);
        };
        if self.ends(command.lane).is_full() {
            return Err(PlaceRefusal::RingFull);
        }
        let Some(ticket) = self.tickets.peek() else {
            return Err(PlaceRefusal::TicketsExhausted);
        };
        Ok((slot, ticket))
    }

    /// Places a command as it is: stores its data, the list of its pages if it needs one, and its entry, and no other
    /// byte. The controller sees it after the next `ring`. The answer will have the same ticket.
    ///
    /// # Errors
    ///
    /// The first of `NotReady`, `BadRequest` (more than 131,072 bytes of data), `NoSlot`, `RingFull` and
    /// `TicketsExhausted` that holds. Nothing then changes, and the port is not called.
    pub fn place_command<P: Port>(
        &mut self,
        port: &mut P,
        command: &HostCommand<'_>,
    ) -> Result<Ticket, PlaceRefusal>
        ensures refused { IfErr result (λ refusal. command_refusal self.old (asked_by_host command.now)
            ≡ Some refusal) }
        ensures unchanged { OnErr result ((self.new ≡ self.old) × (port.new ≡ port.old)) }
        ensures ticket { IfOk result (λ ticket. (command_refusal self.old (asked_by_host command.now) ≡ None)
            × (ticket ≡ record { 0 = self.old.next })) }
        ensures placed { OnOk result (IsCommandPlaced P.step self.old (asked_by_host command.now) port.old self.new
            port.new) }
        ensures holds { OnOk result (HoldsItsCommand self.old (P.bytes port.old) (P.bytes port.new)
            (asked_by_host command.now)) }
        ensures links { P.links port.new ≡ P.links port.old }
    {
        let (slot, ticket) = self.admit_command(command)?;
        let mut ends = self.ends(command.lane);
        let entry_place = command.lane.submission_queue() + 64 * u64::from(ends.tail());
        port.store(data_area(slot), command.payload.sent_bytes());
        store_page_list(port, slot, command.payload.moved_length());
        port.store(entry_place, &entry_in(command, slot).to_bytes());
        ends.put();
        self.slots[slot] = Some(Waiting {
            ticket,
            lane: command.lane,
            received: Length::new(command.payload.received_length()),
            live: true,
        });
        self.tickets.advance();
        self.set_ends(command.lane, ends);
        Ok(ticket)
    }
}

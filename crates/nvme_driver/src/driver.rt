//! A host's driver.

ghost use Rattle.std.specs.Prelude.{◌≡◌, ◌<◌, ◌↔◌, is_ok, IfSome, IsSome};
ghost use Rattle.nvme_driver.specs.Calls.{Calls};
ghost use Rattle.nvme_driver.specs.Drivers.{
  ticket_count,
  new_driver,
  is_up as up,
  ends as ends_of,
  with_ends,
  ring_calls,
  after_reset,
  reset_calls,
};

use crate::ends::Ends;
use crate::faults::NotUp;
use crate::lane::Lane;
use crate::layout::SLOTS;
use crate::port::Port;
use crate::register;
use crate::slots::{Waiting, abort_all};
use crate::state::State;
use crate::ticket::{Ticket, Tickets};
use std::marker::Model;

mod bring_up;
mod place;
mod place_command;
mod poll;

/// A host's driver: it places requests in a window that it shares with a controller, and delivers the answer to each
/// once. Contracts see the record `Driver` of its state, the next ticket, its slots and its ends of the queues.
#[derive(Drop)]
pub struct Driver {
    state: State,
    tickets: Tickets,
    slots: [Option<Waiting>; 24],
    /// Whether the slots are known to have no aborted request.
    none_aborted: bool,
    admin: Ends,
    io: Ends,
}

impl Model for Driver {
    ghost use Rattle.std.specs.Prelude.{IsTrue, None};
    ghost use Rattle.nvme_driver.specs.Drivers.{Driver as Record};
    ghost use Rattle.nvme_driver.specs.Polls.{IsOldest};

    ghost Value = { Record };

    ghost view = { λ d. record { state = d.state; next = d.tickets; slots = d.slots; admin = d.admin; io = d.io } };

    ghost invariant = { λ d. IsTrue d.none_aborted → IsOldest d.slots None };
}

impl Driver {
    /// A driver that is down, whose first ticket is 1.
    pub fn new() -> Driver
        ensures { result ≡ new_driver 1 }
    {
        Driver::starting_at(1)
    }

    /// A driver that is down, with this first ticket.
    pub fn starting_at(first: u64) -> Driver
        ensures { result ≡ new_driver first }
    {
        Driver {
            state: State::Down,
            tickets: Tickets::starting_at(first),
            slots: [None; SLOTS],
            none_aborted: false,
            admin: Ends::new(),
            io: Ends::new(),
        }
    }

    /// Whether the driver can be used.
    pub fn state(&self) -> State
        ensures { result ≡ self.now.state }
    {
        self.state
    }

    /// The next ticket, or `None` if none is left.
    pub fn next_ticket(&self) -> Option<Ticket>
        ensures next { IfSome result (λ ticket. ticket ≡ record { 0 = self.now.next }) }
        ensures left { IsSome result ↔ (self.now.next < ticket_count) }
    {
        self.tickets.peek()
    }

    /// The slots of the requests that were not delivered, live or aborted.
    pub fn slots(&self) -> &[Option<Waiting>]
        ensures { result.now ≡ self.now.slots }
    {
        &self.slots
    }

    /// Whether the driver is up.
    fn is_up(&self) -> bool
        ensures { result ≡ up self.now.state }
    {
        matches!(self.state, State::Up)
    }

    /// The ends of a lane (queue pair).
    fn ends(&self, lane: Lane) -> Ends
        ensures { result ≡ ends_of lane self.now }
    {
        match lane {
            Lane::Admin => self.admin,
            Lane::Io => self.io,
        }
    }

    /// Replaces the ends of a lane.
    fn set_ends(&mut self, lane: Lane, ends: Ends)
        ensures { self.new ≡ with_ends lane ends self.old }
    {
        match lane {
            Lane::Admin => self.admin = ends,
            Lane::Io => self.io = ends,
        }
    }

    /// Writes both lanes' tails to their doorbells, so that the controller sees the placed requests.
    ///
    /// # Errors
    ///
    /// `NotUp` if the driver is not up. The port is not called then.
    pub fn ring<P: Port>(&mut self, port: &mut P) -> Result<(), NotUp>
        ensures driver { self.new ≡ self.old }
        ensures up { is_ok result ≡ up self.old.state }
        ensures calls { Calls P.step port.old (ring_calls self.old) port.new }
        ensures links { P.links port.new ≡ P.links port.old }
    {
        if !self.is_up() {
            return Err(NotUp);
        }
        port.write32(Lane::Admin.tail_doorbell(), u32::from(self.admin.tail()));
        port.write32(Lane::Io.tail_doorbell(), u32::from(self.io.tail()));
        Ok(())
    }

    /// Resets the controller. The driver is then down, and all requests that were not delivered are aborted.
    pub fn reset<P: Port>(&mut self, port: &mut P)
        ensures driver { self.new ≡ after_reset self.old }
        ensures calls { Calls P.step port.old reset_calls port.new }
        ensures links { P.links port.new ≡ P.links port.old }
    {
        port.write32(register::CC, 0);
        abort_all(&mut self.slots);
        self.none_aborted = false;
        self.state = State::Down;
        self.admin = Ends::new();
        self.io = Ends::new();
    }
}

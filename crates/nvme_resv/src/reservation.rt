//! The reservation of a namespace (Base Specification: Reservations).

ghost use Rattle.std.specs.Prelude.{◌≡◌, ◌↔◌, IsTrue};
ghost use Rattle.nvme_spec.specs.Reservation as resv;
ghost use Rattle.nvme_spec.specs.Power.{cycled_reservation};
ghost use Rattle.nvme_resv.specs.Answers.{HasRoomFor};

use crate::registrants::{Registrants, is_registered};
use nvme_spec::{Hold, HostId, Registrant, Role};
use std::marker::Model;

mod actions;
mod report;

/// The reservation of one namespace: its registrants with their keys, its holder, the generation counter, and whether
/// these persist through power loss.
#[derive(Drop)]
pub struct Reservation {
    registrants: Registrants,
    hold: Hold,
    generation: u32,
    ptpl: bool,
}

impl Model for Reservation {
    ghost use Rattle.nvme_spec.specs.Reservation.{Reservation as State, IsRising};

    ghost Value = { State };

    ghost view = { λ a. record {
      registrants = a.registrants.items;
      hold = a.hold;
      generation = a.generation;
      ptpl = a.ptpl;
    } };

    ghost invariant = { λ a. IsRising a.registrants.items };
}

impl Reservation {
    /// The reservation of a new namespace: nobody is registered, nobody holds it, the generation is 0, and nothing
    /// persists.
    pub fn new() -> Self
        ensures { result ≡ resv.unreserved }
    {
        Reservation {
            registrants: Registrants::new(),
            hold: Hold::Free,
            generation: 0,
            ptpl: false,
        }
    }

    /// The holder of the reservation, with its type (Reservation Types).
    pub fn hold(&self) -> Hold
        ensures { result ≡ self.now.hold }
    {
        self.hold
    }

    /// The registrants with their keys, by rising host.
    pub fn registrants(&self) -> &[Registrant]
        ensures { result.now ≡ self.now.registrants }
    {
        self.registrants.as_slice()
    }

    /// The generation counter.
    pub fn generation(&self) -> u32
        ensures { result ≡ self.now.generation }
    {
        self.generation
    }

    /// Whether registrants, holder and generation persist through power loss (PTPL).
    pub fn ptpl(&self) -> bool
        ensures { result ≡ self.now.ptpl }
    {
        self.ptpl
    }

    /// Sets whether registrants, holder and generation persist through power loss. Nothing else changes.
    pub fn set_ptpl(&mut self, ptpl: bool)
        ensures { self.new ≡ record self.old { ptpl = ptpl } }
    {
        self.ptpl = ptpl;
    }

    /// Applies a power cycle: unless they persist, nobody is registered any more, nobody holds the reservation, and the
    /// generation is 0.
    pub fn power_cycle(&mut self)
        ensures { self.new ≡ cycled_reservation self.old }
    {
        if !self.ptpl {
            self.registrants.clear();
            self.hold = Hold::Free;
            self.generation = 0;
        }
    }

    /// The role of the host. Under types 5 and 6 each registrant is a holder.
    pub fn role(&self, host: HostId) -> Role
        ensures { result ≡ resv.role_of self.now host }
    {
        if !is_registered(&self.registrants, host) {
            return Role::Outsider;
        }
        match self.hold {
            Hold::All(_) => Role::Holder,
            Hold::One(_, holder) if holder == host => Role::Holder,
            _ => Role::Registrant,
        }
    }

    /// Whether the host is registered or can be: a namespace has at most sixteen registrants.
    pub fn has_room_for(&self, host: HostId) -> bool
        ensures room { IsTrue result ↔ HasRoomFor self.now host }
        // The registrants are in rising order, so each host is counted once.
        ensures rising { resv.IsRising self.now.registrants }
    {
        is_registered(&self.registrants, host) || !self.registrants.is_full()
    }

    fn is_holder(&self, host: HostId) -> bool
        ensures { result ≡ resv.is_holder self.now host }
    {
        matches!(self.role(host), Role::Holder)
    }
}

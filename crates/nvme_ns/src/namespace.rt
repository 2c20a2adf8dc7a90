//! Namespaces.

ghost use Rattle.std.specs.Prelude.{◌≡◌, ◌+◌, ◌≤◌, false};
ghost use Rattle.nvme_spec.specs.AdminCommands.{state_of};
ghost use Rattle.nvme_spec.specs.Power.{cycled_namespace};
ghost use Rattle.nvme_spec.specs.World.{forbids_writing};
ghost use Rattle.std.specs.Borrow.{sem};
ghost use Rattle.nvme_spec.specs.Reservation.{unreserved};

use nvme_resv::Reservation;
use nvme_spec::{NsConfig, Protection};
use std::marker::Model;

/// A namespace: its place on the medium, whether it is shared, its reservation and its write protection.
#[derive(Drop)]
pub struct Namespace {
    nsid: u32,
    first: u64,
    blocks: u64,
    shared: bool,
    protection: Protection,
    reservation: Reservation,
}

impl Model for Namespace {
    ghost use Rattle.std.specs.Prelude.{◌≤◌};
    ghost use Rattle.nvme_spec.specs.World.{Namespace as State};

    ghost Value = { State };

    // Identifiers are 1 to 8.
    ghost invariant = { λ a. (1 ≤ a.nsid) × (a.nsid ≤ 8) };

    ghost view = { λ a. record {
      nsid = a.nsid;
      first = a.first;
      blocks = a.blocks;
      shared = a.shared;
      protection = a.protection;
      reservation = a.reservation;
    } };
}

impl Default for Namespace {
    fn default() -> Self
        ensures { result ≡ record {
          nsid = 1;
          first = 0;
          blocks = 0;
          shared = false;
          protection = Protection.Open;
          reservation = unreserved;
        } }
    {
        let empty = NsConfig {
            nsid: 1,
            blocks: 0,
            shared: false,
        };
        Namespace::new(&empty, 0)
    }
}

impl Namespace {
    ghost use Rattle.nvme_ns.specs.Lending.{LendsOwnReservation};

    /// A namespace that begins at block `first` of the medium. It is not write protected, and nobody has reserved it.
    /// Its identifier must be 1 to 8.
    pub fn new(config: &NsConfig, first: u64) -> Self
        requires { (1 ≤ config.now.nsid) × (config.now.nsid ≤ 8) }
        ensures { result ≡ record {
          nsid = config.now.nsid;
          first = first;
          blocks = config.now.blocks;
          shared = config.now.shared;
          protection = Protection.Open;
          reservation = unreserved;
        } }
    {
        Namespace {
            nsid: config.nsid,
            first,
            blocks: config.blocks,
            shared: config.shared,
            protection: Protection::Open,
            reservation: Reservation::new(),
        }
    }

    /// The namespace identifier.
    pub fn nsid(&self) -> u32
        ensures { result ≡ self.now.nsid }
    {
        self.nsid
    }

    /// Its first block on the medium.
    pub fn first_block(&self) -> u64
        ensures { result ≡ self.now.first }
    {
        self.first
    }

    /// Its size in blocks of 512 bytes.
    pub fn blocks(&self) -> u64
        ensures { result ≡ self.now.blocks }
    {
        self.blocks
    }

    /// Whether it may be attached to several controllers.
    pub fn is_shared(&self) -> bool
        ensures shared { result ≡ self.now.shared }
        // Identifiers are 1 to 8.
        ensures known { (1 ≤ self.now.nsid) × (self.now.nsid ≤ 8) }
    {
        self.shared
    }

    /// Its write protection.
    pub fn protection(&self) -> Protection
        ensures { result ≡ self.now.protection }
    {
        self.protection
    }

    /// The number of its write protection (Write Protection State): 0 none, 1 write protected, 2 write protected until
    /// a power cycle.
    pub fn protection_state(&self) -> u32
        ensures { result ≡ state_of self.now.protection }
    {
        match self.protection {
            Protection::Open => 0,
            Protection::Protected => 1,
            Protection::UntilCycle => 2,
        }
    }

    /// Whether it is write protected.
    pub fn is_protected(&self) -> bool
        ensures { result ≡ forbids_writing self.now.protection }
    {
        !matches!(self.protection, Protection::Open)
    }

    /// Its registrants and holder.
    pub fn reservation(&self) -> &Reservation
        ensures { result.now ≡ self.now.reservation }
    {
        &self.reservation
    }

    /// Sets the write protection, from any state.
    pub fn set_protection(&mut self, protection: Protection)
        ensures { self.new ≡ record self.old { protection = protection } }
    {
        self.protection = protection;
    }

    /// Applies a power cycle: write protection until a power cycle ends, and what persists of the reservation stays.
    pub fn power_cycle(&mut self)
        ensures { self.new ≡ cycled_namespace self.old }
    {
        if matches!(self.protection, Protection::UntilCycle) {
            self.protection = Protection::Open;
        }
        self.reservation.power_cycle();
    }

    /// Borrows the reservation. Nothing else changes.
    pub fn reservation_mut(&mut self) -> &mut Reservation
        ensures* writes_back { sem 𝓛 (LendsOwnReservation self.entry result) }
        ensures value { result.now ≡ self.old.reservation }
    {
        &mut self.reservation
    }
}

//! A fleet, and the host of its last controller, which uses it through its driver.

ghost use Rattle.std.specs.Prelude.{◌≤◌};

use super::batch::Batch;
use crate::opening::{configuration, medium, want_of_memory};
use nvme_fleet::{Answer, Executed, Fleet, FleetEvent, FleetSeen, Request};
use nvme_medium::MemMedium;
use std::alloc::Global;
use std::io;

/// The kind of the measured requests.
#[derive(Clone, Copy)]
pub(crate) enum Kind {
    /// A Read of one block.
    SmallRead,
    /// A Write of one block.
    SmallWrite,
    /// A Read of the first block past the namespace's end.
    Denied,
    /// A Read of 256 blocks.
    LargeRead,
    /// A Write of 256 blocks.
    LargeWrite,
}

impl Kind {
    /// The number of open requests. Requests of one block fill a lane (queue pair) of the driver. A request of 256
    /// blocks is open alone, so that its data always have the same address in host memory, as in a plain copy.
    fn count(self) -> u32
        ensures { 1 ≤ result }
    {
        match self {
            Kind::SmallRead | Kind::SmallWrite | Kind::Denied => 7,
            Kind::LargeRead | Kind::LargeWrite => 1,
        }
    }

    /// The number of blocks that one request reads or writes.
    fn blocks(self) -> u32 {
        match self {
            Kind::SmallRead | Kind::SmallWrite | Kind::Denied => 1,
            Kind::LargeRead | Kind::LargeWrite => 256,
        }
    }

    /// The first block of a request of the `round`-th batch.
    fn slba(self, round: u32) -> u64 {
        match self {
            Kind::SmallRead | Kind::SmallWrite => u64::from(round % 256),
            Kind::Denied => 256,
            Kind::LargeRead | Kind::LargeWrite => 0,
        }
    }

    /// A request of the `round`-th batch. A Write has these bytes.
    fn request(self, bytes: &[u8], round: u32) -> Request<'_> {
        let (nsid, slba, blocks) = (1, self.slba(round), self.blocks());
        match self {
            Kind::SmallRead | Kind::Denied | Kind::LargeRead => {
                Request::Read { nsid, slba, blocks }
            }
            Kind::SmallWrite | Kind::LargeWrite => Request::Write { nsid, slba, bytes },
        }
    }
}

/// The fleet, its last controller, and the bytes of a Write.
#[derive(Drop)]
pub(crate) struct Driven {
    fleet: Fleet<MemMedium>,
    cntlid: u16,
    kind: Kind,
    bytes: Vec<u8>,
}

impl Driven {
    /// Opens a fleet of `hosts` hosts, each with a driver, which enables its controller.
    pub(crate) fn new(alloc: Global, hosts: u16, kind: Kind) -> io::Result<Driven> {
        let config = configuration(alloc, hosts)?;
        let fleet = Fleet::new(alloc, &config, medium(alloc)?).map_err(|_| want_of_memory())?;
        let mut driven = Driven {
            fleet,
            cntlid: hosts,
            kind,
            bytes: vec![in alloc; 2; 512 * kind.blocks() as usize]?,
        };
        for cntlid in 1..hosts.min(16) + 1 {
            driven.apply(FleetEvent::BringUp(cntlid));
        }
        Ok(driven)
    }

    /// Applies an event. The function has no contract, so that the proofs of its callers do not get the fleet's.
    #[inline(always)]
    fn apply(&mut self, event: FleetEvent<'_>) -> FleetSeen {
        self.fleet.apply(event)
    }
}

impl Batch for Driven {
    fn count(&self) -> u32 {
        self.kind.count()
    }

    fn submit(&mut self, round: u32) {
        for _ in 0..self.kind.count() {
            let request = self.kind.request(self.bytes.as_slice(), round);
            self.fleet.apply(FleetEvent::Place(self.cntlid, request));
        }
    }

    fn ring(&mut self) {
        for _ in 0..self.kind.count() {
            self.apply(FleetEvent::Ring(self.cntlid));
        }
    }

    fn fetch(&mut self) {
        for _ in 0..self.kind.count() {
            self.apply(FleetEvent::Fetch(self.cntlid, 1));
        }
    }

    fn execute(&mut self) -> u64 {
        let mut sum = 0_u64;
        for _ in 0..self.kind.count() {
            if let FleetSeen::Executed(Executed::Posted(outcome)) = self.apply(FleetEvent::Execute(
                self.cntlid,
                0,
            )) {
                sum = sum.wrapping_add(1 + u64::from(outcome.status.sc));
            }
        }
        sum
    }

    /// Polls, and counts the bytes that the driver delivers.
    fn complete(&mut self) -> u64 {
        let mut sum = 0_u64;
        for _ in 0..self.kind.count() {
            if let FleetSeen::Polled(Ok(Some(Answer::Done { len, .. }))) = self.apply(
                FleetEvent::Poll(self.cntlid),
            ) {
                sum = sum.wrapping_add(len as u64);
            }
        }
        sum
    }
}

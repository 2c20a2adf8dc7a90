//! A subsystem, and the host of its last controller, which uses it by its own stores and register writes.

use super::batch::Batch;
use crate::opening::{configuration, medium, want_of_memory};
use nvme_medium::MemMedium;
use nvme_subsys::{Event, Executed, Seen, Subsystem};
use std::alloc::Global;
use std::io;

/// The address of the completion queue with id 1.
const COMPLETIONS: u64 = 0x3000;

const COMMANDS: u64 = 0x4000;

/// The address of the PRP list, and that of the data pages.
const LIST: u64 = 0x8000;

const PAGES: u64 = 0x10000;

/// The number of commands of a batch.
const BATCH: u32 = 8;

/// The kind of the measured commands.
#[derive(Clone, Copy)]
pub(crate) enum Kind {
    /// A Read of one block.
    Small,
    /// A Read of the first block past the namespace's end.
    Denied,
    /// A Read of 256 blocks with a PRP list.
    Large,
}

/// The subsystem, and the last controller with the tail of its I/O queue.
#[derive(Drop)]
pub(crate) struct Host {
    subsystem: Subsystem<MemMedium>,
    cntlid: u16,
    kind: Kind,
    tail: u32,
}

/// An entry with two PRP entries and the double words 10 to 12.
fn entry(opcode: u8, nsid: u8, prp: [u64; 2], dwords: [u32; 3]) -> [u8; 64] {
    let mut bytes = [0; 64];
    bytes[0] = opcode;
    bytes[4] = nsid;
    bytes[24..32].copy_from_slice(&prp[0].to_le_bytes());
    bytes[32..40].copy_from_slice(&prp[1].to_le_bytes());
    bytes[40..44].copy_from_slice(&dwords[0].to_le_bytes());
    bytes[44..48].copy_from_slice(&dwords[1].to_le_bytes());
    bytes[48..52].copy_from_slice(&dwords[2].to_le_bytes());
    bytes
}

/// The entry of a command of the `round`-th batch of its kind.
fn command(kind: Kind, round: u32) -> [u8; 64] {
    match kind {
        Kind::Small => entry(2, 1, [PAGES, 0], [round % 256, 0, 0]),
        Kind::Denied => entry(2, 1, [PAGES, 0], [256, 0, 0]),
        Kind::Large => entry(2, 1, [PAGES, LIST], [0, 0, 255]),
    }
}

impl Host {
    /// Opens a subsystem of `controllers` controllers, and enables the last one, with an I/O queue pair of 64 entries
    /// and id 1.
    pub(crate) fn new(alloc: Global, controllers: u16, kind: Kind) -> io::Result<Host> {
        let config = configuration(alloc, controllers)?;
        let subsystem = Subsystem::new(alloc, &config, medium(alloc)?).map_err(
            |_| want_of_memory(),
        )?;
        let mut host = Host {
            subsystem,
            cntlid: controllers,
            kind,
            tail: 0,
        };
        host.enable();
        host.list_pages();
        Ok(host)
    }

    /// Applies an event. The function has no contract, so that the proofs of its callers do not get the subsystem's.
    #[inline(always)]
    fn apply(&mut self, event: Event<'_>) -> Seen {
        self.subsystem.apply(event)
    }

    fn write(&mut self, offset: u64, value: u32) {
        self.apply(Event::Write32(self.cntlid, offset, value));
    }

    fn enable(&mut self) {
        self.write(0x24, 0x001f_0007);
        self.write(0x30, 0x1000);
        self.write(0x14, 0x0046_0001);
        let completions = entry(5, 0, [COMPLETIONS, 0], [0x003f_0001, 1, 0]);
        let commands = entry(1, 0, [COMMANDS, 0], [0x003f_0001, 0x0001_0001, 0]);
        self.apply(Event::Store(self.cntlid, 0, &completions));
        self.apply(Event::Store(self.cntlid, 64, &commands));
        self.write(0x1000, 2);
        for _ in 0..2 {
            self.apply(Event::Fetch(self.cntlid, 0));
            self.apply(Event::Execute(self.cntlid, 0));
        }
    }

    fn list_pages(&mut self) {
        for i in 0..31 {
            let page = PAGES + 4096 * (i + 1);
            self.apply(Event::Store(self.cntlid, LIST + 8 * i, &page.to_le_bytes()));
        }
    }
}

impl Batch for Host {
    fn count(&self) -> u32 {
        BATCH
    }

    /// Stores the entries of a batch at the tail.
    fn submit(&mut self, round: u32) {
        let entry = command(self.kind, round);
        for i in 0..BATCH {
            let slot = u64::from(self.tail.wrapping_add(i) % 64);
            self.apply(Event::Store(self.cntlid, COMMANDS + 64 * slot, &entry));
        }
        self.tail = self.tail.wrapping_add(BATCH) % 64;
    }

    fn ring(&mut self) {
        for _ in 0..BATCH {
            self.write(0x1008, self.tail);
        }
    }

    fn fetch(&mut self) {
        for _ in 0..BATCH {
            self.apply(Event::Fetch(self.cntlid, 1));
        }
    }

    fn execute(&mut self) -> u64 {
        let mut sum = 0_u64;
        for _ in 0..BATCH {
            if let Seen::Executed(Executed::Posted(outcome)) = self.apply(Event::Execute(
                self.cntlid,
                0,
            )) {
                sum = sum.wrapping_add(1 + u64::from(outcome.status.sc));
            }
        }
        sum
    }

    /// Rings the head doorbell for all completions.
    fn complete(&mut self) -> u64 {
        for _ in 0..BATCH {
            self.write(0x100c, self.tail);
        }
        0
    }
}

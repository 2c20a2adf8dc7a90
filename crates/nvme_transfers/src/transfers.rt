//! The commands of a connection that have not got all their data.

ghost use Rattle.std.specs.Prelude.{◌≡◌, ◌<◌, IfSome, length};
ghost use Rattle.nvme_transfers.specs.Transfers as def;

use crate::command::{Command, Refused, Request};
use crate::part::{Part, Taken};
use crate::transfer::Transfer;
use arrayvec::ArrayVec;
use nvme_pdu::Fatal;
use std::marker::Model;

/// Data Transfer Out of Range.
pub(crate) const OUT_OF_RANGE: Fatal = Fatal {
    status: 4,
    field: 0,
};

/// The commands of a connection that have not got all their data: at most 8 have an R2T, with the tags 0 to 7, and 64
/// wait for theirs.
#[derive(Drop)]
pub struct Transfers {
    has_ended: bool,
    active: [Option<Transfer>; 8],
    waiting: ArrayVec<Command, 64>,
}

impl Model for Transfers {
    ghost use Rattle.nvme_transfers.specs.States.{State};

    ghost Value = { State };

    ghost view = { λ t. record {
      has_ended = t.has_ended;
      active = t.active;
      waiting = t.waiting.items;
    } };
}

impl Transfers {
    /// No commands.
    pub fn new() -> Transfers
        ensures { result ≡ def.none }
    {
        Transfers {
            has_ended: false,
            active: [None; 8],
            waiting: ArrayVec::new(),
        }
    }

    /// How many commands there are.
    pub fn count(&self) -> usize
        ensures { result ≡ def.count self.now }
    {
        count_active(&self.active) + self.waiting.len()
    }

    /// Whether a command with this identifier is in flight.
    pub fn has(&self, cid: u16) -> bool
        ensures { result ≡ def.has self.now cid }
    {
        has_active(&self.active, cid) || has_waiting(self.waiting.as_slice(), cid)
    }

    /// The command that has this tag.
    pub fn transfer(&self, tag: u16) -> Option<Transfer>
        ensures { result ≡ def.transfer_at self.now tag }
    {
        self.active.get(usize::from(tag)).copied().flatten()
    }

    /// Whether a command may wait for its R2T; else why not.
    fn admit(&self, command: &Command) -> Result<(), Refused>
        ensures { result ≡ def.admitted self.now command.now }
    {
        if self.has_ended {
            return Err(Refused::Ended);
        }
        if command.length == 0 {
            return Err(Refused::NoData);
        }
        if self.has(command.cid()) {
            return Err(Refused::InFlight);
        }
        if self.waiting.is_full() {
            return Err(Refused::NoRoom);
        }
        Ok(())
    }

    /// A command waits for its R2T. A refused one changes nothing.
    pub fn begin(&mut self, command: Command) -> Result<(), Refused>
        ensures state { self.new ≡ def.after_begin self.old command }
        ensures result { result ≡ def.admitted self.old command }
    {
        self.admit(&command)?;
        self.waiting.push(command);
        Ok(())
    }

    /// The R2T of the command that waits longest, if a tag is free.
    pub fn next_request(&mut self) -> Option<Request>
        ensures state { self.new ≡ def.after_request self.old }
        ensures result { result ≡ def.next_request self.old }
    {
        let tag = lowest_free(&self.active)?;
        let command = self.waiting.pop_at(0)?;
        self.active[tag] = Some(Transfer::of(command));
        Some(Request {
            cid: command.cid(),
            tag: tag as u16,
            length: command.length,
        })
    }

    /// Takes a part, or says why the connection ends: then nothing changes, and no byte of the part may be used.
    pub fn take(&mut self, part: &Part) -> Result<Taken, Fatal>
        ensures state { self.new ≡ def.after_part self.old part.now }
        ensures result { result ≡ def.taken self.old part.now }
    {
        let transfer = match self.transfer(part.tag) {
            Some(transfer) => transfer,
            None => return Err(OUT_OF_RANGE),
        };
        if !transfer.fits(part) {
            return Err(OUT_OF_RANGE);
        }
        let now = transfer.with(part);
        let tag = usize::from(part.tag);
        if part.is_last {
            self.active[tag] = None;
            return Ok(Taken {
                begin: part.offset,
                completed: Some(now.completed()),
            });
        }
        self.active[tag] = Some(now);
        Ok(Taken {
            begin: part.offset,
            completed: None,
        })
    }

    /// The connection ends: all commands are dropped, and no more are taken.
    pub fn end(&mut self)
        ensures { self.new ≡ def.ended }
    {
        self.has_ended = true;
        self.active = [None; 8];
        self.waiting.clear();
    }
}

/// How many tags are taken.
fn count_active(active: &[Option<Transfer>]) -> usize
    ensures { result ≡ def.count_active active.now }
{
    active.iter().filter(|it| it.is_some()).count()
}

/// Whether a command with this identifier has a tag.
fn has_active(active: &[Option<Transfer>], cid: u16) -> bool
    ensures { result ≡ def.has_active active.now cid }
{
    active.iter().any(|it| has_cid(it, cid))
}

/// Whether a tag's command has this identifier.
fn has_cid(transfer: &Option<Transfer>, cid: u16) -> bool
    ensures { result ≡ def.is_of cid transfer.now }
{
    match transfer {
        Some(transfer) => transfer.command.cid() == cid,
        None => false,
    }
}

/// Whether a command with this identifier waits.
fn has_waiting(waiting: &[Command], cid: u16) -> bool
    ensures { result ≡ def.has_waiting waiting.now cid }
{
    waiting.iter().any(|it| it.cid() == cid)
}

/// The lowest free tag.
fn lowest_free(active: &[Option<Transfer>]) -> Option<usize>
    ensures exact { result ≡ def.free_tag active.now }
    ensures within { IfSome result (λ tag. tag < length active.now) }
{
    active.iter().position(|it| it.is_none())
}

//! The commands of a connection that have no response yet.

ghost use Rattle.std.specs.Prelude.{◌≡◌, ◌≤◌};
ghost use Rattle.nvme_responses.specs.Responses as def;

use crate::refused::Refused;
use crate::reply::{Reply, Response};
use crate::stage::Stage;
use crate::status::status_field;

/// The most commands without a response.
const MOST: usize = 64;

/// The commands of a connection that have no response yet, and what their responses need. C code keeps it between
/// calls. All zeros are a connection that has not connected. Any other numbers are read as some connection.
#[repr(C)]
#[derive(Clone, Copy)]
pub struct Responses {
    /// SQSIZE: the number of entries of the submission queue, less one.
    pub sqsize: u16,
    /// How many commands were accepted since Connect, modulo the number of entries.
    pub head: u16,
    /// How many commands have no response: 64, if it is more.
    pub count: u16,
    /// 0 to 2 in the order of `Stage`; others have ended.
    pub stage: u8,
    /// Whether Connect has disabled flow control of the submission queue, so that SQHD is FFFFh.
    pub is_flow_control_disabled: bool,
    /// The identifiers of the commands without a response, and then anything.
    pub outstanding: [u16; 64],
}

impl Responses {
    /// A connection that has not connected.
    pub fn new() -> Responses
        ensures { def.seen result ≡ def.none }
    {
        Responses {
            sqsize: 0,
            head: 0,
            count: 0,
            stage: 0,
            is_flow_control_disabled: false,
            outstanding: [0; 64],
        }
    }

    /// How many commands have no response.
    #[inline(always)]
    fn length(&self) -> usize
        ensures exact { result ≡ def.most 64 self.now.count }
        ensures within { result ≤ 64 }
    {
        let count = usize::from(self.count);
        if count < MOST { count } else { MOST }
    }

    /// Counts a command. Whether its identifier is that of another command without a response: such a command has to be
    /// answered with Command ID Conflict. A refused one changes nothing.
    pub fn accept(&mut self, cid: u16) -> Result<bool, Refused>
        ensures state { def.seen self.new ≡ def.after_accept (def.seen self.old) cid }
        ensures result { result ≡ def.accepted (def.seen self.old) cid }
    {
        let length = self.length();
        if Stage::of(self.stage) != Stage::Open {
            return Err(Refused::Ended);
        }
        if length >= MOST || length > usize::from(self.sqsize) {
            return Err(Refused::Full);
        }
        let is_conflict = has(&self.outstanding[..length], cid);
        self.outstanding[length] = cid;
        self.count = length as u16 + 1;
        self.head = following(self.sqsize, self.head);
        Ok(is_conflict)
    }

    /// The response to a command: one with its identifier has none yet. Else nothing changes, and nothing may be sent.
    pub fn respond(&mut self, reply: &Reply) -> Option<Response>
        ensures state { def.seen self.new ≡ def.after_respond (def.seen self.old) reply.now }
        ensures result { result ≡ def.response (def.seen self.old) reply.now }
    {
        if Stage::of(self.stage) == Stage::Ended {
            return None;
        }
        if !self.take_out(reply.cid) {
            return None;
        }
        Some(Response {
            dw0: reply.dw0,
            dw1: reply.dw1,
            sqhd: self.sqhd(),
            cid: reply.cid,
            status: status_field(reply.status),
        })
    }

    /// A command will have no response: a reset of the controller has dropped it. Whether there was one with this
    /// identifier.
    pub fn forget(&mut self, cid: u16) -> bool
        ensures state { def.seen self.new ≡ def.after_forget (def.seen self.old) cid }
        ensures result { result ≡ def.is_outstanding (def.seen self.old) cid }
    {
        self.take_out(cid)
    }

    /// Connect has succeeded: SQSIZE, and whether it disables flow control of the submission queue. Connect is the
    /// first command that the queue counts.
    pub fn connected(&mut self, sqsize: u16, is_flow_control_disabled: bool)
        ensures { def.seen self.new ≡ def.after_connect (def.seen self.old) sqsize is_flow_control_disabled }
    {
        self.sqsize = sqsize;
        self.head = following(sqsize, 0);
        self.is_flow_control_disabled = is_flow_control_disabled;
    }

    /// No more commands are accepted. Those without a response may still get one.
    pub fn end(&mut self)
        ensures { def.seen self.new ≡ def.after_end (def.seen self.old) }
    {
        if Stage::of(self.stage) == Stage::Open {
            self.stage = 1;
        }
    }

    /// The connection has ended: commands without a response never get one.
    pub fn stop(&mut self)
        ensures { def.seen self.new ≡ def.after_stop (def.seen self.old) }
    {
        self.stage = 2;
        self.count = 0;
    }

    /// Takes a command with this identifier out of those without a response; whether there was one.
    #[inline(always)]
    fn take_out(&mut self, cid: u16) -> bool
        ensures state { def.seen self.new ≡ def.after_forget (def.seen self.old) cid }
        ensures result { result ≡ def.is_outstanding (def.seen self.old) cid }
    {
        let length = self.length();
        match place(&self.outstanding[..length], cid) {
            Some(place) => {
                self.outstanding[place] = self.outstanding[length - 1];
                self.count = length as u16 - 1;
                true
            }
            None => false,
        }
    }

    /// SQHD of a response.
    #[inline(always)]
    fn sqhd(&self) -> u16
        ensures { result ≡ def.sqhd (def.seen self.now) }
    {
        if self.is_flow_control_disabled {
            0xffff
        } else {
            self.head
        }
    }
}

/// The head of a queue after one more command.
#[inline(always)]
fn following(sqsize: u16, head: u16) -> u16
    ensures { result ≡ def.following sqsize head }
{
    if head < sqsize { head + 1 } else { 0 }
}

/// Whether a command has this identifier.
#[inline(always)]
fn has(outstanding: &[u16], cid: u16) -> bool
    ensures { result ≡ def.has outstanding.now cid }
{
    outstanding.iter().any(|it| *it == cid)
}

/// The first command with this identifier.
#[inline(always)]
fn place(outstanding: &[u16], cid: u16) -> Option<usize>
    ensures { result ≡ def.place outstanding.now cid }
{
    outstanding.iter().position(|it| *it == cid)
}

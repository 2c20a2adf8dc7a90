//! The Fabrics commands other than Connect.

ghost use Rattle.std.specs.Prelude.{◌≡◌, Ok, Err};
ghost use Rattle.nvme_fabrics.specs.Commands as def;
ghost use Rattle.nvme_fabrics.specs.Sessions.{live};

use crate::answer::{Answer, check};
use crate::fabrics::Fabrics;
use crate::session::Session;
use nvme_wire::{u16_at, u32_at};

/// A Fabrics command that its connection may issue.
#[derive(Clone, Copy)]
pub enum Command {
    /// Authentication Send or Authentication Receive.
    Authenticate,
    /// Disconnect.
    Disconnect,
    /// Property Get of a property that there is.
    GetProperty,
    /// Property Set of Controller Configuration.
    SetProperty,
}

impl Fabrics {
    /// Executes a Fabrics command other than Connect: Disconnect ends the queue, and a Property Set that resets a
    /// controller ends its I/O queues. It returns what the caller has to do, or the answer of the first rule that is
    /// broken.
    pub fn execute(
        &mut self,
        session: &mut Session,
        connection: u64,
        entry: &[u8; 64],
    ) -> Result<Command, Answer>
        ensures fabrics { self.new ≡ def.fabrics_after self.old session.old connection entry.now }
        ensures session { session.new ≡ def.session_after self.old session.old connection entry.now }
        ensures result { result ≡ def.command_of (live self.old session.old connection) entry.now }
    {
        let now = self.live(session, connection);
        let command = command_of(&now, entry)?;
        match (command, now) {
            (Command::Disconnect, _) => self.close(session, connection),
            (Command::SetProperty, Session::Queue(index, _)) if entry[48] % 2 == 0 => {
                self.end_io_queues(index);
            }
            _ => (),
        }
        Ok(command)
    }
}

/// The command in an entry, or the answer of the first rule that is broken.
#[tactic(auto, unfolding(crate::specs::Commands::command_of))]
fn command_of(live: &Session, entry: &[u8; 64]) -> Result<Command, Answer>
    ensures { result ≡ def.command_of live.now entry.now }
{
    match (entry[4], live) {
        (6, _) => Ok(Command::Authenticate),
        (1, _) | (_, Session::NotConnected | Session::Ended) => Err(Answer::of(0, 0x0c)),
        (5, _) => Ok(Command::Authenticate),
        (8, Session::Authenticating(_, _)) => Ok(Command::Disconnect),
        (_, Session::Authenticating(_, _)) => Err(Answer::of(1, 0x91)),
        (4, Session::Discovery | Session::Queue(_, 0)) => get_property(entry),
        (0, Session::Discovery | Session::Queue(_, 0)) => set_property(entry),
        (8, Session::Queue(_, qid)) if *qid != 0 => disconnect(entry),
        (0 | 4 | 8, _) => Err(Answer::of(1, 0x85)),
        _ => Err(Answer::of(0, 1)),
    }
}

/// Property Get: CAP has 8 bytes; VS, CC and CSTS have 4.
fn get_property(entry: &[u8; 64]) -> Result<Command, Answer>
    ensures { result ≡ def.get_property entry.now }
{
    let holds = match u32_at(entry, 44) {
        0 => has_eight_bytes(entry),
        0x08 | 0x14 | 0x1c => !has_eight_bytes(entry),
        _ => false,
    };
    check(Answer::of(0, 2), holds)?;
    Ok(Command::GetProperty)
}

/// Property Set: CC is the only property that a host sets.
fn set_property(entry: &[u8; 64]) -> Result<Command, Answer>
    ensures { result ≡ def.set_property entry.now }
{
    let holds = u32_at(entry, 44) == 0x14 && !has_eight_bytes(entry);
    check(Answer::of(0, 2), holds)?;
    Ok(Command::SetProperty)
}

/// Disconnect: its record format is 0.
fn disconnect(entry: &[u8; 64]) -> Result<Command, Answer>
    ensures { result ≡ def.disconnect entry.now }
{
    check(Answer::of(1, 0x80), u16_at(entry, 40) == 0)?;
    Ok(Command::Disconnect)
}

/// ATTRIB: whether the property has 8 bytes instead of 4.
fn has_eight_bytes(entry: &[u8; 64]) -> bool
    ensures { result ≡ def.has_eight_bytes entry.now }
{
    entry[40] % 8 == 1
}

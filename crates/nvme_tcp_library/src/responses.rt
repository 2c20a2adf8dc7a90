//! The responses to the commands of a connection for C, which keeps what they need in a struct of plain numbers.

ghost use Rattle.std.specs.Prelude.{◌≡◌};
ghost use Rattle.nvme_responses.specs.Entries.{status_field as field};
ghost use Rattle.nvme_responses.specs.Responses.{
  accepted,
  after_accept,
  after_connect,
  after_end,
  after_forget,
  after_respond,
  after_stop,
  is_outstanding,
  response,
  seen,
};
ghost use Rattle.nvme_tcp_library.specs.Responses.{acceptance, answered, entry_if, forgotten, reply_of};

use crate::codes;
use nvme_responses::{Refused, Reply, Responses, status_field};
use nvme_wire::Status;

/// The outcome of a command.
#[repr(C)]
#[derive(Clone, Copy)]
pub struct RawReply {
    /// Double words 0 and 1, whose meaning depends on the command.
    pub dw0: u32,
    pub dw1: u32,
    /// CID, the command identifier.
    pub cid: u16,
    /// The status.
    pub sct: u8,
    pub sc: u8,
}

impl RawReply {
    /// The outcome as a value.
    fn reply(&self) -> Reply
        ensures { result ≡ reply_of self.now }
    {
        Reply {
            cid: self.cid,
            status: Status {
                sct: self.sct,
                sc: self.sc,
            },
            dw0: self.dw0,
            dw1: self.dw1,
        }
    }
}

/// Counts a command: `OK`; `CONFLICT`, and it has to be answered with Command ID Conflict; or `QUEUE_FULL` or
/// `QUEUE_ENDED`, and nothing has changed.
#[unsafe(no_mangle)]
pub extern "C" fn nvmesim_responses_accept(responses: &mut Responses, cid: u16) -> u32
    ensures state { seen responses.new ≡ after_accept (seen responses.old) cid }
    ensures result { result ≡ acceptance (accepted (seen responses.old) cid) }
{
    match responses.accept(cid) {
        Ok(false) => codes::OK,
        Ok(true) => codes::CONFLICT,
        Err(Refused::Full) => codes::QUEUE_FULL,
        Err(Refused::Ended) => codes::QUEUE_ENDED,
    }
}

/// Writes the response to a command: `OK`; or `NO_COMMAND`, and nothing has changed.
#[unsafe(no_mangle)]
pub extern "C" fn nvmesim_responses_respond(
    responses: &mut Responses,
    reply: &RawReply,
    entry: &mut [u8; 16],
) -> u32
    ensures state { seen responses.new ≡ after_respond (seen responses.old) (reply_of reply.now) }
    ensures entry { entry.new ≡ entry_if (response (seen responses.old) (reply_of reply.now)) entry.old }
    ensures result { result ≡ answered (response (seen responses.old) (reply_of reply.now)) }
{
    match responses.respond(&reply.reply()) {
        Some(response) => {
            *entry = response.to_bytes();
            codes::OK
        }
        None => codes::NO_COMMAND,
    }
}

/// A command will have no response: `OK`; or `NO_COMMAND`, and nothing has changed.
#[unsafe(no_mangle)]
pub extern "C" fn nvmesim_responses_forget(responses: &mut Responses, cid: u16) -> u32
    ensures state { seen responses.new ≡ after_forget (seen responses.old) cid }
    ensures result { result ≡ forgotten (is_outstanding (seen responses.old) cid) }
{
    if responses.forget(cid) {
        codes::OK
    } else {
        codes::NO_COMMAND
    }
}

/// Connect has succeeded, with this SQSIZE. Connect is the first command that the queue counts.
#[unsafe(no_mangle)]
pub extern "C" fn nvmesim_responses_connected(
    responses: &mut Responses,
    sqsize: u16,
    is_flow_control_disabled: bool,
)
    ensures { seen responses.new ≡ after_connect (seen responses.old) sqsize is_flow_control_disabled }
{
    responses.connected(sqsize, is_flow_control_disabled);
}

/// The queue takes no more commands. Those without a response may still get one.
#[unsafe(no_mangle)]
pub extern "C" fn nvmesim_responses_end(responses: &mut Responses)
    ensures { seen responses.new ≡ after_end (seen responses.old) }
{
    responses.end();
}

/// The queue has ended: nothing is answered any more.
#[unsafe(no_mangle)]
pub extern "C" fn nvmesim_responses_stop(responses: &mut Responses)
    ensures { seen responses.new ≡ after_stop (seen responses.old) }
{
    responses.stop();
}

/// The last word of a completion queue entry with this status, its phase tag 0.
#[unsafe(no_mangle)]
pub extern "C" fn nvmesim_responses_status(sct: u8, sc: u8) -> u16
    ensures { result ≡ field (record { sct = sct; sc = sc }) }
{
    status_field(Status { sct, sc })
}

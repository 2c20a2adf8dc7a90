//! What connections are, Fabrics commands other than Connect, and the ends of connections and associations, for C.

ghost use Rattle.std.specs.Prelude.{◌≡◌};
ghost use Rattle.nvme_tcp_library.specs.Answers.{live_by, connection_by};
ghost use Rattle.nvme_tcp_library.specs.Fabrics.{Executes, Closes, Ends};

use crate::answers::{Executed, FabricsAnswer, LiveSession, QueueConnection};
use crate::codes;
use crate::handle::FabricsHandle;
use crate::sessions::RawSession;
use std::alloc::Global;

/// What a connection is now: a queue only as long as its association names it.
#[unsafe(no_mangle)]
pub extern "C" fn nvmesim_fabrics_live(
    alloc: Global,
    fabrics: &mut FabricsHandle,
    session: &RawSession,
) -> LiveSession
    ensures live { result ≡ live_by session.now fabrics.old.slot.value }
    ensures kept { fabrics.new.slot.value ≡ fabrics.old.slot.value }
{
    let Some(opened) = fabrics.take(alloc) else {
        return LiveSession::closed();
    };
    let live = opened.live(&session.session(), session.connection);
    *fabrics = FabricsHandle::of(opened);
    LiveSession::of(&live)
}

/// The connection of a queue of the controller at a place: `OK`, `NO_QUEUE` or `CLOSED`.
#[unsafe(no_mangle)]
pub extern "C" fn nvmesim_fabrics_connection(
    alloc: Global,
    fabrics: &mut FabricsHandle,
    index: u16,
    qid: u16,
) -> QueueConnection
    ensures connection { result ≡ connection_by index qid fabrics.old.slot.value }
    ensures kept { fabrics.new.slot.value ≡ fabrics.old.slot.value }
{
    let Some(opened) = fabrics.take(alloc) else {
        return QueueConnection::without(codes::CLOSED);
    };
    let connection = opened.connection(index, qid);
    *fabrics = FabricsHandle::of(opened);
    QueueConnection::of(connection)
}

/// Executes a Fabrics command other than Connect: Disconnect ends the queue, and a Property Set that resets a
/// controller ends its I/O queues. The caller does the rest. A refused command changes nothing.
#[unsafe(no_mangle)]
pub extern "C" fn nvmesim_fabrics_execute(
    alloc: Global,
    fabrics: &mut FabricsHandle,
    session: &mut RawSession,
    entry: &[u8; 64],
) -> Executed
    ensures { Executes session.old entry.now fabrics.old.slot.value result session.new fabrics.new.slot.value }
{
    let Some(mut opened) = fabrics.take(alloc) else {
        return Executed::refused(FabricsAnswer::closed());
    };
    let mut now = session.session();
    let executed = opened.execute(&mut now, session.connection, entry);
    *session = RawSession::of(session.connection, &now);
    *fabrics = FabricsHandle::of(opened);
    Executed::of(executed)
}

/// A connection ends: its queue ends, and with the Admin Queue the association. `OK`; or `CLOSED`, and nothing has
/// changed.
#[unsafe(no_mangle)]
pub extern "C" fn nvmesim_fabrics_end_session(
    alloc: Global,
    fabrics: &mut FabricsHandle,
    session: &mut RawSession,
) -> u32
    ensures { Closes session.old fabrics.old.slot.value result session.new fabrics.new.slot.value }
{
    let Some(mut opened) = fabrics.take(alloc) else {
        return codes::CLOSED;
    };
    let mut now = session.session();
    opened.close(&mut now, session.connection);
    *session = RawSession::of(session.connection, &now);
    *fabrics = FabricsHandle::of(opened);
    codes::OK
}

/// The association of the controller at a place ends, if there is one: `OK`; or `CLOSED`, and nothing has changed.
#[unsafe(no_mangle)]
pub extern "C" fn nvmesim_fabrics_end_association(
    alloc: Global,
    fabrics: &mut FabricsHandle,
    index: u16,
) -> u32
    ensures { Ends index fabrics.old.slot.value result fabrics.new.slot.value }
{
    let Some(mut opened) = fabrics.take(alloc) else {
        return codes::CLOSED;
    };
    opened.end(index);
    *fabrics = FabricsHandle::of(opened);
    codes::OK
}

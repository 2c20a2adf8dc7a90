//! Connect and authentication for C.

ghost use Rattle.std.specs.Prelude.{◌≡◌};
ghost use Rattle.nvme_tcp_library.specs.Answers.{admitted_by, admits_by};
ghost use Rattle.nvme_tcp_library.specs.Fabrics.{Connects, Authenticates};

use crate::answers::{Admitted, FabricsAnswer};
use crate::handle::FabricsHandle;
use crate::sessions::{RawJudged, RawRequest, RawSession};
use nvme_wire::Status;
use std::alloc::Global;

/// What a Connect asks for, and what `nvmesim_fabrics_connect` will connect it to; or the answer of the first rule that
/// it breaks. `bytes` are its data, if they are whole.
#[unsafe(no_mangle)]
pub extern "C" fn nvmesim_fabrics_admitted(
    alloc: Global,
    fabrics: &mut FabricsHandle,
    session: &RawSession,
    entry: &[u8; 64],
    bytes: &[u8; 1024],
    judged: &RawJudged,
) -> Admitted
    ensures admitted { result ≡ admitted_by session.now entry.now bytes.now judged.now fabrics.old.slot.value }
    ensures kept { fabrics.new.slot.value ≡ fabrics.old.slot.value }
{
    let Some(opened) = fabrics.take(alloc) else {
        return Admitted::refused(FabricsAnswer::closed());
    };
    let admitted = opened.admitted(&session.session(), entry, bytes, &judged.judged());
    *fabrics = FabricsHandle::of(opened);
    Admitted::of(admitted)
}

/// Whether a request may have its queue at the controller at a place; else the answer of the first rule that is broken.
#[unsafe(no_mangle)]
pub extern "C" fn nvmesim_fabrics_admits(
    alloc: Global,
    fabrics: &mut FabricsHandle,
    index: u16,
    request: &RawRequest,
    is_enabled: bool,
) -> FabricsAnswer
    ensures admits { result ≡ admits_by index request.now is_enabled fabrics.old.slot.value }
    ensures kept { fabrics.new.slot.value ≡ fabrics.old.slot.value }
{
    let Some(opened) = fabrics.take(alloc) else {
        return FabricsAnswer::closed();
    };
    let rules = opened.admits(index, &request.request(), is_enabled);
    *fabrics = FabricsHandle::of(opened);
    FabricsAnswer::of_rules(rules)
}

/// Executes a Connect. A refused one changes nothing.
#[unsafe(no_mangle)]
pub extern "C" fn nvmesim_fabrics_connect(
    alloc: Global,
    fabrics: &mut FabricsHandle,
    session: &mut RawSession,
    entry: &[u8; 64],
    bytes: &[u8; 1024],
    judged: &RawJudged,
) -> FabricsAnswer
    ensures { Connects session.old entry.now bytes.now judged.now fabrics.old.slot.value result session.new
        fabrics.new.slot.value }
{
    let Some(mut opened) = fabrics.take(alloc) else {
        return FabricsAnswer::closed();
    };
    let mut now = session.session();
    let answer = opened.connect(&mut now, session.connection, entry, bytes, &judged.judged());
    *session = RawSession::of(session.connection, &now);
    *fabrics = FabricsHandle::of(opened);
    FabricsAnswer::of(answer)
}

/// The host of a connection has authenticated itself: the connection becomes the queue that its Connect asked for, or
/// ends. Any other connection stays what it is.
#[unsafe(no_mangle)]
pub extern "C" fn nvmesim_fabrics_authenticate(
    alloc: Global,
    fabrics: &mut FabricsHandle,
    session: &mut RawSession,
    is_enabled: bool,
    created_sct: u8,
    created_sc: u8,
) -> FabricsAnswer
    ensures { Authenticates session.old is_enabled (record { sct = created_sct; sc = created_sc })
        fabrics.old.slot.value result session.new fabrics.new.slot.value }
{
    let Some(mut opened) = fabrics.take(alloc) else {
        return FabricsAnswer::closed();
    };
    let created = Status {
        sct: created_sct,
        sc: created_sc,
    };
    let mut now = session.session();
    let answer = opened.authenticate(&mut now, session.connection, is_enabled, created);
    *session = RawSession::of(session.connection, &now);
    *fabrics = FabricsHandle::of(opened);
    FabricsAnswer::of(answer)
}

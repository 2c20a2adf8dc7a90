//! Reservation notifications for C: how a reservation concerns a controller's host, and the notices that a controller
//! keeps.

ghost use Rattle.std.specs.Prelude.{◌≡◌, length};
ghost use Rattle.nvme_spec.specs.Reservation.{is_registered};
ghost use Rattle.nvme_spec.specs.Report.{type_of};
ghost use Rattle.nvme_notices.specs.Keeping.{notices_of, page, taken};
ghost use Rattle.nvme_library.specs.Noticing.{
  view_seen,
  view_at,
  view_in,
  without_view,
  seen_as,
  action_number,
  are_of_one_host,
  Notifies,
  notified,
  mask_seen,
  mask_set,
  number_set,
};

use crate::codes;
use crate::handle::Handle;
use nvme_notices::{Action, HostView as View, Notices, RawNotices, notice_for};
use nvme_ns::{Namespace, Spaces};
use nvme_spec::{Hold, HostId, Registrant};
use std::alloc::Global;

/// How the reservation of a namespace concerns the host of a controller.
#[repr(C)]
#[derive(Clone, Copy)]
pub struct HostView {
    /// `OK`; else why there is none, and the other fields are 0.
    pub what: u32,
    /// The reservation type, 1 to 6, or 0 if nobody holds the reservation.
    pub rtype: u8,
    /// Whether the host is registered.
    pub is_registrant: bool,
}

/// A reservation command that has succeeded.
#[repr(C)]
#[derive(Clone, Copy)]
pub struct Change {
    /// The namespace.
    pub nsid: u32,
    /// `ACTION_REGISTER`, `ACTION_ACQUIRE`, `ACTION_PREEMPT`, `ACTION_RELEASE` or `ACTION_CLEAR`.
    pub action: u32,
    /// The controller that has executed it.
    pub issuer: u16,
}

/// How the reservation of a namespace concerns the host of a controller now: `OK`, `NO_CONTROLLER`, `NO_NAMESPACE` or
/// `CLOSED`.
#[unsafe(no_mangle)]
pub extern "C" fn nvmesim_view(alloc: Global, sim: &mut Handle, nsid: u32, cntlid: u16) -> HostView
    ensures view { result ≡ view_seen nsid cntlid sim.old.slot.value }
    ensures kept { sim.new.slot.value ≡ sim.old.slot.value }
{
    let Some(subsystem) = sim.take(alloc) else {
        return HostView::without(codes::CLOSED);
    };
    let view = HostView::at(subsystem.spaces(), nsid, cntlid);
    *sim = Handle::of(subsystem);
    view
}

/// Adds the notice that a controller gets of a reservation command, if it gets one: its host is notified of the change
/// from `before`, which `nvmesim_view` returned before the command, to the reservation as it is now, and the namespace
/// is attached to the controller and not masked. `OK`, whether there is a notice or not; or `OUTSIDE` if there is no
/// such action, `NO_CONTROLLER`, `NO_NAMESPACE` or `CLOSED`, and nothing has changed.
#[unsafe(no_mangle)]
pub extern "C" fn nvmesim_notify(
    alloc: Global,
    sim: &mut Handle,
    notices: &mut RawNotices,
    cntlid: u16,
    change: &Change,
    before: &HostView,
) -> u32
    ensures notifies { Notifies cntlid change.now before.now sim.old.slot.value (notices_of notices.old) result
        (notices_of notices.new) }
    ensures kept { sim.new.slot.value ≡ sim.old.slot.value }
{
    let Some(subsystem) = sim.take(alloc) else {
        return codes::CLOSED;
    };
    let mut kept = Notices::of(*notices);
    let answer = notify(subsystem.spaces(), &mut kept, cntlid, change, before);
    *notices = kept.into_raw();
    *sim = Handle::of(subsystem);
    answer
}

/// The mask of a namespace, in the bits of the feature Reservation Notification Mask: 0 if there is no such namespace.
#[unsafe(no_mangle)]
pub extern "C" fn nvmesim_notice_mask(notices: &RawNotices, nsid: u32) -> u32
    ensures { result ≡ mask_seen (notices_of notices.now) nsid }
{
    if nsid == 0 || nsid > 8 {
        return 0;
    }
    Notices::of(*notices).mask(nsid)
}

/// Sets the mask of a namespace by double word 11 of the feature Reservation Notification Mask: `OK`; or
/// `NO_NAMESPACE`, and nothing has changed.
#[unsafe(no_mangle)]
pub extern "C" fn nvmesim_set_notice_mask(notices: &mut RawNotices, nsid: u32, dw11: u32) -> u32
    ensures set { notices_of notices.new ≡ mask_set (notices_of notices.old) nsid dw11 }
    ensures answer { result ≡ number_set nsid }
{
    if nsid == 0 || nsid > 8 {
        return codes::NO_NAMESPACE;
    }
    let mut kept = Notices::of(*notices);
    kept.set_mask(nsid, dw11);
    *notices = kept.into_raw();
    codes::OK
}

/// The number of notices that were not taken: at most 64.
#[unsafe(no_mangle)]
pub extern "C" fn nvmesim_count_notices(notices: &RawNotices) -> u32
    ensures { result ≡ length (notices_of notices.now).kept }
{
    Notices::of(*notices).available()
}

/// Writes the Reservation Notification log page: the oldest notice, or zeros if there is none.
#[unsafe(no_mangle)]
pub extern "C" fn nvmesim_notice_page(notices: &RawNotices, bytes: &mut [u8; 64])
    ensures { bytes.new ≡ page (notices_of notices.now).kept }
{
    Notices::of(*notices).page_into(bytes);
}

/// Removes the oldest notice, if there is one.
#[unsafe(no_mangle)]
pub extern "C" fn nvmesim_take_notice(notices: &mut RawNotices)
    ensures { notices_of notices.new ≡ taken (notices_of notices.old) }
{
    let mut kept = Notices::of(*notices);
    kept.take();
    *notices = kept.into_raw();
}

/// The action with this number.
fn action_of(number: u32) -> Option<Action>
    ensures { result ≡ action_number number }
{
    match number {
        codes::ACTION_REGISTER => Some(Action::Register),
        codes::ACTION_ACQUIRE => Some(Action::Acquire),
        codes::ACTION_PREEMPT => Some(Action::Preempt),
        codes::ACTION_RELEASE => Some(Action::Release),
        codes::ACTION_CLEAR => Some(Action::Clear),
        _ => None,
    }
}

/// Adds the notice of a command, if there is one.
fn notify(
    spaces: &Spaces,
    notices: &mut Notices,
    cntlid: u16,
    change: &Change,
    before: &HostView,
) -> u32
    ensures answer { result ≡ (notified spaces.now cntlid change.now before.now notices.old).0 }
    ensures notices { notices.new ≡ (notified spaces.now cntlid change.now before.now notices.old).1 }
{
    let Some(action) = action_of(change.action) else {
        return codes::OUTSIDE;
    };
    if change.nsid == 0 || change.nsid > 8 {
        return codes::NO_NAMESPACE;
    }
    let after = HostView::at(spaces, change.nsid, cntlid);
    if after.what != codes::OK {
        return after.what;
    }
    if spaces.is_attached(cntlid, change.nsid) {
        let is_issuer = are_of_one_host(spaces.host_of(cntlid), spaces.host_of(change.issuer));
        if let Some(kind) = notice_for(action, is_issuer, before.view(), after.view()) {
            notices.add(change.nsid, kind);
        }
    }
    codes::OK
}

/// Whether two controllers belong to one host.
fn are_of_one_host(host: Option<HostId>, issuer: Option<HostId>) -> bool
    ensures { result ≡ are_of_one_host host issuer }
{
    match (host, issuer) {
        (Some(host), Some(issuer)) => host == issuer,
        _ => false,
    }
}

/// The type of a reservation, 0 if nobody holds it.
fn rtype_of(hold: Hold) -> u8
    ensures { result ≡ type_of hold }
{
    match hold {
        Hold::Free => 0,
        Hold::One(rtype, _) | Hold::All(rtype) => rtype,
    }
}

fn has_host(registrants: &[Registrant], host: HostId) -> bool
    ensures { result ≡ is_registered registrants.now host }
{
    registrants.iter().any(|r| r.host == host)
}

impl HostView {
    /// None.
    fn without(what: u32) -> Self
        ensures { result ≡ without_view what }
    {
        HostView {
            what,
            rtype: 0,
            is_registrant: false,
        }
    }

    /// How the reservation of this namespace concerns a host.
    fn of(namespace: &Namespace, host: HostId) -> Self
        ensures { result ≡ view_in namespace.now host }
    {
        let reservation = namespace.reservation();
        HostView {
            what: codes::OK,
            rtype: rtype_of(reservation.hold()),
            is_registrant: has_host(reservation.registrants(), host),
        }
    }

    fn at(spaces: &Spaces, nsid: u32, cntlid: u16) -> Self
        ensures { result ≡ view_at spaces.now nsid cntlid }
    {
        let Some(host) = spaces.host_of(cntlid) else {
            return HostView::without(codes::NO_CONTROLLER);
        };
        match spaces.namespace(nsid) {
            Some(namespace) => HostView::of(namespace, host),
            None => HostView::without(codes::NO_NAMESPACE),
        }
    }

    fn view(&self) -> View
        ensures { result ≡ seen_as self.now }
    {
        View {
            rtype: self.rtype,
            is_registrant: self.is_registrant,
        }
    }
}

//! Who is notified of a change of a reservation.

ghost use Rattle.std.specs.Prelude.{◌≡◌};
ghost use Rattle.nvme_notices.specs.Hearing as spec;

use crate::notice::NoticeType;

/// The actions of the reservation commands, as far as notices differ.
#[derive(Clone, Copy, Debug, PartialEq, Eq)]
pub enum Action {
    /// Each action of Reservation Register.
    Register,
    /// Acquire of Reservation Acquire.
    Acquire,
    /// Preempt, and Preempt and Abort, of Reservation Acquire.
    Preempt,
    /// Release of Reservation Release.
    Release,
    /// Clear of Reservation Release.
    Clear,
}

/// The reservation of a namespace as it concerns a host.
#[derive(Clone, Copy, Debug, PartialEq, Eq)]
pub struct HostView {
    /// The reservation type, 0 if nobody holds the reservation.
    pub rtype: u8,
    /// Whether the host is registered.
    pub is_registrant: bool,
}

/// What a host is notified of after a command, from how the reservation concerned it before and after.
pub fn notice_for(
    action: Action,
    is_issuer: bool,
    before: HostView,
    after: HostView,
) -> Option<NoticeType>
    ensures { result ≡ spec.notice_for action is_issuer before after }
{
    if is_issuer {
        return None;
    }
    match action {
        Action::Acquire => None,
        Action::Register | Action::Release => notice_of_release(before, after),
        Action::Preempt => notice_of_preempt(before, after),
        Action::Clear => notice_of_clear(before, after),
    }
}

fn notice_of_release(before: HostView, after: HostView) -> Option<NoticeType>
    ensures { result ≡ spec.notice_of_release before after }
{
    if before.rtype >= 3 && after.rtype == 0 && after.is_registrant {
        Some(NoticeType::ReservationReleased)
    } else {
        None
    }
}

fn notice_of_preempt(before: HostView, after: HostView) -> Option<NoticeType>
    ensures { result ≡ spec.notice_of_preempt before after }
{
    if before.is_registrant && !after.is_registrant {
        return Some(NoticeType::RegistrationPreempted);
    }
    if before.rtype != after.rtype && after.is_registrant {
        return Some(NoticeType::ReservationReleased);
    }
    None
}

fn notice_of_clear(before: HostView, after: HostView) -> Option<NoticeType>
    ensures { result ≡ spec.notice_of_clear before after }
{
    if before.is_registrant && !after.is_registrant {
        Some(NoticeType::ReservationPreempted)
    } else {
        None
    }
}

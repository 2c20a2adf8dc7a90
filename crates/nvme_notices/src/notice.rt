//! A reservation notification.

ghost use Rattle.std.specs.Prelude.{◌≡◌};
ghost use Rattle.nvme_notices.specs.Keeping.{type_number};

/// What a host is notified of (Base Specification, Reservation Notification Log Page Type).
#[derive(Clone, Copy, Debug, PartialEq, Eq)]
pub enum NoticeType {
    /// Another host removed its registration by a Preempt: 1 in the log page.
    RegistrationPreempted,
    /// The reservation was released, or a Preempt has changed its type: 2.
    ReservationReleased,
    /// Another host removed its registration by a Clear: 3.
    ReservationPreempted,
}

/// A notice that a controller keeps until its host reads it. C code may hold it.
#[repr(C)]
#[derive(Clone, Copy)]
pub struct Notice {
    /// The Log Page Count.
    pub count: u64,
    /// The namespace.
    pub nsid: u32,
    /// The number of its type.
    pub kind: u8,
}

impl NoticeType {
    /// Its number in the log page, and its bit in the mask.
    pub fn number(self) -> u8
        ensures { result ≡ type_number self }
    {
        match self {
            NoticeType::RegistrationPreempted => 1,
            NoticeType::ReservationReleased => 2,
            NoticeType::ReservationPreempted => 3,
        }
    }
}

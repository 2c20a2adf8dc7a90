//! Reservation notifications, in their own crate so that they are proved on their own: which host is notified of a
//! change of a reservation, and the notices that a controller keeps for its host (NVM Express Base Specification 2.0,
//! Reservation Notifications).
#![tactic(auto)]

mod examples;
mod hearing;
mod kept;
mod laws;
mod notice;
mod notices;
mod raw;

pub use hearing::{Action, HostView, notice_for};
pub use notice::{Notice, NoticeType};
pub use notices::Notices;
pub use raw::RawNotices;

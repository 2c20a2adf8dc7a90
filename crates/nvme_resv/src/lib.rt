//! The reservation of one namespace: its registrants, its holder, and the commands Reservation Register, Reservation
//! Acquire, Reservation Release and Reservation Report (NVM Express Base Specification 2.0, Reservations). It is a
//! separate crate so that it is proved separately.
#![tactic(auto)]

mod change;
mod registrants;
mod reservation;

pub use change::Change;
pub use nvme_spec::{Hold, Registrant, Role};
pub use reservation::Reservation;

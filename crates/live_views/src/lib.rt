//! The answers to queries, as texts: a window, registers, queues, fetched commands, drivers, namespaces, attachments,
//! reservations and blocks. They are in a crate of their own, so that they are proved without fleets.
#![tactic(auto)]

mod commands;
mod controllers;
mod drivers;
mod names;
mod queues;
mod shown;
mod spaces;

pub use commands::FetchedText;
pub use controllers::{BlocksText, RegisterText, RegistersText, WindowText};
pub use drivers::DriverText;
pub use queues::QueuesText;
pub use shown::{Shown, blocks_shown, nothing, shown_early, shown_in};
pub use spaces::{AttachedText, NamespacesText, ReservationText};

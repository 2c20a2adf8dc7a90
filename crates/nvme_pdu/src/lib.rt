//! The PDUs of NVMe/TCP: what is checked of those that a host sends, and the headers of those that a controller sends.
#![tactic(auto)]

mod agreed;
mod examples;
mod fatal;
mod fields;
mod kind;
mod laws;
mod layout;
mod writing;

pub use agreed::Agreed;
pub use fatal::Fatal;
pub use fields::HostData;
pub use kind::Kind;
pub use layout::{Head, PduLayout};
pub use writing::Written;

//! The journal of a subsystem: which commands it keeps, so that a subsystem that starts again has the access state of
//! the last one.
#![tactic(auto)]

mod examples;
mod lasting;
mod laws;

pub use lasting::{kept_length, lasts};

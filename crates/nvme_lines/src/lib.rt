//! Formats the line of a script as one text, which the grammar parses as the same line.
#![tactic(auto)]

mod event;
mod examples;
pub mod laws;
mod line;
mod request;
mod words;

pub use line::{LineText, Reading};

//! The transcript of a script: a line for each event, with its result. It is in a crate of its own, so that it is
//! proved without fleets.
#![tactic(auto)]

mod examples;
mod line;
mod short;
mod writing;

pub use line::TranscriptLine;
pub use writing::write_line;

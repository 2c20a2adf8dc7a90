//! Scripts: runs the events of a text over a subsystem, line by line, and writes the transcript of the results.
#![tactic(auto)]

mod buffered;
mod held;
pub mod laws;
mod program;
mod refusal;
mod run;
mod transcribing;

pub use nvme_ns::{BrokenRule, ConfigReason, SetupLine};
pub use nvme_program::{Failure, ScriptFault};
pub use program::{run_in, run_program};
pub use run::{run_events, run_script, run_text};

//! The texts that the library for C reads and writes: the configuration of a text, or why it is refused; the lines that
//! describe one; the line of an event; and putting texts into a buffer. They are in a crate of their own, so that they
//! are proved without subsystems.
#![tactic(auto)]

mod answer;
mod configuration;
mod event;
mod putting;
mod reading;
mod refused;

pub use answer::put_answer;
pub use configuration::ConfigLines;
pub use event::put_event;
pub use putting::{Unput, put_short, put_text};
pub use reading::config_in;
pub use refused::Refused;

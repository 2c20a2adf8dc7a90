//! The text of sessions: parses a line, has the query lines, which change nothing, the form of each line, and the
//! answers to refused ones. It is in a crate of its own, so that it is proved without fleets.
#![tactic(auto)]

mod asking;
mod fault;
mod form;
mod looking;
mod looking_word;

pub use asking::{Asked, LINE_LIMIT, asked_of};
pub use fault::{Refusal, Why, looking_fault, outside};
pub use form::{Form, form_of};
pub use looking::{Looking, is_looking, looking_of, text_in};
pub use looking_word::LookingWord;

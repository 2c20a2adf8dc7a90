//! The grammar of scripts: parses the bytes of a text to a checked script, and the bytes of a line to the event of a
//! fleet.
#![tactic(auto)]

mod beginning;
mod buffers;
mod configuration;
mod examples;
mod fault;
mod fault_examples;
mod fault_text;
mod identifiers;
mod kept;
mod keyword;
mod laws;
mod line;
mod near;
mod numbers;
mod place;
mod reader;
mod script;

pub use beginning::begins_script;
pub use buffers::Buffers;
pub use fault::{LineFault, Why, foreign_byte, line_fault};
pub use fault_text::{ShownWord, put_word_between};
pub use kept::KeptEvent;
pub use keyword::Keyword;
pub use line::{Line, parse_line};
pub use near::is_meant;
pub use place::{Behind, Operand, Place};
pub use script::{ParseFault, Script, parse, read_lines};

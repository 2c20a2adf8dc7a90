//! What both programs share: the words of their command lines, the files that they open, and each failure with its
//! reason, its text and its exit status.
#![tactic(auto)]

mod command_line;
mod examples;
mod failure;
mod fault;
mod holder;
mod judging;
mod launching;
mod lent;
mod media;
mod placed;
mod process;
mod reason;
mod running;
mod sentence;
mod setup_lines;
mod system;
mod telling;

pub use command_line::{
    Paths, WordFault, after_any_size, allows_any_size, behind_option, max_blocks_in, means_image,
    paths_of, refused_word,
};
pub use failure::{Failure, status_of};
pub use fault::{ScriptFault, config_fault_name};
pub use holder::Holder;
pub use judging::judge_image;
pub use launching::{launch, launch_guarded};
pub use lent::Lent;
pub use media::{behind_cache, scratch};
pub use placed::{PlacedFault, PlacedRule};
pub use process::{command_words, hold_stream};
pub use reason::{Reason, USAGE};
pub use running::{Ran, Runner};
pub use sentence::{Sentence, sentence_of};
pub use setup_lines::number_in;
pub use system::{Cause, HostFiles, System, Unopened};
pub use telling::Program;

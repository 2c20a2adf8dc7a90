//! A medium of brought blocks: a program brings the blocks that a command needs before the command is executed, and
//! stores afterwards what the command wrote.
#![tactic(auto)]

mod content;
mod disk;
mod examples;
pub mod laws;
mod medium;
mod room;

pub use content::DiskContent;
pub use disk::Disk;
pub use medium::BroughtMedium;
pub use room::Room;

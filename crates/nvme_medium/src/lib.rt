//! Block media: logical blocks of 512 bytes that are read and written whole, by calls that may fail.
#![tactic(auto)]

mod cached;
mod examples;
mod failing;
mod file;
mod host;
mod lanes;
pub mod laws;
mod medium;
mod memory;
mod open;
mod raw_file;
mod source;
mod transfer;

pub use cached::Cached;
pub use failing::Failing;
pub use file::FileMedium;
pub use host::HostFile;
pub use lanes::lanes_equal;
pub use medium::{BLOCK, Medium};
pub use memory::MemMedium;
pub use nvme_spec::MediumFault;
pub use open::FileFault;
pub use raw_file::RawFile;
pub use source::{Lent, Source, Zeros};
pub use transfer::{read_blocks, write_blocks};

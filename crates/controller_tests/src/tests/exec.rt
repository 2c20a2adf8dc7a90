//! I/O commands by their entries, over the memory of a host.

mod bench;
mod faults;
mod lanes;

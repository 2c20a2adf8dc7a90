//! Data pointers: the addresses of a command's data in host memory.
#![tactic(auto)]

mod block;
mod data;
mod walking;
mod whole;

pub use block::{BlockPlace, gather_block, lend_block, scatter_block};
pub use data::locate;
pub use nvme_spec::{DataFault, Piece};
pub use walking::{Pieces, walk, walk_into};
pub use whole::{gather, scatter, scatter_padded};

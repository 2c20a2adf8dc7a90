//! Media for a library that C programs call: over bytes of the C program, over blocks that the library allocates, or
//! over blocks that the program brings.
#![tactic(auto)]

mod bytes;
mod either;
pub mod laws;
mod lent;
mod returned;

pub use bytes::LentBytes;
pub use either::{NotBrought, OwnOrLent};
pub use lent::LentMedium;
pub use returned::ReturnedBytes;

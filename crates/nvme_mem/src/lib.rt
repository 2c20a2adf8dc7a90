//! The memory that a host shares with a controller.
#![tactic(auto)]

mod window;

pub use window::{OutsideWindow, WINDOW_LEN, Window};

//! The registers of a controller (NVM Express Base Specification 2.0, Controller Registers), in accesses of 32 bits:
//! the value of a read, and the effect of a write on registers and controller.
#![tactic(auto)]

mod doorbell;
mod fields;
mod halves;
mod offset;
mod registers;
mod state;

pub use nvme_spec::{AdminQueues, ControllerState, RegEffect};
pub use registers::Registers;

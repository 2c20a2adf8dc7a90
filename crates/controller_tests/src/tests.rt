//! The tests: each part by the name of its library, then commands, controllers and subsystems, and what they share.

mod answers;
mod asserting;
mod configuration;
mod ctrl;
mod driver;
mod entries;
mod exec;
mod medium;
mod mem;
mod memory;
mod ns;
mod policy;
mod prp;
mod queues;
mod regs;
mod resv;
mod ring;
mod subsys;
mod wire;

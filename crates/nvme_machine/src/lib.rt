//! The machine: the state of controllers and their subsystem, and the effect of each event. `specs` has the definitions
//! (NVM Express Base Specification 2.0: Controller Registers, Queues, Command Fetching, Controller Reset), `laws` has
//! what follows from them for every run, and `src` has the types of both. The code depends on this crate, so the laws
//! are proved before the code.
#![tactic(auto)]

mod bare;
mod event;
mod examples;
mod fetched;
pub mod laws;
mod need;
mod seen;

pub use bare::{BareExecuted, BareOutcome, BareSeen};
pub use event::Event;
pub use fetched::FetchedCommand;
pub use need::Need;
pub use seen::{Executed, Fetched, Seen};

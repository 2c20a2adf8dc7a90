//! What a host has to know of a controller that is not this project's own, before it uses it: whether the controller's
//! capabilities suit the driver, whether it became ready or failed, and which requests its namespaces take. Each
//! refusal has a name.
#![tactic(auto)]

mod admission;
mod capabilities;
mod controller;
mod examples;
mod namespace;
mod status;

pub use admission::{Admission, Span};
pub use capabilities::{Capabilities, CapabilityFault};
pub use controller::{ControllerFacts, ControllerFault};
pub use namespace::{NamespaceFacts, NamespaceFault};
pub use status::{Awaited, Progress};

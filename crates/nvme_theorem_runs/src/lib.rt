//! Example runs of theorems: small computed runs in which the premises of a theorem hold and its conclusion is not
//! trivial. For most theorems another run shows that the theorem is false without a premise.
#![tactic(auto)]

mod drivers;
mod fencing;
mod fleets;
mod journals;
mod medium;
mod own_data;
mod power;
mod preempting;
mod queues;
mod runs;
mod wire;

//! Example runs of theorems about sessions, and about both layers of a fleet: small computed runs in which a theorem's
//! premises hold and its conclusion is not trivial, and for most premises one in which the theorem fails without it.
#![tactic(auto)]

mod answering;
mod drivers;
mod invariants;
mod layers;
mod outcomes;
mod replays;
mod saved;
mod sessions;

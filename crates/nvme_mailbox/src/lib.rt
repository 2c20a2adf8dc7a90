//! What a host may rely on: a mailbox for each driver, with the driver's requests and their states, and a fleet of
//! these mailboxes and the raw hosts' controllers. `specs` defines them without queues, phase tags, command identifiers
//! or addresses; `laws` has what follows from the definitions for every run. The crate depends on no code, so its laws
//! are proved in parallel with the code.
#![tactic(auto)]

mod examples;
pub mod laws;

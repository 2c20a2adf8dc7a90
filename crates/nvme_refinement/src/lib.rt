//! Why a host may rely on its mailbox: a driver, its controller and the memory that they share behave as the mailbox.
//! `specs` defines the mailbox of driver and controller, and the invariant that each event keeps; `laws` shows that
//! each of their events is the step of the mailbox. The crate has no code, and nothing about other controllers or calls
//! of a medium. So it is proved in parallel with the code of controllers, from the same definitions.
#![tactic(auto)]

pub mod laws;

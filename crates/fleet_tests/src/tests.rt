//! The tests: what no clause states, and no script shows. Calls succeed while memory lasts; what each failing call of a
//! medium or of a stream leaves; and what a fleet shows between two events. Behaviour of the program is tested in
//! nvme_examples and in scripts/test program.

mod asserting;
mod bench;
mod configurations;
mod faults;
mod mailboxes;
mod running;
mod script;
mod windows;

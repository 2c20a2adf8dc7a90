//! A target: whose connection an event of its subsystem comes from, and what the reservations of that host make of it.
#![tactic(auto)]

mod examples;
mod laws;

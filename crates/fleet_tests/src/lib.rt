//! Tests of fleets and of runs of scripts by public calls only. They are in a crate of their own, since a crate with
//! tests is proved twice.
#![tactic(auto)]

#[cfg(test)]
mod tests;

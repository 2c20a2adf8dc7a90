//! The premises of the laws, defined a second time in other words. Laws and code use the same definitions, so that a
//! premise that is too wide or too narrow for some event leaves every law provable. Here it makes a law false.
#![tactic(auto)]

mod of_fleets;
mod of_subsystems;

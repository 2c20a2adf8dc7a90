//! The rules that allow or deny an I/O command by the access state, in order. `nvme_exec` executes allowed commands.
#![tactic(auto)]

mod access;
pub mod command;
mod examples;
pub mod fields;
mod planning;
mod rules;
mod verdict;

pub use access::{permits, permits_host};
pub use nvme_spec::{Command, Denial, Group, Plan, Verdict};
pub use rules::{check_attachment, check_form, deny_if, is_no_nsid};
pub use verdict::{Admitted, admit, judge};

//! The error of a call of a medium.

/// A call of a medium failed.
#[derive(Clone, Copy, Debug, PartialEq, Eq)]
pub struct MediumFault;

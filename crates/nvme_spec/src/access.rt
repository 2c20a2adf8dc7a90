//! The types of access to a namespace: registrants, holders, roles and write protection.

use crate::HostId;

/// A host that is registered with a namespace, and its reservation key.
#[derive(Clone, Copy, Debug, Default, PartialEq, Eq)]
pub struct Registrant {
    /// The host identifier.
    pub host: HostId,
    /// Its reservation key.
    pub key: u64,
}

/// The holder of a namespace's reservation, with its type (Base Specification, Reservation Types).
#[derive(Clone, Copy, Debug, PartialEq, Eq)]
pub enum Hold {
    /// Nobody: the namespace is not reserved.
    Free,
    /// One host: types 1 to 4.
    One(u8, HostId),
    /// Every registrant: types 5 and 6.
    All(u8),
}

/// The role of a host for a namespace.
#[derive(Clone, Copy, Debug, PartialEq, Eq)]
pub enum Role {
    /// The host is not registered.
    Outsider,
    /// The host is registered, but does not hold the reservation.
    Registrant,
    /// The host is registered, and holds the reservation.
    Holder,
}

/// The two groups of commands for a reservation.
#[derive(Clone, Copy, Debug, PartialEq, Eq)]
pub enum Group {
    /// Read and Compare.
    Read,
    /// Write, Write Zeroes, Flush and Namespace Attachment.
    Write,
}

/// The write protection of a namespace (Base Specification, Namespace Write Protection).
#[derive(Clone, Copy, Debug, PartialEq, Eq)]
pub enum Protection {
    /// It may be written.
    Open,
    /// It may not, until a command removes the protection.
    Protected,
    /// It may not until a power cycle, and no command removes the protection.
    UntilCycle,
}

//! The configuration of a subsystem.

use crate::HostId;
use thiserror::Error;

/// A controller and its host.
#[derive(Clone, Copy, Debug, Default, PartialEq, Eq)]
pub struct ControllerConfig {
    /// The controller identifier: k for the k-th controller of a configuration, from 1.
    pub cntlid: u16,
    /// The host identifier, not 0. Several controllers may belong to one host.
    pub host: HostId,
    /// Whether its host is raw: it has no driver, and its controller gets single stores and register writes. Only a
    /// `Fleet` reads this; a `Subsystem` has no drivers.
    pub raw: bool,
}

/// A namespace.
#[derive(Clone, Copy, Debug, Default, PartialEq, Eq)]
pub struct NsConfig {
    /// The namespace identifier, 1 to 8.
    pub nsid: u32,
    /// Its size in blocks of 512 bytes, 1 to 65,536.
    pub blocks: u64,
    /// Whether several controllers may be attached to it at a time.
    pub shared: bool,
}

/// The controllers, namespaces and attachments of a subsystem.
#[derive(Debug, Drop)]
pub struct Config {
    pub controllers: Vec<ControllerConfig>,
    pub namespaces: Vec<NsConfig>,
    /// Pairs of a controller identifier and a namespace identifier.
    pub attached: Vec<(u16, u32)>,
}

/// Why a configuration is refused. The text of a fault is its name.
#[derive(Clone, Copy, Debug, Error, PartialEq, Eq)]
pub enum ConfigFault {
    /// The k-th controller's identifier is not k; a host identifier is 0; a namespace identifier is 0,
    /// above 8 or repeated; an attachment is repeated, names something that is not configured, or attaches
    /// a private namespace to a second controller.
    #[error("BadId")]
    BadId,
    /// A namespace has no blocks, or more than 65,536.
    #[error("BadSize")]
    BadSize,
    /// There are more than 16 controllers, 8 namespaces or 128 attachments.
    #[error("TooMany")]
    TooMany,
    /// The namespaces have more blocks together than the medium.
    #[error("DoesNotFit")]
    DoesNotFit,
    /// Memory was refused. Only calls that take memory return this.
    #[error("NoMemory")]
    NoMemory,
}

//! What a connection is, and what a Connect is judged by.

use crate::request::Request;
use nvme_wire::Status;

/// What a connection is.
#[derive(Clone, Copy)]
pub enum Session {
    /// Nothing yet: it has not connected.
    NotConnected,
    /// Its host has to authenticate itself for this request to the controller at this place.
    Authenticating(Request, u16),
    /// The queue with this identifier of the controller at this place.
    Queue(u16, u16),
    /// The Admin Queue of a discovery controller.
    Discovery,
    /// Nothing any more.
    Ended,
}

/// What a Connect connects to.
#[derive(Clone, Copy)]
pub enum Place {
    /// A discovery controller.
    Discovery,
    /// The controller at this place.
    Controller(u16),
}

/// The subsystem that SUBNQN names.
#[derive(Clone, Copy)]
pub enum Subsystem {
    /// This one.
    Nvm,
    /// The discovery subsystem.
    Discovery,
    /// Another.
    Other,
}

/// What the caller knows of a Connect.
#[derive(Clone, Copy)]
pub struct Judged {
    pub subsystem: Subsystem,
    /// Whether the command's data are 1,024 bytes.
    pub is_whole: bool,
    /// Whether the host has a key, if hosts need one.
    pub is_known: bool,
    /// Whether the host may connect from its address.
    pub is_allowed: bool,
    /// Whether the Admin Queue of the controller is enabled.
    pub is_enabled: bool,
    /// The status of the creation of the I/O queues.
    pub created: Status,
    /// The number of hosts that authenticate themselves for each controller.
    pub authenticating: [u32; 16],
}

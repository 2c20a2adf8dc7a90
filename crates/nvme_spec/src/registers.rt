//! The effects of writes to a controller's registers.

/// The effect of a register write on the controller.
#[derive(Clone, Copy, Debug, PartialEq, Eq)]
pub enum RegEffect {
    /// Nothing beyond the registers themselves.
    Nothing,
    /// The controller was enabled and is ready: the admin queues exist, empty. It may be shut down already.
    Enable,
    /// The controller was reset: all queues and all fetched commands are dropped.
    Disable,
    /// The controller was shut down: it fetches nothing more.
    Shutdown,
    /// The tail doorbell of a submission queue was written: its identifier, and the new tail.
    SqTail(u16, u16),
    /// The head doorbell of a completion queue was written: its identifier, and the new head.
    CqHead(u16, u16),
}

/// The state of a controller (Base Specification 2.0, Controller Status).
#[derive(Clone, Copy, Debug, PartialEq, Eq)]
pub enum ControllerState {
    /// Not enabled.
    Off,
    /// Enabled and ready.
    Ready,
    /// Enabled and ready, after a shutdown notification.
    ShutDown,
    /// Enabled with values that the controller does not support: a fatal status.
    Failed,
}

/// The admin queues, by their addresses and their sizes in entries.
#[derive(Clone, Copy, Debug, PartialEq, Eq)]
pub struct AdminQueues {
    pub sq_base: u64,
    pub sq_size: u16,
    pub cq_base: u64,
    pub cq_size: u16,
}

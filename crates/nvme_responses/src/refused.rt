//! Why a command is not accepted.

/// Why a command is not accepted. It changes nothing.
#[derive(Clone, Copy, PartialEq, Eq)]
pub enum Refused {
    /// The connection takes no more commands.
    Ended,
    /// As many commands have no response yet as the queue has entries, or 64.
    Full,
}

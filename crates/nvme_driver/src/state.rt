//! The state of a driver.

/// The state of a driver.
#[derive(Clone, Copy, Debug, PartialEq, Eq)]
pub enum State {
    /// It was never brought up, or was reset.
    Down,
    /// Its controller takes requests.
    Up,
    /// Its controller answered a command that does not wait. Only a reset leaves this state.
    Failed,
}

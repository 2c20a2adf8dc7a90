//! The two lanes of a driver: the admin queue pair, and one I/O queue pair.

/// One of the two queue pairs of a driver.
#[derive(Clone, Copy, Debug, PartialEq, Eq)]
pub enum Lane {
    /// Queue pair 0, for admin commands.
    Admin,
    /// Queue pair 1, for I/O commands.
    Io,
}

//! The events of a subsystem.

/// One event of one controller, named by its identifier (CNTLID), or of all.
#[derive(Clone, Copy, Debug)]
pub enum Event<'a> {
    /// Its host stores bytes at an address of the memory that it shares with the controller.
    Store(u16, u64, &'a [u8]),
    /// Its host writes a register: the offset, and the value.
    Write32(u16, u64, u32),
    /// Its host reads a register.
    Read32(u16, u64),
    /// It fetches a command from the submission queue of this identifier.
    Fetch(u16, u16),
    /// It executes the command at this place, from 0, of those that it has fetched.
    Execute(u16, usize),
    /// Power is lost in the whole subsystem, and returns.
    PowerCycle,
}

//! The codes of answers: up to 9 results, from 16 refusals. `nvmesim.h` has the same.

/// The call succeeded, and returns no more.
pub const OK: u32 = 0;
/// The bytes are stored.
pub const STORED: u32 = 1;
/// The register is written.
pub const WROTE: u32 = 2;
/// The value of the register.
pub const VALUE: u32 = 3;
/// A command was fetched.
pub const TOOK: u32 = 4;
/// There was no command to fetch.
pub const IDLE: u32 = 5;
/// The command was executed, and its completion posted.
pub const POSTED: u32 = 6;
/// There is no such command.
pub const NO_SUCH: u32 = 7;
/// The completion queue is full; the command waits.
pub const CQ_FULL: u32 = 8;
/// Power was lost, and has returned.
pub const CYCLED: u32 = 9;

/// No subsystem is open.
pub const CLOSED: u32 = 16;
/// There is no such controller.
pub const NO_CONTROLLER: u32 = 17;
/// Some of the bytes are not in the memory, or some of the blocks not in such a namespace.
pub const OUTSIDE: u32 = 18;
/// The number of bytes is not a multiple of the block length.
pub const NOT_WHOLE: u32 = 19;
/// The medium failed.
pub const MEDIUM_FAULT: u32 = 20;
/// The caller's header is of another version.
pub const BAD_VERSION: u32 = 21;
/// A subsystem is open already.
pub const ALREADY_OPEN: u32 = 22;
/// An identifier of the configuration is wrong.
pub const BAD_ID: u32 = 23;
/// A namespace has no blocks, or too many.
pub const BAD_SIZE: u32 = 24;
/// There are too many controllers, namespaces or attachments.
pub const TOO_MANY: u32 = 25;
/// The namespaces have more blocks together than the medium.
pub const DOES_NOT_FIT: u32 = 26;
/// Memory was refused.
pub const NO_MEMORY: u32 = 27;
/// The controller has no such queue.
pub const NO_QUEUE: u32 = 28;
/// The controller does not run: its CSTS is not 1.
pub const NOT_READY: u32 = 29;
/// The queue is not empty, or the controller holds as many commands as it can.
pub const BUSY: u32 = 30;
/// There is no such namespace.
pub const NO_NAMESPACE: u32 = 31;
/// There is no such registrant.
pub const NO_REGISTRANT: u32 = 32;
/// The text does not fit the buffer.
pub const NO_ROOM: u32 = 33;
/// There is no such line.
pub const NO_LINE: u32 = 34;
/// A line of the text is outside the grammar.
pub const BAD_LINE: u32 = 35;
/// A line of the text is an event, which a configuration can't have.
pub const HAS_EVENT: u32 = 36;
/// The configuration has no controller.
pub const EMPTY: u32 = 37;
/// The text is longer than a script may be.
pub const TOO_LONG: u32 = 38;
/// The blocks of the subsystem are in memory, so that none are brought.
pub const IN_MEMORY: u32 = 39;
/// The data and the slot of the entry overlap.
pub const OVERLAPS: u32 = 51;

/// A host stores bytes in its memory.
pub const EVENT_STORE: u32 = 1;
/// A host writes a register.
pub const EVENT_WRITE32: u32 = 2;
/// A host reads a register.
pub const EVENT_READ32: u32 = 3;
/// A controller fetches a command.
pub const EVENT_FETCH: u32 = 4;
/// A controller executes a command.
pub const EVENT_EXECUTE: u32 = 5;
/// Power is lost, and returns.
pub const EVENT_POWER_CYCLE: u32 = 6;

/// The execution of a command makes no call of the medium.
pub const NEEDS_NOTHING: u32 = 0;
/// It reads blocks.
pub const NEEDS_READ: u32 = 1;
/// It writes blocks.
pub const NEEDS_WRITE: u32 = 2;
/// It writes zeros.
pub const NEEDS_ZERO: u32 = 3;
/// It flushes.
pub const NEEDS_FLUSH: u32 = 4;

/// Each action of Reservation Register.
pub const ACTION_REGISTER: u32 = 0;
/// Acquire.
pub const ACTION_ACQUIRE: u32 = 1;
/// Preempt, and Preempt and Abort.
pub const ACTION_PREEMPT: u32 = 2;
/// Release.
pub const ACTION_RELEASE: u32 = 3;
/// Clear.
pub const ACTION_CLEAR: u32 = 4;

/// The version of the interface. It changes whenever a program built for it has to change.
pub const VERSION: u32 = 3;

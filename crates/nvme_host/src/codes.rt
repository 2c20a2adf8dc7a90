//! The numbers of results, which are those of `nvmehost.h`.

/// It is done.
pub const OK: u32 = 0;
/// The controller answered a request.
pub const DONE: u32 = 1;
/// A reset aborted a request.
pub const ABORTED: u32 = 2;
/// There is no new answer.
pub const NOTHING: u32 = 3;
/// The bring-up continues once the controller is ready.
pub const NEEDS_STATUS: u32 = 4;
/// The bring-up continues once it has the next completion of the admin queue.
pub const NEEDS_COMPLETION: u32 = 5;
/// The status is not the awaited one yet.
pub const WAITS: u32 = 6;

/// No driver is open.
pub const CLOSED: u32 = 16;
/// A driver is open already.
pub const ALREADY_OPEN: u32 = 17;
/// Memory was refused.
pub const NO_MEMORY: u32 = 18;
/// The actions of the last call were not taken.
pub const ACTIONS_PENDING: u32 = 19;
/// Controller Capabilities were not judged.
pub const NOT_JUDGED: u32 = 20;
/// The controller was not seen disabled.
pub const NOT_DISABLED: u32 = 21;
/// The driver is up, or has failed.
pub const ALREADY_UP: u32 = 22;
/// The controller is not ready.
pub const NOT_READY: u32 = 23;
/// The controller did not answer one of the driver's own commands.
pub const NO_ANSWER: u32 = 24;
/// The controller refused one of them.
pub const REFUSED: u32 = 25;
/// The driver is not up.
pub const NOT_UP: u32 = 26;
/// No command can express the request.
pub const BAD_REQUEST: u32 = 27;
/// Every slot holds a request that was not delivered.
pub const NO_SLOT: u32 = 28;
/// The submission queue has no room that the driver knows of.
pub const RING_FULL: u32 = 29;
/// Every ticket was issued.
pub const NO_TICKET: u32 = 30;
/// A new completion answers no request that waits: the driver has failed.
pub const UNKNOWN_COMMAND: u32 = 31;
/// A buffer is too short, or the bytes are not in the window.
pub const OUTSIDE: u32 = 32;
/// Nothing is awaited.
pub const NOT_AWAITED: u32 = 33;

/// No request with this ticket waits.
pub const NOT_WAITING: u32 = 34;

/// The registers read as ones: the device was removed.
pub const REMOVED: u32 = 48;
/// Controller Status shows a failure.
pub const FATAL: u32 = 49;
/// The time of Controller Capabilities is over.
pub const TIMED_OUT: u32 = 50;
/// The queues of the controller are too short.
pub const QUEUES_TOO_SHORT: u32 = 51;
/// It does not have the NVM command set.
pub const NO_NVM_COMMANDS: u32 = 52;
/// Its memory pages are larger than 4 KiB.
pub const PAGE_SIZE: u32 = 53;
/// It is no I/O controller.
pub const NOT_IO: u32 = 54;
/// Its queue entries have other sizes.
pub const ENTRY_SIZE: u32 = 55;
/// There is no such namespace, or it is not attached.
pub const NOT_THERE: u32 = 56;
/// The blocks of the namespace do not have 512 bytes.
pub const BLOCK_SIZE: u32 = 57;
/// The blocks of the namespace have metadata or protection information.
pub const METADATA: u32 = 58;
/// The controller was not asked what it supports.
pub const CONTROLLER_NOT_ASKED: u32 = 59;
/// The namespace was not asked for its format.
pub const NAMESPACE_NOT_ASKED: u32 = 60;
/// The controller does not support the command.
pub const NOT_SUPPORTED: u32 = 61;
/// The controller does not transfer this number of bytes at once.
pub const TOO_LONG: u32 = 62;
/// Some of the blocks are after the last one of the namespace.
pub const PAST_THE_END: u32 = 63;
/// The library has no place for a namespace with this identifier.
pub const NSID_TOO_HIGH: u32 = 64;
/// The time of a request is over: the controller must be reset first.
pub const EXPIRED: u32 = 65;
/// The controller does not have the identifier of this host.
pub const NO_HOST_IDENTIFIER: u32 = 66;

//! The codes of answers, and other numbers. `nvmesim.h` and `nvmetcp.h` have the same.

/// The call succeeded.
pub const OK: u32 = 0;
/// There are no controllers, or no commands: no `nvmesim_fabrics_open` or `nvmesim_transfers_open` came before.
pub const CLOSED: u32 = 16;
/// HPDA or C2HData is too large.
pub const OUTSIDE: u32 = 18;
/// There are controllers, or commands, already.
pub const ALREADY_OPEN: u32 = 22;
/// There are too many controllers.
pub const TOO_MANY: u32 = 25;
/// Memory was refused.
pub const NO_MEMORY: u32 = 27;
/// The controller has no such queue.
pub const NO_QUEUE: u32 = 28;
/// A PDU has a field at fault.
pub const BAD_PDU: u32 = 40;
/// The connection has no PDU that the call is about.
pub const NO_PDU: u32 = 41;
/// The connection has ended, and no command is taken.
pub const ENDED: u32 = 42;
/// A command expects no bytes, and no R2T asks for none.
pub const NO_DATA: u32 = 43;
/// A command with this identifier is in flight.
pub const IN_FLIGHT: u32 = 44;
/// 64 commands wait for their R2T.
pub const MANY_WAIT: u32 = 45;
/// No command waits for its R2T, or no tag is free.
pub const NO_REQUEST: u32 = 46;

/// A command is accepted, and another without a response has its identifier.
pub const CONFLICT: u32 = 47;
/// As many commands have no response as the queue has entries.
pub const QUEUE_FULL: u32 = 48;
/// The queue takes no more commands.
pub const QUEUE_ENDED: u32 = 49;
/// No such command is without a response, or the queue has ended.
pub const NO_COMMAND: u32 = 50;

/// A connection takes the bytes of a PDU.
pub const STAGE_TAKING: u8 = 0;
/// A PDU is whole.
pub const STAGE_WHOLE: u8 = 1;
/// A PDU is complete.
pub const STAGE_COMPLETE: u8 = 2;
/// A connection has ended.
pub const STAGE_ENDED: u8 = 3;

/// A queue takes commands.
pub const QUEUE_STAGE_OPEN: u8 = 0;
/// It takes no more, and those without a response may still get one.
pub const QUEUE_STAGE_ENDING: u8 = 1;
/// It has ended.
pub const QUEUE_STAGE_ENDED: u8 = 2;

/// A connection has not connected.
pub const SESSION_NOT_CONNECTED: u32 = 0;
/// Its host has to authenticate itself.
pub const SESSION_AUTHENTICATING: u32 = 1;
/// It is a queue of a controller.
pub const SESSION_QUEUE: u32 = 2;
/// It is the Admin Queue of a discovery controller.
pub const SESSION_DISCOVERY: u32 = 3;
/// It has ended.
pub const SESSION_ENDED: u32 = 4;

/// SUBNQN names this subsystem.
pub const SUBSYSTEM_NVM: u32 = 0;
/// It names the discovery subsystem.
pub const SUBSYSTEM_DISCOVERY: u32 = 1;
/// It names another.
pub const SUBSYSTEM_OTHER: u32 = 2;

/// A command or a Connect is refused.
pub const REFUSED: u32 = 0;
/// Authentication Send or Authentication Receive.
pub const COMMAND_AUTHENTICATE: u32 = 1;
/// Disconnect.
pub const COMMAND_DISCONNECT: u32 = 2;
/// Property Get.
pub const COMMAND_GET_PROPERTY: u32 = 3;
/// Property Set.
pub const COMMAND_SET_PROPERTY: u32 = 4;

/// A Connect is for a controller.
pub const PLACE_CONTROLLER: u32 = 1;
/// A Connect is for a discovery controller.
pub const PLACE_DISCOVERY: u32 = 2;

/// A command is not executed: a status answers it.
pub const CAPSULE_REFUSED: u32 = 1;
/// It waits for its data.
pub const CAPSULE_WAITS: u32 = 2;
/// It is ready: its data are in its capsule.
pub const CAPSULE_TO_CONTROLLER: u32 = 3;
/// It is ready: the controller returns data, or it has none.
pub const CAPSULE_FROM_CONTROLLER: u32 = 4;

/// A command is one of Fabrics.
pub const DESTINATION_FABRICS: u32 = 0;
/// It is for the discovery controller.
pub const DESTINATION_DISCOVERY: u32 = 1;
/// It is for the Admin Queue of a controller.
pub const DESTINATION_ADMIN: u32 = 2;
/// It is for an I/O queue of a controller.
pub const DESTINATION_IO: u32 = 3;
/// It is not executed: a status answers it.
pub const DESTINATION_REFUSED: u32 = 4;

/// The data buffer of a command that is executed as soon as it is fetched. That of the n-th held command has the number
/// n + 1.
pub const BUFFER_AT_ONCE: u32 = 0;

//! Names in answers to queries.

ghost use Rattle.std.specs.Prelude.{◌≡◌};
ghost use Rattle.live_views.specs.Showing as spec;

use nvme_driver::{Lane, State};

/// The name of a command, by its queue and its opcode; `unknown` if the controller has no such command.
pub fn command_name(queue: u16, opcode: u8) -> &'static str
    ensures { result.now ≡ spec.command_name queue opcode }
{
    if queue == 0 {
        admin_name(opcode)
    } else {
        io_name(opcode)
    }
}

/// The name of an admin command.
fn admin_name(opcode: u8) -> &'static str
    ensures { result.now ≡ spec.admin_name opcode }
{
    match opcode {
        0x00 => "delete_submission_queue",
        0x01 => "create_submission_queue",
        0x04 => "delete_completion_queue",
        0x05 => "create_completion_queue",
        0x06 => "identify",
        0x09 => "set_features",
        0x0a => "get_features",
        0x15 => "namespace_attachment",
        _ => "unknown",
    }
}

/// The name of an I/O command.
fn io_name(opcode: u8) -> &'static str
    ensures { result.now ≡ spec.io_name opcode }
{
    match opcode {
        0x00 => "flush",
        0x01 => "write",
        0x02 => "read",
        0x05 => "compare",
        0x08 => "write_zeroes",
        0x0d => "reservation_register",
        0x0e => "reservation_report",
        0x11 => "reservation_acquire",
        0x15 => "reservation_release",
        _ => "unknown",
    }
}

/// The name of a driver's state.
pub fn driver_state_name(state: State) -> &'static str
    ensures { result.now ≡ spec.state_text state }
{
    match state {
        State::Down => "down",
        State::Up => "up",
        State::Failed => "failed",
    }
}

/// The name of a lane (queue pair).
pub fn lane_name(lane: Lane) -> &'static str
    ensures { result.now ≡ spec.lane_text lane }
{
    match lane {
        Lane::Admin => "admin",
        Lane::Io => "io",
    }
}

/// The state of a request that was not delivered.
pub fn life_name(is_live: bool) -> &'static str
    ensures { result.now ≡ spec.life_text is_live }
{
    if is_live { "live" } else { "aborted" }
}

/// A bit, as a digit.
pub fn bit_name(bit: bool) -> &'static str
    ensures { result.now ≡ spec.bit_text bit }
{
    if bit { "1" } else { "0" }
}

//! Controller Status (CSTS).

ghost use Rattle.std.specs.Prelude.{◌≡◌};
ghost use Rattle.nvme_spec.specs.Registers as register;

use nvme_spec::ControllerState;

/// CSTS: RDY in bit 0, CFS in bit 1, SHST in bits 3:2. A controller that is shut down is ready, and its SHST is 10b.
pub fn status(state: ControllerState) -> u32
    ensures { result ≡ register.status_of state }
{
    match state {
        ControllerState::Off => 0b0000,
        ControllerState::Ready => 0b0001,
        ControllerState::ShutDown => 0b1001,
        ControllerState::Failed => 0b0010,
    }
}

/// CSTS.RDY.
pub fn is_ready(state: ControllerState) -> bool
    ensures { result ≡ register.is_ready state }
{
    match state {
        ControllerState::Off | ControllerState::Failed => false,
        ControllerState::Ready | ControllerState::ShutDown => true,
    }
}

//! Opens a subsystem.

ghost use Rattle.std.specs.Prelude.{◌≡◌, ◌≤◌, length, map, IfOk};
ghost use Rattle.nvme_spec.specs.declared.config.ControllerConfig.{ControllerConfig as Configured};
ghost use Rattle.nvme_machine.specs.Controllers.{new_controller};

use nvme_ctrl::Controller;
use nvme_medium::Medium;
use nvme_spec::{ConfigFault, ControllerConfig};
use nvme_wire::NoMemory;
use std::alloc::Global;

/// Why a subsystem was not opened, with the unchanged medium.
#[derive(Drop)]
pub struct NewFault<M: Medium> {
    pub fault: ConfigFault,
    pub medium: M,
}

/// The controllers of a configuration, never enabled, each over a window of zeros.
///
/// # Errors
///
/// `NoMemory` if memory for one is refused.
pub fn controllers_of(
    alloc: Global,
    configs: &[ControllerConfig],
) -> Result<Vec<Controller>, NoMemory>
    ensures { IfOk result (λ controllers. controllers.items ≡ map (λ (k : Configured). new_controller k.cntlid)
        configs.now) }
{
    let mut controllers = Vec::with_capacity(alloc, configs.len())?;
    for config in configs {
        controllers.push_reserved(Controller::new(alloc, config.cntlid)?);
    }
    Ok(controllers)
}

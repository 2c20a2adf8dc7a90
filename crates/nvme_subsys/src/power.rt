//! A power cycle of all controllers.

ghost use Rattle.std.specs.Prelude.{◌≡◌, map};
ghost use Rattle.nvme_machine.specs.Controllers.{power_cycled};

use nvme_ctrl::Controller;

/// Each controller goes through a power cycle.
pub fn power_cycle_all(controllers: &mut [Controller])
    ensures { controllers.new ≡ map power_cycled controllers.old }
{
    for i in 0..controllers.len() {
        controllers[i].power_cycle();
    }
}

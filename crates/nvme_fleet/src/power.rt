//! The part of a power cycle after that of the subsystem: each driver resets its controller.

ghost use Rattle.std.specs.Prelude.{◌≡◌, ◌<◌, ◌≤◌, length, map, option_map};
ghost use Rattle.nvme_driver.specs.Drivers.{after_reset};
ghost use Rattle.nvme_fleet.specs.Linked.{IsThere};
ghost use Rattle.nvme_fleet.specs.PowerReset.{AreCycled};

use crate::link::Link;
use nvme_driver::Driver;
use nvme_medium::Medium;
use nvme_subsys::Subsystem;

/// A driver resets its controller over the link, which changes nothing there after a power cycle.
fn reset_over<M: Medium>(driver: &mut Driver, link: &mut Link<'_, M>)
    requires there { link.old.state.place < length link.old.state.subsystem.controllers }
    requires cycled { AreCycled link.old.state.subsystem }
    ensures driver { driver.new ≡ after_reset driver.old }
    ensures state { link.new.state.subsystem ≡ link.old.state.subsystem }
    ensures medium { link.new.medium ≡ link.old.medium }
    ensures name { link.new.state.name ≡ link.old.state.name }
{
    driver.reset(link);
}

/// A driver resets its controller, which is controller `cntlid` of a subsystem.
fn reset_one<M: Medium>(driver: &mut Driver, subsystem: &mut Subsystem<M>, cntlid: u16)
    requires there { IsThere subsystem.old.state cntlid }
    requires cycled { AreCycled subsystem.old.state }
    ensures driver { driver.new ≡ after_reset driver.old }
    ensures state { subsystem.new.state ≡ subsystem.old.state }
    ensures medium { subsystem.new.medium ≡ subsystem.old.medium }
{
    let mut link = Link { subsystem, cntlid };
    reset_over(driver, &mut link);
    // Destructured, so that the state after its borrow is known.
    let Link {
        subsystem: _subsystem,
        ..
    } = link;
}

/// A host's driver resets its controller, if the host has one.
fn reset_if_any<M: Medium>(driver: &mut Option<Driver>, subsystem: &mut Subsystem<M>, cntlid: u16)
    requires there { IsThere subsystem.old.state cntlid }
    requires cycled { AreCycled subsystem.old.state }
    ensures driver { driver.new ≡ option_map after_reset driver.old }
    ensures state { subsystem.new.state ≡ subsystem.old.state }
    ensures medium { subsystem.new.medium ≡ subsystem.old.medium }
{
    match driver {
        Some(driver) => reset_one(driver, subsystem, cntlid),
        None => {}
    }
}

/// The drivers of all hosts reset their controllers. The driver of controller k is at place k - 1.
pub(crate) fn reset_all<M: Medium>(drivers: &mut [Option<Driver>], subsystem: &mut Subsystem<M>)
    requires pairs { length drivers.old ≡ length subsystem.old.state.controllers }
    requires cycled { AreCycled subsystem.old.state }
    ensures drivers { drivers.new ≡ map (option_map after_reset) drivers.old }
    ensures state { subsystem.new.state ≡ subsystem.old.state }
    ensures medium { subsystem.new.medium ≡ subsystem.old.medium }
{
    for i in 0..usize::from(subsystem.controller_count()) {
        reset_if_any(&mut drivers[i], subsystem, i as u16 + 1);
    }
}

//! A host's driver at its controller: each call is one event of a fleet, and the step of their mailbox.

ghost use Rattle.std.specs.Prelude.{◌≡◌, ◌+◌};
ghost use Rattle.nvme_event.specs.declared.seen.FleetSeen.TheVariants.{Up, Rung, Reset};
ghost use Rattle.nvme_fleet.specs.DriverEvents.{ComesUp, Rings, Resets};
ghost use Rattle.nvme_mailbox.specs.Deliveries.{brought_up, rung, reset as reset_mailbox, plain};
ghost use Rattle.nvme_fleet.specs.Linked.{KeepsSite, Reaches, linked_controller};
ghost use Rattle.nvme_refinement.specs.Sound.{Sound, mailbox};
ghost use Rattle.nvme_refinement.specs.Steps.{IsStep};

use crate::link::Link;
pub use crate::place::place;
pub use crate::poll::poll;
use nvme_driver::{Driver, NotUp, UpFault};
use nvme_medium::Medium;

/// Brings the controller up. A driver that is down always comes up.
///
/// # Errors
///
/// `AlreadyUp` if the driver is up; nothing changes then.
// Not inlined, so that the other calls do not pay for its locals.
#[inline(never)]
pub fn bring_up<M: Medium>(driver: &mut Driver, link: &mut Link<'_, M>) -> Result<(), UpFault>
    requires there { Reaches link.old.state }
    requires sound { Sound driver.old (linked_controller link.old.state) }
    ensures step { IsStep (brought_up (mailbox driver.old (linked_controller link.old.state))) driver.new
        (linked_controller link.new.state) (plain (Up result)) }
    ensures site { KeepsSite link.old.state link.new.state }
    ensures medium { link.new.medium ≡ link.old.medium }
    ensures below { ComesUp M.tells (link.old.state.place + 1) driver.old link.old.state.subsystem result driver.new
        link.new.state.subsystem }
{
    driver.bring_up(link)
}

/// Writes the doorbells for the placed requests.
///
/// # Errors
///
/// `NotUp` if the driver is not up; nothing changes then.
#[inline(never)]
pub fn ring<M: Medium>(driver: &mut Driver, link: &mut Link<'_, M>) -> Result<(), NotUp>
    requires there { Reaches link.old.state }
    requires sound { Sound driver.old (linked_controller link.old.state) }
    ensures step { IsStep (rung (mailbox driver.old (linked_controller link.old.state))) driver.new
        (linked_controller link.new.state) (plain (Rung result)) }
    ensures site { KeepsSite link.old.state link.new.state }
    ensures medium { link.new.medium ≡ link.old.medium }
    ensures below { Rings M.tells (link.old.state.place + 1) driver.old link.old.state.subsystem result driver.new
        link.new.state.subsystem }
{
    driver.ring(link)
}

/// Resets the controller. All requests that were not delivered are aborted.
#[inline(never)]
pub fn reset<M: Medium>(driver: &mut Driver, link: &mut Link<'_, M>)
    requires there { Reaches link.old.state }
    requires sound { Sound driver.old (linked_controller link.old.state) }
    ensures step { IsStep (reset_mailbox (mailbox driver.old (linked_controller link.old.state))) driver.new
        (linked_controller link.new.state) (plain Reset) }
    ensures site { KeepsSite link.old.state link.new.state }
    ensures medium { link.new.medium ≡ link.old.medium }
    ensures below { Resets M.tells (link.old.state.place + 1) driver.old link.old.state.subsystem driver.new
        link.new.state.subsystem }
{
    driver.reset(link);
}

//! A fleet's driver places a request.

ghost use Rattle.std.specs.Prelude.{◌≡◌, ◌+◌};
ghost use Rattle.nvme_event.specs.declared.seen.FleetSeen.TheVariants.{Placed};
ghost use Rattle.nvme_fleet.specs.DriverEvents.{Places};
ghost use Rattle.nvme_mailbox.specs.Deliveries.{placed, plain};
ghost use Rattle.nvme_fleet.specs.Linked.{KeepsSite, Reaches, linked_controller};
ghost use Rattle.nvme_refinement.specs.Sound.{Sound, mailbox};
ghost use Rattle.nvme_refinement.specs.Steps.{IsStep};

use crate::link::Link;
use nvme_driver::{Driver, PlaceRefusal, Request, Ticket};
use nvme_medium::Medium;

/// Places a request, as the driver's mailbox does, and returns its ticket. The access state and the medium stay, and
/// the controller sees the request after the next ring.
///
/// # Errors
///
/// The first of `NotReady`, `BadRequest`, `NoSlot`, `RingFull` and `TicketsExhausted` that holds. The mailbox is
/// unchanged then.
// Not inlined, so that the other calls do not pay for its locals.
#[inline(never)]
pub fn place<M: Medium>(
    driver: &mut Driver,
    link: &mut Link<'_, M>,
    request: &Request<'_>,
) -> Result<Ticket, PlaceRefusal>
    requires there { Reaches link.old.state }
    requires sound { Sound driver.old (linked_controller link.old.state) }
    ensures step { IsStep (placed (mailbox driver.old (linked_controller link.old.state)) request.now) driver.new
        (linked_controller link.new.state) (plain (Placed result)) }
    ensures site { KeepsSite link.old.state link.new.state }
    ensures medium { link.new.medium ≡ link.old.medium }
    ensures below { Places M.tells (link.old.state.place + 1) request.now driver.old link.old.state.subsystem result
        driver.new link.new.state.subsystem }
{
    driver.place(link, request)
}

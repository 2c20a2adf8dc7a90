//! A fleet's driver polls.

ghost use Rattle.std.specs.Prelude.{◌≡◌, ◌≤◌, ◌+◌, length, take};
ghost use Rattle.nvme_spec.specs.Limits.{most_bytes};
ghost use Rattle.nvme_event.specs.declared.seen.FleetSeen.TheVariants.{Polled};
ghost use Rattle.nvme_fleet.specs.DriverEvents.{Polls};
ghost use Rattle.nvme_mailbox.specs.Deliveries.{polled};
ghost use Rattle.nvme_fleet.specs.Linked.{KeepsSite, Reaches, linked_controller};
ghost use Rattle.nvme_refinement.specs.Sound.{Sound, mailbox};
ghost use Rattle.nvme_refinement.specs.Steps.{IsStep};

use crate::link::Link;
use nvme_driver::{Answer, Driver, PollFault};
use nvme_medium::Medium;

/// Delivers the next answer, as the driver's mailbox does, with its data at the front of the buffer, or returns `None`
/// if there is no new one. The buffer must have at least 131,072 bytes. The access state and the medium stay.
///
/// # Errors
///
/// `NotUp` if the driver is not up and no aborted request is left to deliver. No other fault occurs: each completion of
/// its controller answers a request.
#[inline(never)]
pub fn poll<M: Medium>(
    driver: &mut Driver,
    link: &mut Link<'_, M>,
    buffer: &mut [u8],
) -> Result<Option<Answer>, PollFault>
    requires there { Reaches link.old.state }
    requires sound { Sound driver.old (linked_controller link.old.state) }
    requires room { most_bytes ≤ length buffer.old }
    ensures step { IsStep (polled (mailbox driver.old (linked_controller link.old.state))) driver.new
        (linked_controller link.new.state)
        (record {
          seen = Polled result;
          bytes = (polled (mailbox driver.old (linked_controller link.old.state))).reply.bytes;
        }) }
    ensures bytes { take (length (polled (mailbox driver.old (linked_controller link.old.state))).reply.bytes)
        buffer.new
        ≡ (polled (mailbox driver.old (linked_controller link.old.state))).reply.bytes }
    ensures site { KeepsSite link.old.state link.new.state }
    ensures medium { link.new.medium ≡ link.old.medium }
    ensures below { Polls M.tells (link.old.state.place + 1) driver.old link.old.state.subsystem result driver.new
        link.new.state.subsystem }
{
    driver.poll_into(link, buffer)
}

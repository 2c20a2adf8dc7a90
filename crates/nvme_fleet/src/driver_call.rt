//! A call of a host's driver, and the step of its mailbox.

ghost use Rattle.std.specs.Prelude.{◌≡◌, ◌≤◌, ◌+◌, ◌-◌, length};
ghost use Rattle.nvme_spec.specs.Limits.{most_bytes};
ghost use Rattle.nvme_event.specs.Bare.{seen_of};
ghost use Rattle.nvme_event.specs.Replies.{data_len};
ghost use Rattle.nvme_fleet.specs.DriverEvents.{Does, DoesIfAny};
ghost use Rattle.nvme_fleet.specs.FleetStates.{IsCalled, SoundBy, reaction_to, reply_in};
ghost use Rattle.nvme_fleet.specs.Linked.{IsThere, KeepsOthers, KeepsSite, Reaches, controller_in, linked_controller};
ghost use Rattle.nvme_refinement.specs.Sound.{Sound, mailbox};
ghost use Rattle.nvme_refinement.specs.Steps.{IsStep};

use crate::link::Link;
use crate::member;
use nvme_driver::{Driver, Request};
use nvme_event::BareFleetSeen;
use nvme_medium::Medium;
use nvme_subsys::Subsystem;

/// A call of a driver.
#[derive(Clone, Copy)]
pub(crate) enum DriverCall<'a> {
    /// Brings its controller up.
    BringUp,
    /// Places a request.
    Place(Request<'a>),
    /// Writes the doorbells for the placed requests.
    Ring,
    /// Delivers an answer.
    Poll,
    /// Resets its controller.
    Reset,
}

/// Makes a driver's call over the link to its controller. The data that it delivers are at the front of the buffer.
#[inline(always)]
fn call_over<M: Medium>(
    driver: &mut Driver,
    link: &mut Link<'_, M>,
    buffer: &mut [u8],
    call: DriverCall<'_>,
) -> BareFleetSeen
    requires there { Reaches link.old.state }
    requires sound { Sound driver.old (linked_controller link.old.state) }
    requires room { most_bytes ≤ length buffer.old }
    ensures step { IsStep (reaction_to call.entry (mailbox driver.old (linked_controller link.old.state))) driver.new
        (linked_controller link.new.state) (reply_in (seen_of result) buffer.new) }
    ensures below { Does M.tells (link.old.state.place + 1) call.entry driver.old link.old.state.subsystem
        (seen_of result) driver.new link.new.state.subsystem }
    ensures fits { data_len (seen_of result) ≤ length buffer.new }
    ensures site { KeepsSite link.old.state link.new.state }
    ensures medium { link.new.medium ≡ link.old.medium }
    ensures name { link.new.state.name ≡ link.old.state.name }
{
    match call {
        DriverCall::BringUp => BareFleetSeen::Up(member::bring_up(driver, link)),
        DriverCall::Place(request) => BareFleetSeen::Placed(member::place(driver, link, &request)),
        DriverCall::Ring => BareFleetSeen::Rung(member::ring(driver, link)),
        DriverCall::Poll => BareFleetSeen::Polled(member::poll(driver, link, buffer)),
        DriverCall::Reset => {
            member::reset(driver, link);
            BareFleetSeen::Reset
        }
    }
}

/// Makes a driver's call at its controller: the access state, the medium and all other controllers stay.
#[inline(always)]
fn call_at<M: Medium>(
    driver: &mut Driver,
    subsystem: &mut Subsystem<M>,
    cntlid: u16,
    buffer: &mut [u8],
    call: DriverCall<'_>,
) -> BareFleetSeen
    requires there { IsThere subsystem.old.state cntlid }
    requires named { (controller_in subsystem.old.state (cntlid - 1)).cntlid ≡ cntlid }
    requires sound { Sound driver.old (controller_in subsystem.old.state (cntlid - 1)) }
    requires room { most_bytes ≤ length buffer.old }
    ensures step { IsStep (reaction_to call.entry (mailbox driver.old (controller_in subsystem.old.state (cntlid - 1))))
        driver.new (controller_in subsystem.new.state (cntlid - 1)) (reply_in (seen_of result) buffer.new) }
    ensures below { Does M.tells cntlid call.entry driver.old subsystem.old.state (seen_of result) driver.new
        subsystem.new.state }
    ensures fits { data_len (seen_of result) ≤ length buffer.new }
    ensures world { subsystem.new.state.world ≡ subsystem.old.state.world }
    ensures device { subsystem.new.state.device ≡ subsystem.old.state.device }
    ensures medium { subsystem.new.medium ≡ subsystem.old.medium }
    ensures others { KeepsOthers (cntlid - 1) subsystem.old.state subsystem.new.state }
{
    let mut link = Link { subsystem, cntlid };
    let seen = call_over(driver, &mut link, buffer, call);
    // Destructured, so that the state after its borrow is known.
    let Link {
        subsystem: _subsystem,
        ..
    } = link;
    seen
}

/// Makes a call of a host's driver, if it has one.
#[inline(always)]
pub(crate) fn call_driver<M: Medium>(
    driver: &mut Option<Driver>,
    subsystem: &mut Subsystem<M>,
    cntlid: u16,
    buffer: &mut [u8],
    call: DriverCall<'_>,
) -> BareFleetSeen
    requires there { IsThere subsystem.old.state cntlid }
    requires named { (controller_in subsystem.old.state (cntlid - 1)).cntlid ≡ cntlid }
    requires sound { SoundBy driver.old (controller_in subsystem.old.state (cntlid - 1)) }
    requires room { most_bytes ≤ length buffer.old }
    ensures called { IsCalled driver.old (controller_in subsystem.old.state (cntlid - 1)) call.entry driver.new
        (controller_in subsystem.new.state (cntlid - 1)) (reply_in (seen_of result) buffer.new) }
    ensures below { DoesIfAny M.tells cntlid call.entry driver.old subsystem.old.state (seen_of result) driver.new
        subsystem.new.state }
    ensures fits { data_len (seen_of result) ≤ length buffer.new }
    ensures world { subsystem.new.state.world ≡ subsystem.old.state.world }
    ensures device { subsystem.new.state.device ≡ subsystem.old.state.device }
    ensures medium { subsystem.new.medium ≡ subsystem.old.medium }
    ensures others { KeepsOthers (cntlid - 1) subsystem.old.state subsystem.new.state }
{
    match driver {
        Some(driver) => call_at(driver, subsystem, cntlid, buffer, call),
        None => BareFleetSeen::NoDriver,
    }
}

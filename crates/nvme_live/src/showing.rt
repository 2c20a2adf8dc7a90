//! What a query shows of a fleet, unless it asks for blocks.

ghost use Rattle.std.specs.Prelude.{◌≡◌, option_map};
ghost use Rattle.nvme_fleet.specs.FleetStates.{layers_of};
ghost use Rattle.live_views.specs.Looks.{named_in};
ghost use Rattle.live_views.specs.Shown.{shown_by};
ghost use Rattle.nvme_live.specs.Looks.{driver_shown, shown_text};

use live_text::{Looking, Why};
use live_views::{DriverText, Shown, nothing, shown_in};
use nvme_ctrl::Controller;
use nvme_fleet::Fleet;
use nvme_medium::Medium;

/// The controller that a query names, if it exists.
fn named<M: Medium>(looking: Looking, fleet: &Fleet<M>) -> Option<&Controller>
    ensures { option_map (λ c. c.now) result ≡ named_in fleet.now.state.subsystem looking }
{
    match looking.cntlid() {
        Some(cntlid) => fleet.controller(cntlid),
        None => None,
    }
}

/// What is shown of a host's driver, if it has one.
fn driver_of<M: Medium>(number: u64, cntlid: u16, fleet: &Fleet<M>) -> Shown<'_>
    ensures { shown_by result ≡ driver_shown number cntlid fleet.now.state.drivers }
{
    match fleet.driver(cntlid) {
        Some(driver) => Shown::Driver(DriverText { cntlid, driver }),
        None => nothing(number, Why::NoDriver),
    }
}

/// What the query with this number shows, unless it asks for blocks.
pub fn shown_of<M: Medium>(number: u64, looking: Looking, fleet: &Fleet<M>) -> Shown<'_>
    ensures { shown_by result ≡ shown_text number looking (layers_of fleet.now.state) }
{
    match looking {
        Looking::Driver(cntlid) => driver_of(number, cntlid, fleet),
        _ => shown_in(number, looking, named(looking, fleet), fleet.spaces()),
    }
}

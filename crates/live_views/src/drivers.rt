//! Answers about a driver.

ghost use Rattle.std.specs.List.{flat_map};
ghost use Rattle.script_text.specs.Pages.{Adds};
ghost use Rattle.live_views.specs.Showing.{driver_text, slot_text, next_text};

use crate::names::{driver_state_name, lane_name, life_name};
use nvme_driver::{Driver, Waiting};
use script_text::{NoRoom, Page, Spell, put_both, put_labelled, put_number};

/// A driver.
#[derive(Clone, Copy)]
pub struct DriverText<'a> {
    pub cntlid: u16,
    pub driver: &'a Driver,
}

impl Spell for DriverText<'_> {
    ghost spelled = { λ d. driver_text d.cntlid d.driver.now };

    fn spell<P: Page>(&self, page: &mut P) -> Result<(), NoRoom> {
        put_labelled(page, "driver ", u64::from(self.cntlid))?;
        put_both(page, " state ", driver_state_name(self.driver.state()))?;
        page.put_str(" next ")?;
        put_next(page, self.driver)?;
        put_slots(page, self.driver.slots())
    }
}

/// Puts the next ticket of a driver.
fn put_next<P: Page>(page: &mut P, driver: &Driver) -> Result<(), NoRoom>
    ensures { Adds P.room result (P.written page.old) (next_text driver.now.next) (P.written page.new) }
{
    match driver.next_ticket() {
        Some(ticket) => put_number(page, ticket.0),
        None => page.put_str("none"),
    }
}

/// Puts the requests that were not delivered.
fn put_slots<P: Page>(page: &mut P, slots: &[Option<Waiting>]) -> Result<(), NoRoom>
    ensures { Adds P.room result (P.written page.old) (flat_map slot_text slots.now) (P.written page.new) }
{
    let mut rest = slots;
    while let Some((first, behind)) = rest.split_first() {
        put_slot(page, *first)?;
        rest = behind;
    }
    Ok(())
}

/// Puts a request that was not delivered, if there is one.
fn put_slot<P: Page>(page: &mut P, slot: Option<Waiting>) -> Result<(), NoRoom>
    ensures { Adds P.room result (P.written page.old) (slot_text slot) (P.written page.new) }
{
    let Some(waiting) = slot else {
        return page.put_str("");
    };
    put_labelled(page, " ticket ", waiting.ticket.0)?;
    put_both(page, " lane ", lane_name(waiting.lane))?;
    put_both(page, " is ", life_name(waiting.live))
}

//! Events as lines.

ghost use Rattle.std.specs.Prelude.{◌≡◌};
ghost use Rattle.script_text.specs.Pages.{Adds};
ghost use Rattle.nvme_lines.specs.LineTexts.{event_keyword, event_line, event_words, spaced};

use crate::request::{put_request, request_keyword};
use crate::words::{put_bytes, put_numbers};
use nvme_event::FleetEvent;
use nvme_grammar::Keyword;
use script_text::{NoRoom, Page, put_labelled};

/// The keyword of an event.
fn keyword_of(event: &FleetEvent<'_>) -> Keyword
    ensures { result ≡ event_keyword event.now }
{
    match event {
        FleetEvent::BringUp(_) => Keyword::Up,
        FleetEvent::Place(_, request) => request_keyword(request),
        FleetEvent::Ring(_) => Keyword::Ring,
        FleetEvent::Fetch(..) => Keyword::Fetch,
        FleetEvent::Execute(..) => Keyword::Execute,
        FleetEvent::Poll(_) => Keyword::Poll,
        FleetEvent::Reset(_) => Keyword::Reset,
        FleetEvent::RawStore(..) => Keyword::Store,
        FleetEvent::RawWrite32(..) => Keyword::Write32,
        FleetEvent::PowerCycle => Keyword::PowerCycle,
    }
}

/// Puts the words after the keyword.
fn put_words<P: Page>(page: &mut P, event: &FleetEvent<'_>) -> Result<(), NoRoom>
    ensures { Adds P.room result (P.written page.old) (spaced (event_words event.now)) (P.written page.new) }
{
    match event {
        FleetEvent::BringUp(cntlid)
        | FleetEvent::Ring(cntlid)
        | FleetEvent::Poll(cntlid)
        | FleetEvent::Reset(cntlid) => put_numbers(page, &[u64::from(*cntlid)]),
        FleetEvent::Place(cntlid, request) => {
            put_labelled(page, " ", u64::from(*cntlid))?;
            put_request(page, request)
        }
        FleetEvent::Fetch(cntlid, queue) => {
            put_numbers(page, &[u64::from(*cntlid), u64::from(*queue)])
        }
        FleetEvent::Execute(cntlid, index) => {
            put_numbers(page, &[u64::from(*cntlid), *index as u64])
        }
        FleetEvent::RawStore(cntlid, address, bytes) => {
            put_numbers(page, &[u64::from(*cntlid), *address])?;
            put_bytes(page, bytes)
        }
        FleetEvent::RawWrite32(cntlid, offset, value) => {
            put_numbers(page, &[u64::from(*cntlid), *offset, u64::from(*value)])
        }
        FleetEvent::PowerCycle => page.put_str(""),
    }
}

/// Puts an event's line.
pub fn put_event<P: Page>(page: &mut P, event: &FleetEvent<'_>) -> Result<(), NoRoom>
    ensures { Adds P.room result (P.written page.old) (event_line event.now) (P.written page.new) }
{
    page.put_str(keyword_of(event).text())?;
    put_words(page, event)
}

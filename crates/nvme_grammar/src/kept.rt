//! The events of a script as they are stored, from its check until they happen.

ghost use Rattle.std.specs.Prelude.{◌≡◌, ◌≤◌, length, option_map};
ghost use Rattle.script_text.specs.Words.{most_words};
ghost use Rattle.nvme_grammar.specs.Kept.{kept_as, kept_event, line_event};
ghost use Rattle.nvme_grammar.specs.Lent.{event_by_value};
ghost use Rattle.nvme_grammar.specs.Room.{HasBytesRoom, HasTextRoom, HasWordsRoom};

use super::line::{Line, parse_line};
use nvme_event::FleetEvent;
use script_text::front_line;

/// An event of a text, in eight bytes: itself if it is a keyword and one number or two, as most are; otherwise the
/// position of its line, which is parsed again.
#[derive(Clone, Copy)]
pub enum KeptEvent {
    BringUp(u16),
    Ring(u16),
    Fetch(u16, u16),
    Execute(u16, u16),
    Poll(u16),
    Reset(u16),
    /// The event of the line at this byte of the text.
    Line(u32),
}

impl KeptEvent {
    /// An event as it is stored, whose line begins after `before` bytes.
    #[inline(always)]
    pub fn of(event: &FleetEvent, before: u32) -> KeptEvent
        ensures { result ≡ kept_as before event.now }
    {
        match *event {
            FleetEvent::BringUp(cntlid) => KeptEvent::BringUp(cntlid),
            FleetEvent::Ring(cntlid) => KeptEvent::Ring(cntlid),
            FleetEvent::Fetch(cntlid, queue) => KeptEvent::Fetch(cntlid, queue),
            FleetEvent::Execute(cntlid, index) => match u16::try_from(index) {
                Ok(index) => KeptEvent::Execute(cntlid, index),
                Err(_) => KeptEvent::Line(before),
            },
            FleetEvent::Poll(cntlid) => KeptEvent::Poll(cntlid),
            FleetEvent::Reset(cntlid) => KeptEvent::Reset(cntlid),
            _ => KeptEvent::Line(before),
        }
    }

    /// The event of this text that is stored in this form. The bytes and the identifiers of one whose line is parsed
    /// again are put into these buffers, which it borrows. `None` if that line is not an event.
    #[inline]
    pub fn event<'a>(
        self,
        text: &[u8],
        bytes: &'a mut [u8],
        identifiers: &'a mut [u16],
    ) -> Option<FleetEvent<'a>>
        requires bytes_room { HasTextRoom text.now bytes.old }
        requires identifiers_room { HasWordsRoom text.now identifiers.old }
        ensures { option_map event_by_value result ≡ kept_event text.now self }
    {
        match self {
            KeptEvent::BringUp(cntlid) => Some(FleetEvent::BringUp(cntlid)),
            KeptEvent::Ring(cntlid) => Some(FleetEvent::Ring(cntlid)),
            KeptEvent::Fetch(cntlid, queue) => Some(FleetEvent::Fetch(cntlid, queue)),
            KeptEvent::Execute(cntlid, index) => {
                Some(FleetEvent::Execute(cntlid, usize::from(index)))
            }
            KeptEvent::Poll(cntlid) => Some(FleetEvent::Poll(cntlid)),
            KeptEvent::Reset(cntlid) => Some(FleetEvent::Reset(cntlid)),
            KeptEvent::Line(before) => {
                let (line, _) = front_line(text.get(before as usize..)?);
                event_of_line(line, bytes, identifiers)
            }
        }
    }
}

/// The event of a line, if it has one.
fn event_of_line<'a>(
    line: &[u8],
    bytes: &'a mut [u8],
    identifiers: &'a mut [u16],
) -> Option<FleetEvent<'a>>
    requires bytes_room { HasBytesRoom line.now bytes.old }
    requires identifiers_room { most_words line.now ≤ length identifiers.old }
    ensures { option_map event_by_value result ≡ line_event line.now }
{
    match parse_line(line, bytes, identifiers)? {
        Line::Event(event) => Some(event),
        _ => None,
    }
}

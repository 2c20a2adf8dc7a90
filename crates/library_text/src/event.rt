//! The lines of events.

ghost use Rattle.std.specs.Prelude.{◌≡◌, ◌+◌, ◌*◌, ◌^◌, ◌<◌, ◌≤◌, ◌++◌, ◌∷◌, [], length, nat_lt};
ghost use Rattle.std.specs.List.{flat_map};
ghost use Rattle.script_text.specs.HexText.{hex_pair};
ghost use Rattle.script_text.specs.Pages.{Adds};
ghost use Rattle.nvme_event.specs.declared.event.FleetEvent.TheVariants as event;
ghost use Rattle.library_text.specs.EventLines.{PutsLine, event_line, store_front, whole_line};
ghost use Rattle.library_text.specs.Putting.{Puts};

use crate::putting::{Unput, put_short};
use arrayvec::ArrayString;
use nvme_event::FleetEvent;
use nvme_grammar::Line;
use nvme_lines::LineText;
use script_text::{NoRoom, Page, Spell, encode_into};

/// The most bytes before the digits of a store's line, and some more.
const MOST_FRONT: usize = 64;

/// Puts the line of an event of a raw host, of a controller or of all, and a line feed, at the front of a buffer, if
/// they fit, and returns their length. `None` if no line is this event: a store of no bytes, the execution at a place
/// above 65,535, or an event of a driver.
pub fn put_event(event: &FleetEvent<'_>, line: &mut [u8]) -> Option<Result<usize, Unput>>
    ensures { PutsLine (event_line event.now) result line.old line.new }
{
    match event {
        FleetEvent::RawStore(cntlid, address, bytes) => {
            if bytes.is_empty() {
                return None;
            }
            Some(put_store(*cntlid, *address, bytes, line))
        }
        FleetEvent::RawWrite32(cntlid, offset, value) => {
            Some(put_write32(*cntlid, *offset, *value, line))
        }
        FleetEvent::Fetch(cntlid, qid) => { Some(put_fetch(*cntlid, *qid, line)) }
        FleetEvent::Execute(cntlid, i) => {
            if *i > 65_535 {
                return None;
            }
            Some(put_execute(*cntlid, *i, line))
        }
        FleetEvent::PowerCycle => {
            Some(put_short(&LineText(Line::Event(FleetEvent::PowerCycle)), "\n", line))
        }
        _ => None,
    }
}

/// Puts the line of a register write.
fn put_write32(cntlid: u16, offset: u64, value: u32, line: &mut [u8]) -> Result<usize, Unput>
    ensures { Puts (whole_line (event.RawWrite32 cntlid offset value)) result line.old line.new }
{
    let event = FleetEvent::RawWrite32(cntlid, offset, value);
    put_short(&LineText(Line::Event(event)), "\n", line)
}

/// Puts the line of a fetch.
fn put_fetch(cntlid: u16, qid: u16, line: &mut [u8]) -> Result<usize, Unput>
    ensures { Puts (whole_line (event.Fetch cntlid qid)) result line.old line.new }
{
    put_short(
        &LineText(Line::Event(FleetEvent::Fetch(cntlid, qid))),
        "\n",
        line,
    )
}

/// Puts the line of an execution.
fn put_execute(cntlid: u16, i: usize, line: &mut [u8]) -> Result<usize, Unput>
    requires { i < 2 ^ 16 }
    ensures { Puts (whole_line (event.Execute cntlid i)) result line.old line.new }
{
    put_short(
        &LineText(Line::Event(FleetEvent::Execute(cntlid, i))),
        "\n",
        line,
    )
}

/// Puts the part before the digits of a store's line: the line of a store of no bytes.
fn put_front<P: Page>(page: &mut P, cntlid: u16, address: u64) -> Result<(), NoRoom>
    ensures { Adds P.room result (P.written page.old) (store_front cntlid address) (P.written page.new) }
{
    LineText(Line::Event(FleetEvent::RawStore(cntlid, address, &[]))).spell(page)
}

/// Puts the line of a store.
fn put_store(cntlid: u16, address: u64, bytes: &[u8], line: &mut [u8]) -> Result<usize, Unput>
    ensures { Puts (whole_line (event.RawStore cntlid address bytes.entry)) result line.old line.new }
{
    let mut text = ArrayString::<MOST_FRONT>::new();
    match put_front(&mut text, cntlid, address) {
        Ok(()) => put_digits(text.as_str().as_bytes(), bytes, line),
        Err(NoRoom) => Err(Unput::NoRoom),
    }
}

/// Whether a line fits that has `front` bytes, the digits of `bytes` bytes, and a line feed.
fn has_room(front: usize, bytes: usize, room: usize) -> bool
    ensures { result ≡ nat_lt (front + 2 * bytes) room }
{
    front < room && bytes <= (room - front - 1) / 2
}

/// Puts the front of a line, bytes in hexadecimal and a line feed.
fn put_digits(front: &[u8], bytes: &[u8], line: &mut [u8]) -> Result<usize, Unput>
    requires { length front.now ≤ 64 }
    ensures { Puts (front.now ++ flat_map hex_pair bytes.now ++ 10 ∷ []) result line.old line.new }
{
    if !has_room(front.len(), bytes.len(), line.len()) {
        return Err(Unput::NoRoom);
    }
    let end = front.len() + 2 * bytes.len();
    line[..front.len()].copy_from_slice(front);
    encode_into(bytes, &mut line[front.len()..end]);
    line[end] = b'\n';
    Ok(end + 1)
}

//! Parses one line of a session.

ghost use Rattle.std.specs.Prelude.{◌≡◌, ◌≤◌, length};
ghost use Rattle.script_text.specs.Words.{most_words};
ghost use Rattle.nvme_grammar.specs.Room.{HasBytesRoom};
ghost use Rattle.live_text.specs.Asking.{asked, asked_by_value, line_asked, look_asked, mark_asked, text_asked};
ghost use Rattle.nvme_grammar.specs.Line.{line_at};
ghost use Rattle.live_text.specs.Looking.{looking_at, text_in};

use crate::fault::{Why, looking_fault, outside};
use crate::looking::{Looking, is_looking, looking_of, text_in};
use nvme_event::FleetEvent;
use nvme_grammar::{Line, parse_line};

/// The most bytes of a line, without its line feed.
pub const LINE_LIMIT: usize = 1_048_576;

/// The most bytes of a text in a `?line` query: the digits of the longest data, and 64 more. Then the answer fits a
/// text, whatever it is.
const TEXT_LIMIT: usize = 262_208;

/// The kind of one line of a session.
#[derive(Clone, Copy)]
pub enum Asked<'a> {
    /// It is refused, whatever the state of the session.
    Fails(Why<'a>),
    /// It has no effect.
    Nothing,
    /// It is a query.
    Looks(Looking),
    /// It is a `?line` query, and its text is parsed as this.
    Parses(Line<'a>),
    /// It is a setup line, or `start`.
    Sets(Line<'a>),
    /// It is an event.
    Does(FleetEvent<'a>),
}

/// A line that begins with `?`, unless it is `?line`.
fn look_asked(line: &[u8]) -> Asked<'_>
    ensures { asked_by_value result ≡ look_asked line.now (looking_at line.now) }
{
    match looking_of(line) {
        Some(looking) => Asked::Looks(looking),
        None => Asked::Fails(looking_fault(line)),
    }
}

/// How the text of a `?line` query is parsed.
fn text_asked<'a>(
    text: &'a [u8],
    bytes: &'a mut [u8],
    identifiers: &'a mut [u16],
    spare: &mut [u8],
) -> Asked<'a>
    requires bytes_room { HasBytesRoom text.now bytes.old }
    requires identifiers_room { most_words text.now ≤ length identifiers.old }
    requires spare_room { HasBytesRoom text.now spare.old }
    ensures { asked_by_value result ≡ text_asked text.now (line_at text.now) }
{
    if text.len() > TEXT_LIMIT {
        return Asked::Fails(Why::LongText);
    }
    match parse_line(text, bytes, identifiers) {
        None => Asked::Fails(outside(text, spare)),
        Some(line) => Asked::Parses(line),
    }
}

/// A line that begins with `?`.
fn mark_asked<'a>(
    line: &'a [u8],
    bytes: &'a mut [u8],
    identifiers: &'a mut [u16],
    spare: &mut [u8],
) -> Asked<'a>
    requires bytes_room { HasBytesRoom line.now bytes.old }
    requires identifiers_room { most_words line.now ≤ length identifiers.old }
    requires spare_room { HasBytesRoom line.now spare.old }
    ensures { asked_by_value result ≡ mark_asked line.now (text_in line.now) }
{
    match text_in(line) {
        Some(text) => text_asked(text, bytes, identifiers, spare),
        None => look_asked(line),
    }
}

/// A line of the grammar of scripts.
fn line_asked<'a>(
    line: &'a [u8],
    bytes: &'a mut [u8],
    identifiers: &'a mut [u16],
    spare: &mut [u8],
) -> Asked<'a>
    requires bytes_room { HasBytesRoom line.now bytes.old }
    requires identifiers_room { most_words line.now ≤ length identifiers.old }
    requires spare_room { HasBytesRoom line.now spare.old }
    ensures { asked_by_value result ≡ line_asked line.now (line_at line.now) }
{
    match parse_line(line, bytes, identifiers) {
        None => Asked::Fails(outside(line, spare)),
        Some(Line::Blank) => Asked::Nothing,
        Some(Line::Event(event)) => Asked::Does(event),
        Some(said) => Asked::Sets(said),
    }
}

/// Parses a line. The bytes and the identifiers of an event are put into the first two buffers, which the result
/// borrows; the third is overwritten.
#[tactic(auto, unfolding(crate::specs::Asking::asked))]
pub fn asked_of<'a>(
    line: &'a [u8],
    bytes: &'a mut [u8],
    identifiers: &'a mut [u16],
    spare: &mut [u8],
) -> Asked<'a>
    requires bytes_room { HasBytesRoom line.now bytes.old }
    requires identifiers_room { most_words line.now ≤ length identifiers.old }
    requires spare_room { HasBytesRoom line.now spare.old }
    ensures { asked_by_value result ≡ asked line.now }
{
    if line.len() > LINE_LIMIT {
        Asked::Fails(Why::TooLong)
    } else if is_looking(line) {
        mark_asked(line, bytes, identifiers, spare)
    } else {
        line_asked(line, bytes, identifiers, spare)
    }
}

//! The meaning of one line of a script.

ghost use Rattle.std.specs.Prelude.{◌≡◌, ◌≤◌, length, option_map};
ghost use Rattle.script_text.specs.Words.{most_words};
ghost use Rattle.nvme_grammar.specs.Lent.{line_by_value};
ghost use Rattle.nvme_grammar.specs.Line.{is_comment, line_at};
ghost use Rattle.nvme_grammar.specs.Reading.{line_aside};
ghost use Rattle.nvme_grammar.specs.Room.{HasBytesRoom};

use super::reader::{checked_by, keyword_in, line_by};
use nvme_event::FleetEvent;
use nvme_spec::{ControllerConfig, NsConfig};
use script_text::behind_separators;

/// The meaning of one line of a script.
#[derive(Clone, Copy)]
pub enum Line<'a> {
    /// A comment, or a line without words: it has no effect.
    Blank,
    /// `controller C host H`, or `controller C host H raw`
    Controller(ControllerConfig),
    /// `namespace N blocks B shared`, or `private`
    Namespace(NsConfig),
    /// `attached C N`
    Attached { cntlid: u16, nsid: u32 },
    /// `start`
    Start,
    /// A line after `start`.
    Event(FleetEvent<'a>),
}

/// Whether a line's first byte is `#`.
pub fn is_comment_line(line: &[u8]) -> bool
    ensures { result ≡ is_comment line.now }
{
    line.first() == Some(&b'#')
}

/// Parses a line, without the line feed that ends it: `None` if it is outside the grammar. The bytes and the
/// identifiers of an event are put into these buffers, and the line that is returned borrows them.
#[tactic(auto, unfolding(crate::specs::Line::line_at))]
pub fn parse_line<'a>(
    line: &[u8],
    bytes: &'a mut [u8],
    identifiers: &'a mut [u16],
) -> Option<Line<'a>>
    requires bytes_room { HasBytesRoom line.now bytes.old }
    requires identifiers_room { most_words line.now ≤ length identifiers.old }
    ensures line { option_map line_by_value result ≡ line_at line.now }
{
    if line.is_empty() {
        return Some(Line::Blank);
    }
    if is_comment_line(line) {
        return Some(Line::Blank);
    }
    let start = behind_separators(line);
    if start.is_empty() {
        return Some(Line::Blank);
    }
    let (keyword, behind) = keyword_in(start)?;
    line_by(keyword, behind, bytes, identifiers)
}

/// Parses a line as `parse_line` does, except that an event whose line is parsed again before it happens is replaced by
/// a placeholder. The check of a script uses this, so that data are not decoded.
#[tactic(auto, unfolding(crate::specs::Line::line_at))]
pub fn checked_line<'a>(
    line: &[u8],
    bytes: &'a mut [u8],
    identifiers: &'a mut [u16],
) -> Option<Line<'a>>
    requires bytes_room { HasBytesRoom line.now bytes.old }
    requires identifiers_room { most_words line.now ≤ length identifiers.old }
    ensures line { option_map line_aside result ≡ option_map line_aside (line_at line.now) }
{
    if line.is_empty() {
        return Some(Line::Blank);
    }
    if is_comment_line(line) {
        return Some(Line::Blank);
    }
    let start = behind_separators(line);
    if start.is_empty() {
        return Some(Line::Blank);
    }
    let (keyword, behind) = keyword_in(start)?;
    checked_by(keyword, behind, bytes, identifiers)
}

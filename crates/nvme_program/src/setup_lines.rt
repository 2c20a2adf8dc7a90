//! The number of a configuration line in a text.

ghost use Rattle.std.specs.Prelude.{◌≡◌, ◌≤◌, length};
ghost use Rattle.script_text.specs.Lines.{text_lines};
ghost use Rattle.script_text.specs.Words.{most_words};
ghost use Rattle.nvme_grammar.specs.Line.{line_at};
ghost use Rattle.nvme_grammar.specs.Room.{HasBytesRoom, HasTextRoom, HasWordsRoom};
ghost use Rattle.nvme_program.specs.SetupLines as spec;

use nvme_grammar::{Line, parse_line};
use nvme_ns::SetupLine;
use script_text::front_line;

/// The number of lines of its kind before a line.
fn place_of(wanted: SetupLine) -> usize
    ensures { result ≡ spec.place_of wanted }
{
    match wanted {
        SetupLine::Controller(i) | SetupLine::Namespace(i) | SetupLine::Attached(i) => i,
    }
}

/// Whether a line of a text is of the kind of a line.
fn is_of_kind(wanted: SetupLine, raw: &[u8], bytes: &mut [u8], identifiers: &mut [u16]) -> bool
    requires bytes_room { HasBytesRoom raw.now bytes.old }
    requires identifiers_room { most_words raw.now ≤ length identifiers.old }
    ensures { result ≡ spec.is_of_kind wanted (line_at raw.now) }
{
    let Some(line) = parse_line(raw, bytes, identifiers) else {
        return false;
    };
    match wanted {
        SetupLine::Controller(_) => matches!(line, Line::Controller(_)),
        SetupLine::Namespace(_) => matches!(line, Line::Namespace(_)),
        SetupLine::Attached(_) => matches!(line, Line::Attached { .. }),
    }
}

/// The number of a line among all lines of a text, from 1, if it exists. The buffers must be long enough for any line.
pub fn number_in(
    wanted: SetupLine,
    text: &[u8],
    bytes: &mut [u8],
    identifiers: &mut [u16],
) -> Option<usize>
    requires bytes_room { HasTextRoom text.now bytes.old }
    requires identifiers_room { HasWordsRoom text.now identifiers.old }
    ensures { result ≡ spec.number_in wanted (text_lines text.now) }
{
    let mut left = place_of(wanted);
    let mut number: usize = 1;
    let mut rest = Some(text);
    while let Some(lines) = rest {
        let (line, behind) = front_line(lines);
        if is_of_kind(wanted, line, bytes, identifiers) {
            if left == 0 {
                return Some(number);
            }
            left -= 1;
        }
        number += 1;
        rest = behind;
    }
    None
}

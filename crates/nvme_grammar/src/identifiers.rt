//! Lines with a list of controllers, of any length, whose identifiers are put into a buffer.

ghost use Rattle.std.specs.Prelude.{◌≡◌, ◌≤◌, length, take, true, option_map, IfSome};
ghost use Rattle.script_text.specs.Words.{starts_apart, most_words};
ghost use Rattle.nvme_grammar.specs.Reader.{lists, sentence_behind};
ghost use Rattle.nvme_grammar.specs.Lent.{line_by_value, request_by_value};
ghost use Rattle.nvme_grammar.specs.Lists.{line_numbers};
ghost use Rattle.nvme_grammar.specs.Requests.{list_request};

use super::keyword::Keyword;
use super::line::Line;
use super::numbers::{named_in, numbers_in};
use arrayvec::ArrayVec;
use nvme_driver::Request;
use nvme_event::FleetEvent;
use script_text::{first_word, number_u16};

/// Puts the identifiers in the words of a line at the front of a buffer, and returns their number. `None` if a word is
/// not an identifier, or the line is not text.
fn identifiers_behind(line: &[u8], buffer: &mut [u16]) -> Option<usize>
    requires apart { starts_apart line.now ≡ true }
    requires room { most_words line.now ≤ length buffer.old }
    ensures list { option_map (λ count. take count buffer.new) result ≡ line_numbers line.now }
    ensures count { IfSome result (λ count. count ≤ length buffer.new) }
{
    let mut rest = line;
    let mut count = 0;
    while !rest.is_empty() {
        let first = first_word(rest)?;
        buffer[count] = number_u16(first.word)?;
        count += 1;
        rest = first.behind;
    }
    Some(count)
}

/// The request of a keyword with a list.
fn list_request_of<'a>(keyword: Keyword, nsid: u32, list: &'a [u16]) -> Option<Request<'a>>
    ensures { option_map request_by_value result ≡ list_request keyword nsid list.now }
{
    match keyword {
        Keyword::Attach => Some(Request::Attach { nsid, list }),
        Keyword::Detach => Some(Request::Detach { nsid, list }),
        _ => None,
    }
}

/// `attach C N C1 C2 ..`, or `detach`, whose list is put into a buffer.
pub fn list_line<'a>(keyword: Keyword, line: &[u8], identifiers: &'a mut [u16]) -> Option<Line<'a>>
    requires list { lists keyword ≡ true }
    requires apart { starts_apart line.now ≡ true }
    requires room { most_words line.now ≤ length identifiers.old }
    ensures { option_map line_by_value result ≡ sentence_behind keyword line.now }
{
    let mut numbers = ArrayVec::new();
    let rest = numbers_in(line, 2, &mut numbers);
    let (cntlid, nsid) = named_in(numbers.as_slice())?;
    let count = identifiers_behind(rest, identifiers)?;
    let request = list_request_of(keyword, nsid, &identifiers[..count])?;
    Some(Line::Event(FleetEvent::Place(cntlid, request)))
}

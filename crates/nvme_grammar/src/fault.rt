//! Why a line is refused, and the place in it.

ghost use Rattle.std.specs.Prelude.{
  ◌≡◌,
  ◌↔◌,
  ◌<◌,
  ◌≤◌,
  ◌-◌,
  true,
  false,
  length,
  option_map,
  None,
  Some,
  IfSome,
  IsNone,
};
ghost use Rattle.script_text.specs.Words.{line_words, is_line_text, starts_apart, from_word, most_words};
ghost use Rattle.nvme_grammar.specs.Line.{line_at};
ghost use Rattle.nvme_grammar.specs.Room.{HasBytesRoom};
ghost use Rattle.nvme_grammar.specs.LineFaults.{
  IsAllowed,
  fault_of,
  fault_by_value,
  foreign_fault,
  misfit,
  misplaced,
  keyword_fault,
  word_number,
};

use super::keyword::Keyword;
use super::line::is_comment_line;
use super::place::Place;
use script_text::{FirstWord, behind_separators, first_word, text_len};

/// Why a line is refused, and the place. Its text is the column, the word if it is a single one, and the reason.
#[derive(Clone, Copy)]
pub struct LineFault<'a> {
    /// The column in bytes, from 1: of the byte or the word at fault, or of the first word if it is the line as a
    /// whole.
    pub column: usize,
    /// The fault.
    pub why: Why<'a>,
}

/// Why a line is refused. Its text is a sentence.
#[derive(Clone, Copy)]
pub enum Why<'a> {
    /// This byte is neither a separator nor visible.
    Byte(u8),
    /// No line begins with this word; the keyword that it resembles, if there is one.
    Unknown {
        word: &'a [u8],
        nearest: Option<Keyword>,
    },
    /// The line does not have as many words as its keyword takes.
    Count(Keyword),
    /// The word with this number, from 1, does not fit its place.
    Misfit {
        number: usize,
        wanted: Place,
        word: &'a [u8],
    },
    /// An event before `start`.
    TooEarly(Keyword),
    /// A setup line, or a second `start`, after `start`.
    TooLate(Keyword),
}

impl Why<'_> {
    /// The number of the word at fault, from 1; also 1 if it is a byte, or the line as a whole.
    pub fn word(&self) -> usize
        ensures { result ≡ word_number self.now }
    {
        match self {
            Why::Misfit { number, .. } => *number,
            Why::Byte(_)
            | Why::Unknown { .. }
            | Why::Count(_)
            | Why::TooEarly(_)
            | Why::TooLate(_) => 1,
        }
    }
}

/// The first byte of a line that is neither a separator nor visible, if there is one.
pub fn foreign_byte(line: &[u8]) -> Option<LineFault<'_>>
    ensures none { IsNone result → is_line_text line.now ≡ true }
    ensures some { IfSome result
        (λ fault. (is_line_text line.now ≡ false) × (fault_by_value fault ≡ foreign_fault line.now)) }
{
    let len = text_len(line);
    if len == line.len() {
        return None;
    }
    Some(LineFault {
        column: len + 1,
        why: Why::Byte(line[len]),
    })
}

/// The number of words of a line that does not begin with a separator.
fn word_count(line: &[u8]) -> usize
    requires text { is_line_text line.now ≡ true }
    requires apart { starts_apart line.now ≡ true }
    ensures { result ≡ length (line_words line.now) }
{
    let mut rest = line;
    let mut count = 0;
    while !rest.is_empty() {
        let Some(first) = first_word(rest) else {
            return count;
        };
        rest = first.behind;
        count += 1;
    }
    count
}

/// The first word after the keyword that does not fit its place.
fn misfit_of<'a>(
    keyword: Keyword,
    line: &'a [u8],
    first: FirstWord<'a>,
    bytes: &mut [u8],
) -> Option<LineFault<'a>>
    requires text { is_line_text first.behind.now ≡ true }
    requires apart { starts_apart first.behind.now ≡ true }
    requires behind { first.behind.now ≡ from_word 1 line.now }
    requires bytes_room { HasBytesRoom line.now bytes.old }
    ensures { option_map fault_by_value result
        ≡ misfit keyword line.now 0 first.entry.word.now (line_words first.entry.behind.now) }
{
    let mut before = first.word;
    let mut rest = first.behind;
    let mut index = 0;
    while !rest.is_empty() {
        let next = first_word(rest)?;
        if let Some(wanted) = keyword.place(index) {
            if !wanted.suits(before, next.word, bytes) {
                return Some(LineFault {
                    column: line.len() - rest.len() + 1,
                    why: Why::Misfit {
                        number: index + 2,
                        wanted,
                        word: next.word,
                    },
                });
            }
        }
        before = next.word;
        rest = next.behind;
        index += 1;
    }
    None
}

/// Why a line that is allowed elsewhere is not allowed at its place.
fn misplaced_at<'a>(keyword: Keyword, column: usize, started: bool) -> Option<LineFault<'a>>
    ensures { option_map fault_by_value result ≡ misplaced started keyword column }
{
    let why = if keyword.sets_up() {
        if !started {
            return None;
        }
        Why::TooLate(keyword)
    } else {
        if started {
            return None;
        }
        Why::TooEarly(keyword)
    };
    Some(LineFault { column, why })
}

/// Why a line that begins with a keyword is refused.
fn keyword_fault_of<'a>(
    keyword: Keyword,
    line: &'a [u8],
    first: FirstWord<'a>,
    started: bool,
    bytes: &mut [u8],
) -> Option<LineFault<'a>>
    requires text { is_line_text first.behind.now ≡ true }
    requires apart { starts_apart first.behind.now ≡ true }
    requires behind { first.behind.now ≡ from_word 1 line.now }
    requires bytes_room { HasBytesRoom line.now bytes.old }
    ensures { option_map fault_by_value result
        ≡ keyword_fault started line.now first.entry.word.now (line_words first.entry.behind.now) (Some keyword) }
{
    let column = line.len() - behind_separators(line).len() + 1;
    if !keyword.takes(word_count(first.behind)) {
        return Some(LineFault {
            column,
            why: Why::Count(keyword),
        });
    }
    if let Some(fault) = misfit_of(keyword, line, first, bytes) {
        return Some(fault);
    }
    misplaced_at(keyword, column, started)
}

/// The fault of a line, if it has one.
#[tactic(auto, unfolding(crate::specs::LineFaults::fault_of))]
fn fault_of<'a>(line: &'a [u8], started: bool, bytes: &mut [u8]) -> Option<LineFault<'a>>
    requires bytes_room { HasBytesRoom line.now bytes.old }
    ensures { option_map fault_by_value result ≡ fault_of started line.now }
{
    if is_comment_line(line) {
        return None;
    }
    if let Some(fault) = foreign_byte(line) {
        return Some(fault);
    }
    let rest = behind_separators(line);
    if rest.is_empty() {
        return None;
    }
    let first = first_word(rest)?;
    let Some(keyword) = Keyword::of(first.word) else {
        return Some(LineFault {
            column: line.len() - rest.len() + 1,
            why: Why::Unknown {
                word: first.word,
                nearest: Keyword::nearest(first.word),
            },
        });
    };
    keyword_fault_of(keyword, line, first, started, bytes)
}

/// Why a line is refused, if it is: a byte that it may not have, its words from the left, or, if it is allowed
/// elsewhere, its place before or after `start`. The buffer is overwritten.
///
/// There is a fault exactly if `parse_line` returns `None`, or the line is not allowed at its place.
pub fn line_fault<'a>(line: &'a [u8], started: bool, bytes: &mut [u8]) -> Option<LineFault<'a>>
    requires bytes_room { HasBytesRoom line.now bytes.old }
    ensures fault { option_map fault_by_value result ≡ fault_of started line.now }
    ensures exact { IsNone result ↔ IsAllowed started line.now }
{
    fault_of(line, started, bytes)
}

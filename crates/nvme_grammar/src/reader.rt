//! Parses a line after its keyword: first numbers, then data or a list if the keyword has one.

ghost use Rattle.std.specs.Prelude.{◌≡◌, ◌<◌, ◌≤◌, ◌*◌, ◌∷◌, [], true, false, None, length, option_map, IfSome, IsNone};
ghost use Rattle.nvme_spec.specs.Limits.{most_bytes};
ghost use Rattle.script_text.specs.Words.{is_line_text, line_words, most_words, starts_apart};
ghost use Rattle.nvme_grammar.specs.Reader.{
  IsStoreLine,
  IsTransfer,
  is_numeric,
  is_one,
  is_other,
  sentence_behind,
  sentence_in,
};
ghost use Rattle.nvme_grammar.specs.Lent.{line_by_value};
ghost use Rattle.nvme_grammar.specs.Reading.{line_aside};
ghost use Rattle.nvme_grammar.specs.declared.keyword.Keyword.TheVariants.{
  Write as WriteWord,
  Compare as CompareWord,
  Store as StoreWord,
};

use super::configuration::{attached_in, setup_of};
use super::identifiers::list_line;
use super::keyword::Keyword;
use super::line::Line;
use super::numbers::{MOST_NUMBERS, address_in, event_in, numbers_in, range_in};
use arrayvec::ArrayVec;
use nvme_driver::Request;
use nvme_event::FleetEvent;
use script_text::{bytes_in, data_in, first_word, is_data};

/// A Write or a Compare, with the word for its data.
#[derive(Clone, Copy)]
struct Transfer<'a> {
    cntlid: u16,
    nsid: u32,
    slba: u64,
    blocks: u32,
    word: &'a [u8],
}

/// A store of a raw host, with the word for its bytes.
#[derive(Clone, Copy)]
struct StoreLine<'a> {
    cntlid: u16,
    address: u64,
    word: &'a [u8],
}

/// The only word of a line that does not begin with a separator.
#[inline(always)]
fn last_word(line: &[u8]) -> Option<&[u8]>
    requires apart { starts_apart line.now ≡ true }
    ensures text { IfSome result (λ _. is_line_text line.now ≡ true) }
    ensures words { IfSome result (λ word. line_words line.now ≡ word.now ∷ []) }
    ensures within { IfSome result (λ word. length word.now ≤ length line.now) }
    ensures none { IsNone result → is_line_text line.now ≡ true → is_one (line_words line.now) ≡ false }
{
    if line.is_empty() {
        return None;
    }
    let last = first_word(line)?;
    if last.behind.is_empty() {
        Some(last.word)
    } else {
        None
    }
}

/// `C N SLBA BLOCKS DATA`
#[inline(always)]
fn transfer_in(line: &[u8]) -> Option<Transfer<'_>>
    requires apart { starts_apart line.now ≡ true }
    ensures text { IfSome result (λ _. is_line_text line.now ≡ true) }
    ensures words { IfSome result (IsTransfer (line_words line.now)) }
    ensures within { IfSome result (λ transfer. length transfer.word.now ≤ length line.now) }
    ensures write { IsNone result → sentence_behind WriteWord line.now ≡ None }
    ensures compare { IsNone result → sentence_behind CompareWord line.now ≡ None }
{
    let mut numbers = ArrayVec::new();
    let rest = numbers_in(line, 4, &mut numbers);
    let (cntlid, nsid, slba, blocks) = range_in(numbers.as_slice())?;
    Some(Transfer {
        cntlid,
        nsid,
        slba,
        blocks,
        word: last_word(rest)?,
    })
}

/// `C ADDR hex:DIGITS`
#[inline(always)]
fn stored_in(line: &[u8]) -> Option<StoreLine<'_>>
    requires apart { starts_apart line.now ≡ true }
    ensures text { IfSome result (λ _. is_line_text line.now ≡ true) }
    ensures words { IfSome result (IsStoreLine (line_words line.now)) }
    ensures within { IfSome result (λ stored. length stored.word.now ≤ length line.now) }
    ensures none { IsNone result → sentence_behind StoreWord line.now ≡ None }
{
    let mut numbers = ArrayVec::new();
    let rest = numbers_in(line, 2, &mut numbers);
    let (cntlid, address) = address_in(numbers.as_slice())?;
    Some(StoreLine {
        cntlid,
        address,
        word: last_word(rest)?,
    })
}

/// A Write, whose data are put into a buffer.
fn write_line<'a>(line: &[u8], bytes: &'a mut [u8]) -> Option<Line<'a>>
    requires apart { starts_apart line.now ≡ true }
    requires data_room { most_bytes ≤ length bytes.old }
    requires digits_room { length line.now ≤ 2 * length bytes.old }
    ensures { option_map line_by_value result ≡ sentence_behind WriteWord line.now }
{
    let transfer = transfer_in(line)?;
    let bytes = data_in(transfer.word, transfer.blocks, bytes)?;
    let (nsid, slba) = (transfer.nsid, transfer.slba);
    let request = Request::Write { nsid, slba, bytes };
    Some(Line::Event(FleetEvent::Place(transfer.cntlid, request)))
}

/// A Compare, whose data are put into a buffer.
fn compare_line<'a>(line: &[u8], bytes: &'a mut [u8]) -> Option<Line<'a>>
    requires apart { starts_apart line.now ≡ true }
    requires data_room { most_bytes ≤ length bytes.old }
    requires digits_room { length line.now ≤ 2 * length bytes.old }
    ensures { option_map line_by_value result ≡ sentence_behind CompareWord line.now }
{
    let transfer = transfer_in(line)?;
    let bytes = data_in(transfer.word, transfer.blocks, bytes)?;
    let (nsid, slba) = (transfer.nsid, transfer.slba);
    let request = Request::Compare { nsid, slba, bytes };
    Some(Line::Event(FleetEvent::Place(transfer.cntlid, request)))
}

/// A store, whose bytes are put into a buffer.
fn store_line<'a>(line: &[u8], bytes: &'a mut [u8]) -> Option<Line<'a>>
    requires apart { starts_apart line.now ≡ true }
    requires digits_room { length line.now ≤ 2 * length bytes.old }
    ensures { option_map line_by_value result ≡ sentence_behind StoreWord line.now }
{
    let stored = stored_in(line)?;
    let bytes = bytes_in(stored.word, bytes)?;
    let event = FleetEvent::RawStore(stored.cntlid, stored.address, bytes);
    Some(Line::Event(event))
}

/// Checks a Write or a Compare that is parsed again later, and returns a placeholder. The bytes are overwritten, but
/// not filled.
#[inline(always)]
fn checked_transfer<'a>(line: &[u8], bytes: &mut [u8]) -> Option<Line<'a>>
    requires apart { starts_apart line.now ≡ true }
    requires digits_room { length line.now ≤ 2 * length bytes.old }
    ensures write { option_map line_aside result ≡ option_map line_aside (sentence_behind WriteWord line.now) }
    ensures compare { option_map line_aside result ≡ option_map line_aside (sentence_behind CompareWord line.now) }
{
    let transfer = transfer_in(line)?;
    if is_data(transfer.word, transfer.blocks, bytes) {
        Some(Line::Event(FleetEvent::PowerCycle))
    } else {
        None
    }
}

/// Like `checked_transfer`, for a store.
#[inline(always)]
fn checked_store<'a>(line: &[u8], bytes: &mut [u8]) -> Option<Line<'a>>
    requires apart { starts_apart line.now ≡ true }
    requires digits_room { length line.now ≤ 2 * length bytes.old }
    ensures { option_map line_aside result ≡ option_map line_aside (sentence_behind StoreWord line.now) }
{
    let stored = stored_in(line)?;
    bytes_in(stored.word, bytes)?;
    Some(Line::Event(FleetEvent::PowerCycle))
}

/// A line with a list, or one before `start`: these are few.
#[inline(never)]
fn other_line<'a>(keyword: Keyword, line: &[u8], identifiers: &'a mut [u16]) -> Option<Line<'a>>
    requires other { is_other keyword ≡ true }
    requires apart { starts_apart line.now ≡ true }
    requires room { most_words line.now ≤ length identifiers.old }
    ensures { option_map line_by_value result ≡ sentence_behind keyword line.now }
{
    match keyword {
        Keyword::Attach | Keyword::Detach => list_line(keyword, line, identifiers),
        Keyword::Attached => attached_in(line),
        _ => setup_of(keyword, line),
    }
}

/// The event of a keyword that has only numbers after it.
#[inline(always)]
fn event_of(keyword: Keyword, line: &[u8]) -> Option<Line<'static>>
    requires apart { starts_apart line.now ≡ true }
    requires numeric { is_numeric keyword ≡ true }
    ensures { option_map line_by_value result ≡ sentence_behind keyword line.now }
{
    let mut numbers = ArrayVec::new();
    let rest = numbers_in(line, MOST_NUMBERS, &mut numbers);
    if !rest.is_empty() {
        return None;
    }
    Some(Line::Event(event_in(keyword, numbers.as_slice())?))
}

/// Parses a line after its keyword, and puts its data or list into a buffer. `None` if it is outside the grammar.
#[inline(always)]
pub fn line_by<'a>(
    keyword: Keyword,
    line: &[u8],
    bytes: &'a mut [u8],
    identifiers: &'a mut [u16],
) -> Option<Line<'a>>
    requires apart { starts_apart line.now ≡ true }
    requires data_room { most_bytes ≤ length bytes.old }
    requires digits_room { length line.now ≤ 2 * length bytes.old }
    requires list_room { most_words line.now ≤ length identifiers.old }
    ensures { option_map line_by_value result ≡ sentence_behind keyword line.now }
{
    match keyword {
        Keyword::Write => write_line(line, bytes),
        Keyword::Compare => compare_line(line, bytes),
        Keyword::Store => store_line(line, bytes),
        Keyword::Attach | Keyword::Detach => other_line(keyword, line, identifiers),
        Keyword::Controller | Keyword::Namespace | Keyword::Attached | Keyword::Start => {
            other_line(keyword, line, identifiers)
        }
        _ => event_of(keyword, line),
    }
}

/// Parses a line like `line_by`, with a placeholder for an event that is parsed again later. The bytes are overwritten,
/// but not filled.
#[inline(always)]
pub fn checked_by<'a>(
    keyword: Keyword,
    line: &[u8],
    bytes: &mut [u8],
    identifiers: &'a mut [u16],
) -> Option<Line<'a>>
    requires apart { starts_apart line.now ≡ true }
    requires digits_room { length line.now ≤ 2 * length bytes.old }
    requires list_room { most_words line.now ≤ length identifiers.old }
    ensures { option_map line_aside result ≡ option_map line_aside (sentence_behind keyword line.now) }
{
    match keyword {
        Keyword::Write | Keyword::Compare => checked_transfer(line, bytes),
        Keyword::Store => checked_store(line, bytes),
        Keyword::Attach | Keyword::Detach => other_line(keyword, line, identifiers),
        Keyword::Controller | Keyword::Namespace | Keyword::Attached | Keyword::Start => {
            other_line(keyword, line, identifiers)
        }
        _ => event_of(keyword, line),
    }
}

/// The keyword of a line that does not begin with a separator, and the rest of the line.
#[inline(always)]
pub fn keyword_in(line: &[u8]) -> Option<(Keyword, &[u8])>
    requires apart { starts_apart line.now ≡ true }
    requires some { 0 < length line.now }
    ensures sentence { IfSome result (λ front. sentence_behind front.0 front.1.now ≡ sentence_in line.now) }
    ensures apart { IfSome result (λ front. starts_apart front.1.now ≡ true) }
    ensures within { IfSome result (λ front. length front.1.now ≤ length line.now) }
    ensures room { IfSome result (λ front. most_words front.1.now ≤ most_words line.now) }
    ensures none { IsNone result → sentence_in line.now ≡ None }
{
    let first = first_word(line)?;
    Some((Keyword::first_of(first.word)?, first.behind))
}

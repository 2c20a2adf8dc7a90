//! Assembles the most frequent lines without a formatter, which takes several times as long.

ghost use Rattle.std.specs.Prelude.{◌≡◌, ◌+◌, ◌<◌, ◌≤◌, ◌++◌, ◌∷◌, [], false, length, codes, decimal, IsTrue, IfSome};
ghost use Rattle.std.specs.Fmt.{digit_glyph};
ghost use Rattle.arrayvec.specs.ArrayString.{array_string_len};
ghost use Rattle.nvme_wire.specs.StatusNames.{status_text};
ghost use Rattle.nvme_machine.specs.Bare.{executed_of};
ghost use Rattle.nvme_event.specs.Bare.{seen_of};
ghost use Rattle.nvme_transcript.specs.Putting.{Puts};
ghost use Rattle.nvme_transcript.specs.Transcript.{
  answer_text,
  event_text,
  executed_text,
  fetched_text,
  polled_text,
  subject_text,
};

use crate::line::TranscriptLine;
use arrayvec::ArrayString;
use itoa::Buffer;
use nvme_driver::{Answer, PollFault};
use nvme_event::{BareFleetSeen, FleetEvent};
use nvme_machine::{BareExecuted, Fetched};
use nvme_wire::Status;

/// The most bytes of a frequent line, rounded up.
const ROOM: usize = 96;

/// A line, or its front.
pub type Short = ArrayString<ROOM>;

/// Which part of a line was assembled.
#[derive(Clone, Copy, Debug, PartialEq, Eq)]
pub enum Put {
    /// All of it.
    All,
    /// The line without its data.
    AllButData,
    /// Nothing useful.
    Nothing,
}

/// The digit of a number below 10. `None` for any other number.
#[inline(always)]
#[tactic(auto, using(std::proofs::lemmas::Fmt::decimal_digit))]
fn digit_of(number: u64) -> Option<&'static str>
    ensures digit { IfSome result (λ digit. digit.now ≡ decimal number) }
    ensures one { IfSome result (λ digit. length digit.now ≡ 1) }
{
    match number {
        0 => Some("0"),
        1 => Some("1"),
        2 => Some("2"),
        3 => Some("3"),
        4 => Some("4"),
        5 => Some("5"),
        6 => Some("6"),
        7 => Some("7"),
        8 => Some("8"),
        9 => Some("9"),
        _ => None,
    }
}

/// Appends a number of at most 16 bits.
#[inline(always)]
fn put_u16(text: &mut Short, number: u16)
    requires room { array_string_len text.old + 5 ≤ 96 }
    ensures bytes { text.new.bytes ≡ text.old.bytes ++ decimal number }
    ensures short { array_string_len text.new ≤ array_string_len text.old + 5 }
{
    if let Some(digit) = digit_of(u64::from(number)) {
        text.push_str(digit);
        return;
    }
    let mut buffer = Buffer::new();
    text.push_str(buffer.format(number));
}

/// Appends a number of at most 64 bits.
#[inline(always)]
fn put_u64(text: &mut Short, number: u64)
    requires room { array_string_len text.old + 20 ≤ 96 }
    ensures bytes { text.new.bytes ≡ text.old.bytes ++ decimal number }
    ensures short { array_string_len text.new ≤ array_string_len text.old + 20 }
{
    if let Some(digit) = digit_of(number) {
        text.push_str(digit);
        return;
    }
    let mut buffer = Buffer::new();
    text.push_str(buffer.format(number));
}

/// Appends the controller of an event, with the queue of a fetch or the place of an execution.
#[inline(always)]
fn put_subject(text: &mut Short, event: &FleetEvent<'_>)
    requires room { array_string_len text.old + 26 ≤ 96 }
    ensures bytes { text.new.bytes ≡ text.old.bytes ++ subject_text event.now }
    ensures short { array_string_len text.new ≤ array_string_len text.old + 26 }
{
    put_u16(text, event.cntlid());
    match event {
        FleetEvent::Fetch(_, qid) => {
            text.push_str(" ");
            put_u16(text, *qid);
        }
        FleetEvent::Execute(_, i) => {
            text.push_str(" ");
            put_u64(text, *i as u64);
        }
        _ => {}
    }
}

/// The hexadecimal digit of a number below 16.
#[inline(always)]
fn hex_digit(number: u8) -> &'static str
    requires { number < 16 }
    ensures digit { result.now ≡ digit_glyph false number ∷ [] }
{
    match number {
        0 => "0",
        1 => "1",
        2 => "2",
        3 => "3",
        4 => "4",
        5 => "5",
        6 => "6",
        7 => "7",
        8 => "8",
        9 => "9",
        10 => "a",
        11 => "b",
        12 => "c",
        13 => "d",
        14 => "e",
        _ => "f",
    }
}

/// Whether a status is Successful Completion, as most are.
#[inline(always)]
fn is_success(status: Status) -> bool
    ensures { IsTrue result → status_text status ≡ codes "0:00" }
{
    status.sct == 0 && status.sc == 0
}

/// Appends a status in hexadecimal and returns true. If the status code type has two digits, appends nothing and
/// returns false.
fn put_digits(text: &mut Short, status: Status) -> bool
    requires room { array_string_len text.old + 4 ≤ 96 }
    ensures bytes { IsTrue result → text.new.bytes ≡ text.old.bytes ++ status_text status }
    ensures short { array_string_len text.new ≤ array_string_len text.old + 4 }
{
    if status.sct >= 16 {
        return false;
    }
    text.push_str(hex_digit(status.sct));
    text.push_str(":");
    text.push_str(hex_digit(status.sc / 16));
    text.push_str(hex_digit(status.sc % 16));
    true
}

/// Appends a status and returns true. If the status code type has two digits, appends nothing and returns false.
#[inline(always)]
fn put_status(text: &mut Short, status: Status) -> bool
    requires room { array_string_len text.old + 4 ≤ 96 }
    ensures bytes { IsTrue result → text.new.bytes ≡ text.old.bytes ++ status_text status }
    ensures short { array_string_len text.new ≤ array_string_len text.old + 4 }
{
    if !is_success(status) {
        return put_digits(text, status);
    }
    text.push_str("0:00");
    true
}

/// Appends the result of an execution.
#[inline(always)]
fn put_executed(text: &mut Short, executed: &BareExecuted) -> bool
    requires room { array_string_len text.old + 20 ≤ 96 }
    ensures bytes { IsTrue result → text.new.bytes ≡ text.old.bytes ++ executed_text (executed_of executed.now) }
    ensures short { array_string_len text.new ≤ array_string_len text.old + 20 }
{
    match executed {
        BareExecuted::Posted(outcome) => {
            text.push_str("posted ");
            if !put_status(text, outcome.status) {
                return false;
            }
            text.push_str(" ");
            put_u16(text, u16::from(outcome.rule));
        }
        BareExecuted::NoSuch => text.push_str("none"),
        BareExecuted::CqFull => text.push_str("full"),
    }
    true
}

/// Appends an answer that is delivered, without its data.
#[inline(always)]
fn put_answer(text: &mut Short, answer: &Answer, bytes: &[u8]) -> Put
    requires room { array_string_len text.old + 40 ≤ 96 }
    ensures bytes { Puts result bytes.now text.new.bytes (text.old.bytes ++ answer_text answer.now bytes.now) }
    ensures short { array_string_len text.new ≤ array_string_len text.old + 40 }
{
    let Answer::Done {
        ticket,
        status,
        dw0: 0,
        ..
    } = answer
    else {
        return Put::Nothing;
    };
    put_u64(text, ticket.0);
    text.push_str(" ");
    if !put_status(text, *status) {
        return Put::Nothing;
    }
    text.push_str(" 00000000");
    if bytes.is_empty() {
        Put::All
    } else {
        Put::AllButData
    }
}

/// Appends the result of a poll, without its data.
#[inline(always)]
fn put_polled(text: &mut Short, polled: &Result<Option<Answer>, PollFault>, bytes: &[u8]) -> Put
    requires room { array_string_len text.old + 40 ≤ 96 }
    ensures bytes { Puts result bytes.now text.new.bytes (text.old.bytes ++ polled_text polled.now bytes.now) }
    ensures short { array_string_len text.new ≤ array_string_len text.old + 40 }
{
    match polled {
        Ok(None) => {
            text.push_str("nothing");
            Put::All
        }
        Ok(Some(answer)) => put_answer(text, answer, bytes),
        Err(_) => Put::Nothing,
    }
}

/// Appends a word, which ends with a space, and a controller's identifier.
#[inline(always)]
fn put_named(text: &mut Short, word: &str, cntlid: u16)
    requires room { array_string_len text.old + length word.now + 5 ≤ 96 }
    ensures bytes { text.new.bytes ≡ text.old.bytes ++ word.now ++ decimal cntlid }
    ensures short { array_string_len text.new ≤ array_string_len text.old + length word.now + 5 }
{
    text.push_str(word);
    put_u16(text, cntlid);
}

/// Assembles a line without its data, if it is one of the most frequent lines of a script. Returns which part of it was
/// assembled.
#[inline(always)]
pub fn put_line(text: &mut Short, line: &TranscriptLine<'_>) -> Put
    requires empty { text.old.bytes ≡ [] }
    ensures bytes { Puts result line.now.bytes.now text.new.bytes
        (event_text line.now.event (seen_of line.now.seen.now) line.now.bytes.now) }
    ensures short { array_string_len text.new ≤ 95 }
{
    let cntlid = line.event.cntlid();
    match line.seen {
        BareFleetSeen::Placed(Ok(ticket)) => {
            put_named(text, "placed ", cntlid);
            text.push_str(" ");
            put_u64(text, ticket.0);
        }
        BareFleetSeen::Rung(Ok(())) => put_named(text, "rung ", cntlid),
        BareFleetSeen::Fetched(fetched) => {
            text.push_str("fetch ");
            put_subject(text, &line.event);
            text.push_str(match fetched {
                Fetched::Took => " took",
                Fetched::Idle => " idle",
            });
        }
        BareFleetSeen::Executed(executed) => {
            text.push_str("execute ");
            put_subject(text, &line.event);
            text.push_str(" ");
            if !put_executed(text, executed) {
                return Put::Nothing;
            }
        }
        BareFleetSeen::Polled(polled) => {
            put_named(text, "poll ", cntlid);
            text.push_str(" ");
            return put_polled(text, polled, line.bytes);
        }
        BareFleetSeen::Up(Ok(())) => {
            put_named(text, "up ", cntlid);
            text.push_str(" ok");
        }
        BareFleetSeen::Reset => put_named(text, "reset ", cntlid),
        BareFleetSeen::Stored => put_named(text, "stored ", cntlid),
        BareFleetSeen::Wrote => put_named(text, "wrote32 ", cntlid),
        _ => return Put::Nothing,
    }
    Put::All
}

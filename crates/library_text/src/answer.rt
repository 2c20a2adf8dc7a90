//! The lines for results of events.

ghost use Rattle.std.specs.Prelude.{◌≡◌, ◌<◌, [], true};
ghost use Rattle.nvme_event.specs.Bare.{seen_of};
ghost use Rattle.nvme_transcript.specs.Transcript.{seen_line};
ghost use Rattle.library_text.specs.Putting.{Puts};
ghost use Rattle.library_text.specs.AnswerLines.{AreBytes, answer_line, is_short, second_of};
ghost use Rattle.library_text.specs.EventLines.{PutsLine};

use crate::putting::{Unput, put_short};
use nvme_event::{BareFleetSeen, FleetEvent};
use nvme_machine::BareExecuted;
use nvme_transcript::TranscriptLine;

/// Writes the transcript line of an event's result, and a line feed, at the front of a buffer. Returns their length, or
/// an error if they do not fit. `None` for a result that only a driver's events have.
pub fn put_answer(
    event: &FleetEvent<'_>,
    seen: &BareFleetSeen,
    line: &mut [u8],
) -> Option<Result<usize, Unput>>
    ensures { PutsLine (answer_line event.now seen.now) result line.old line.new }
{
    match seen {
        BareFleetSeen::Up(_)
        | BareFleetSeen::Placed(_)
        | BareFleetSeen::Rung(_)
        | BareFleetSeen::Polled(_)
        | BareFleetSeen::Reset
        | BareFleetSeen::NoDriver
        | BareFleetSeen::NotRaw => None,
        _ => Some(put_told(event, seen, line)),
    }
}

/// The number after the controller's in an event's line: a queue, or the place of a fetched command.
fn second_of(event: &FleetEvent<'_>) -> u64
    ensures { result ≡ second_of event.now }
{
    match event {
        FleetEvent::Fetch(_, qid) => u64::from(*qid),
        FleetEvent::Execute(_, i) => *i as u64,
        _ => 0,
    }
}

/// A byte is below 256.
fn is_byte(byte: u8)
    ensures { byte < 256 }
{}

/// The numbers of a completion that was posted are bytes.
fn read_posted(seen: &BareFleetSeen)
    ensures { AreBytes seen.now }
{
    if let BareFleetSeen::Executed(BareExecuted::Posted(outcome)) = seen {
        is_byte(outcome.status.sct);
        is_byte(outcome.status.sc);
        is_byte(outcome.rule);
    }
}

/// Puts such a line. It is short since its numbers fit their types.
fn put_told(event: &FleetEvent<'_>, seen: &BareFleetSeen, line: &mut [u8]) -> Result<usize, Unput>
    requires { is_short seen.now ≡ true }
    ensures { Puts (seen_line event.now (seen_of seen.now) []) result line.old line.new }
{
    let _controller = event.cntlid();
    let _second = second_of(event);
    read_posted(seen);
    let told = TranscriptLine {
        event: *event,
        seen,
        bytes: &[],
    };
    put_short(&told, "\n", line)
}

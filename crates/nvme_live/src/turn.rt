//! One line of a session after its fleet is opened.

ghost use Rattle.std.specs.Prelude.{◌≡◌, length};
ghost use Rattle.live_text.specs.Faults.{refusal, why_by_value};
ghost use Rattle.nvme_grammar.specs.Lent.{event_by_value};
ghost use Rattle.nvme_fleet.specs.FleetStates.{layers_of};
ghost use Rattle.live_text.specs.Asking.{asked_by_value};
ghost use Rattle.nvme_subsys.specs.OverMedium.{over};
ghost use Rattle.nvme_live.specs.Answers.{Answered, block_of};
ghost use Rattle.nvme_live.specs.AnswerCalls.{AnswersLineBy, HappensBy, ShowsBlocksBy, ShowsBy};
ghost use Rattle.nvme_live.specs.Saying.{LacksRoom, with_feed};
ghost use Rattle.nvme_live.specs.Standings.{MayLackRoom, Running};
ghost use Rattle.nvme_live.specs.Streams.{Says, SendsBy};

use crate::saying::{say, send};
use crate::showing::shown_of;
use live_text::{Asked, Looking, Refusal, Why};
use live_views::blocks_shown;
use nvme_fleet::{Fleet, FleetEvent};
use nvme_lines::Reading;
use nvme_medium::Medium;
use nvme_program::ScriptFault;
use nvme_spec::Marks;
use nvme_transcript::TranscriptLine;
use script_text::{FlushedSink, Text};

/// Answers a line that is refused.
#[tactic(auto, using(live_text::proofs::ByValue::refusal_by_value))]
pub fn refuse<W: FlushedSink>(
    number: u64,
    why: Why<'_>,
    text: &mut Text,
    writer: &mut W,
) -> Result<(), ScriptFault>
    ensures { Says (SendsBy W.step W.flushes W.contents) LacksRoom result
        (with_feed (refusal number (why_by_value why.entry))) writer.old writer.new }
{
    say(writer, text, &Refusal { number, why })
}

/// Applies an event, and sends its answer.
fn apply<W: FlushedSink, M: Medium>(
    event: FleetEvent<'_>,
    fleet: &mut Fleet<M>,
    text: &mut Text,
    writer: &mut W,
) -> Result<(), ScriptFault>
    ensures { Answered (SendsBy W.step W.flushes W.contents) LacksRoom result (λ answer.
        HappensBy M.step M.tells (over (layers_of fleet.old.state) fleet.old.medium) (event_by_value event.entry) answer
        (over (layers_of fleet.new.state) fleet.new.medium)) writer.old writer.new }
{
    let mut marks = Marks::none();
    let seen = fleet.apply_into(event, &mut marks);
    let data = fleet.data();
    let shown = TranscriptLine {
        event,
        seen: &seen,
        bytes: data,
    };
    say(writer, text, &shown)
}

/// Answers a query of blocks of a namespace.
fn look_at_blocks<W: FlushedSink, M: Medium>(
    number: u64,
    range: (u32, u64, u32),
    fleet: &mut Fleet<M>,
    blocks: &mut [u8],
    text: &mut Text,
    writer: &mut W,
) -> Result<(), ScriptFault>
    requires { length blocks.old ≡ 2097153 }
    ensures { Answered (SendsBy W.step W.flushes W.contents) LacksRoom result (λ answer.
        ShowsBlocksBy M.step (block_of range.0 range.1 range.2 (layers_of fleet.old.state)) M.tells number range.0
        range.1 range.2 (over (layers_of fleet.old.state) fleet.old.medium) answer
        (over (layers_of fleet.new.state) fleet.new.medium)) writer.old writer.new }
{
    let (nsid, slba, count) = range;
    if count == 0 || count > 256 {
        return refuse(number, Why::OutsideNamespace, text, writer);
    }
    let bytes = &mut blocks[..512 * count as usize];
    let looked = fleet.read_blocks(nsid, slba, bytes);
    say(writer, text, &blocks_shown(number, range, looked, bytes))
}

/// Answers a query.
fn look<W: FlushedSink, M: Medium>(
    number: u64,
    looking: Looking,
    fleet: &mut Fleet<M>,
    blocks: &mut [u8],
    text: &mut Text,
    writer: &mut W,
) -> Result<(), ScriptFault>
    requires { length blocks.old ≡ 2097153 }
    ensures { Answered (SendsBy W.step W.flushes W.contents) LacksRoom result
        (λ answer. ShowsBy M.step M.tells number looking
        (over (layers_of fleet.old.state) fleet.old.medium) answer (over (layers_of fleet.new.state) fleet.new.medium))
        writer.old writer.new }
{
    match looking {
        Looking::Blocks { nsid, slba, count } => {
            look_at_blocks(number, (nsid, slba, count), fleet, blocks, text, writer)
        }
        _ => say(writer, text, &shown_of(number, looking, fleet)),
    }
}

/// Answers a line after the fleet is opened.
pub fn answer<W: FlushedSink, M: Medium>(
    number: u64,
    asked: Asked<'_>,
    fleet: &mut Fleet<M>,
    blocks: &mut [u8],
    text: &mut Text,
    writer: &mut W,
) -> Result<(), ScriptFault>
    requires { length blocks.old ≡ 2097153 }
    ensures { Answered (SendsBy W.step W.flushes W.contents)
        (MayLackRoom (Running (layers_of fleet.old.state)) (asked_by_value asked.entry)) result (λ answer.
        AnswersLineBy M.step M.tells number (asked_by_value asked.entry)
        (over (layers_of fleet.old.state) fleet.old.medium) answer (over (layers_of fleet.new.state) fleet.new.medium))
        writer.old writer.new }
{
    match asked {
        Asked::Fails(why) => refuse(number, why, text, writer),
        Asked::Nothing => send(writer, b"ok\n"),
        Asked::Looks(looking) => look(number, looking, fleet, blocks, text, writer),
        Asked::Parses(line) => say(writer, text, &Reading(line)),
        Asked::Sets(_) => refuse(number, Why::BeforeStart, text, writer),
        Asked::Does(event) => apply(event, fleet, text, writer),
    }
}

//! Answers the lines of a session in order: before `start`, and after it.

ghost use Rattle.std.specs.Prelude.{◌≡◌, ◌<◌, ℕ, IfErr, IfOk, length};
ghost use Rattle.nvme_spec.specs.Blocks.{Device};
ghost use Rattle.nvme_spec.specs.Configuration.{Capacity};
ghost use Rattle.nvme_live.specs.SetUps.{HasSetUpRoom, set_up_of};
ghost use Rattle.nvme_fleet.specs.FleetStates.{layers_of};
ghost use Rattle.nvme_subsys.specs.OverMedium.{over};
ghost use Rattle.nvme_live.specs.AnswerCalls.{TurnOver};
ghost use Rattle.nvme_live.specs.Conversations.{Ends, EndsBy, SetsUp, standing_over};
ghost use Rattle.nvme_live.specs.Lives.{Rests};
ghost use Rattle.nvme_live.specs.Standings.{Running};
ghost use Rattle.nvme_live.specs.Streams.{ReadsBy, SendsBy};

use crate::line_numbers::LineNumbers;
use crate::rooms::Rooms;
use crate::setting::{Settled, settle};
use crate::streams::LineSource;
use crate::turn::answer;
use live_text::asked_of;
use nvme_fleet::Fleet;
use nvme_medium::Medium;
use nvme_program::ScriptFault;
use nvme_spec::Config;
use script_text::{FlushedSink, Text};

/// Answers the lines before the fleet is opened, up to `start`, whose number it returns; `None` at the end of the
/// input.
pub fn set_up<R: LineSource, W: FlushedSink>(
    config: &mut Config,
    numbers: &mut LineNumbers,
    line: &mut Vec<u8>,
    bytes: &mut [u8],
    identifiers: &mut [u16],
    blocks: &mut [u8],
    text: &mut Text,
    reader: &mut R,
    writer: &mut W,
) -> Result<Option<u64>, ScriptFault>
    requires bytes_room { length bytes.old ≡ 2097153 }
    requires identifiers_room { length identifiers.old ≡ 2097153 }
    requires blocks_room { length blocks.old ≡ 2097153 }
    requires room { HasSetUpRoom config.old numbers.old }
    ensures { SetsUp (ReadsBy R.step R.remaining) (SendsBy W.step W.flushes W.contents) result
        (set_up_of config.old numbers.old) (set_up_of config.new numbers.new) reader.old reader.new
        writer.old writer.new }
{
    for number in 1..u64::MAX {
        match reader.take_line(line) {
            Ok(true) => {}
            Ok(false) => return Ok(None),
            Err(_) => return Err(ScriptFault::Read),
        }
        let asked = asked_of(line.as_slice(), bytes, identifiers, blocks);
        match settle(number, asked, config, numbers, text, writer) {
            Ok(Settled::Answered) => {}
            Ok(Settled::Started) => return Ok(Some(number)),
            Err(fault) => return Err(fault),
        }
    }
    Err(ScriptFault::Read)
}

/// Answers the lines after the fleet is opened, up to the end of the input.
fn converse<R: LineSource, W: FlushedSink, M: Medium>(
    first: u64,
    fleet: &mut Fleet<M>,
    line: &mut Vec<u8>,
    bytes: &mut [u8],
    identifiers: &mut [u16],
    blocks: &mut [u8],
    text: &mut Text,
    reader: &mut R,
    writer: &mut W,
) -> Result<(), ScriptFault>
    requires bytes_room { length bytes.old ≡ 2097153 }
    requires identifiers_room { length identifiers.old ≡ 2097153 }
    requires blocks_room { length blocks.old ≡ 2097153 }
    ensures ok { IfOk result (λ _. (size : Capacity) (d : Device)
        → Ends (TurnOver M.step M.tells size d) (ReadsBy R.step R.remaining) (SendsBy W.step W.flushes W.contents) first
        (over (Running (layers_of fleet.old.state)) fleet.old.medium)
        (over (Running (layers_of fleet.new.state)) fleet.new.medium) reader.old reader.new writer.old writer.new) }
    ensures fault { IfErr result (λ e. (size : Capacity) (d : Device)
        → EndsBy e (TurnOver M.step M.tells size d) (ReadsBy R.step R.remaining) (SendsBy W.step W.flushes W.contents)
        standing_over first (over (Running (layers_of fleet.old.state)) fleet.old.medium)
        (over (Running (layers_of fleet.new.state)) fleet.new.medium) reader.old reader.new writer.old writer.new) }
{
    for number in first..u64::MAX {
        match reader.take_line(line) {
            Ok(true) => {}
            Ok(false) => return Ok(()),
            Err(_) => return Err(ScriptFault::Read),
        }
        let asked = asked_of(line.as_slice(), bytes, identifiers, blocks);
        match answer(number, asked, fleet, blocks, text, writer) {
            Ok(()) => {}
            Err(unsaid) => return Err(unsaid),
        }
    }
    Err(ScriptFault::Read)
}

/// Answers the lines after the fleet is opened, and returns the medium.
pub fn run_on<R: LineSource, W: FlushedSink, M: Medium>(
    first: u64,
    mut fleet: Fleet<M>,
    rooms: &mut Rooms,
    reader: &mut R,
    writer: &mut W,
) -> Result<M, (ScriptFault, M)>
    requires bytes_room { length rooms.old.bytes.items ≡ 2097153 }
    requires identifiers_room { length rooms.old.identifiers.items ≡ 2097153 }
    requires blocks_room { length rooms.old.blocks.items ≡ 2097153 }
    ensures ok { IfOk result (λ after. (size : Capacity) (d : Device)
        → Rests M.device (λ last. Ends (TurnOver M.step M.tells size d) (ReadsBy R.step R.remaining)
        (SendsBy W.step W.flushes W.contents) first (over (Running (layers_of fleet.state)) fleet.medium) last
        reader.old reader.new writer.old writer.new) d after) }
    ensures fault { IfErr result (λ e. (size : Capacity) (d : Device)
        → Rests M.device (λ last. EndsBy e.0 (TurnOver M.step M.tells size d) (ReadsBy R.step R.remaining)
        (SendsBy W.step W.flushes W.contents) standing_over first (over (Running (layers_of fleet.state)) fleet.medium)
        last reader.old reader.new writer.old writer.new) d e.1) }
{
    let ran = converse(
        first,
        &mut fleet,
        &mut rooms.line,
        &mut rooms.bytes,
        &mut rooms.identifiers,
        &mut rooms.blocks,
        &mut rooms.text,
        reader,
        writer,
    );
    match ran {
        Ok(()) => Ok(fleet.into_medium()),
        Err(fault) => Err((fault, fleet.into_medium())),
    }
}

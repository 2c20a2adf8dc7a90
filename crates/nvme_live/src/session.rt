//! A session, from its first script to its end.

ghost use Rattle.std.specs.Prelude.{
  ◌≡◌,
  ◌<◌,
  ◌-◌,
  ◌^◌,
  ℕ,
  List,
  Option,
  IfErr,
  IfOk,
  None,
  Ok,
  OnErr,
  OnOk,
  Some,
  length,
};
ghost use Rattle.script_text.specs.Pages.{Adds};
ghost use Rattle.script_text.specs.Reading.{IsRead};
ghost use Rattle.nvme_spec.specs.Configuration.{capacity, config_fault, script_capacity};
ghost use Rattle.nvme_ns.specs.Configured.{configuration};
ghost use Rattle.nvme_fleet.specs.FleetStates.{layers_of, opening_layers};
ghost use Rattle.nvme_script.specs.Faults.{IsReady, IsScript, events_in};
ghost use Rattle.nvme_program.specs.FaultKinds.{of_opening};
ghost use Rattle.nvme_script.specs.ScriptCalls.{RanCalling};
ghost use Rattle.nvme_script.specs.ScriptWrites.{StopsAtBy, TranscribesBy};
ghost use Rattle.nvme_subsys.specs.OverMedium.{over};
ghost use Rattle.nvme_live.specs.AnswerCalls.{TurnOver};
ghost use Rattle.nvme_live.specs.Conversations.{Ends, EndsBy, FromStart, standing_over};
ghost use Rattle.nvme_live.specs.Lives.{
  Fails,
  FailsBehindReading,
  FailsFirst,
  LivesOn,
  Rests,
  RunsTo,
  StartFails,
  StartRefused,
  surroundings,
};
ghost use Rattle.nvme_live.specs.Saying.{with_feed};
ghost use Rattle.nvme_live.specs.SetUps.{HasSetUpRoom, set_up_of};
ghost use Rattle.nvme_live.specs.Standings.{Setting, reason_text, refused_text, started_text};
ghost use Rattle.script_text.specs.Writing.{Sent};
ghost use Rattle.nvme_live.specs.Streams.{ReadsBy, SendsBy};

use crate::conversation::{run_on, set_up};
use crate::line_numbers::{LineNumbers, make_room, numbered_reason};
use crate::opening::{Opening, prepare};
use crate::rooms::Rooms;
use crate::saying::{say, send};
use crate::streams::LineSource;
use nvme_fleet::{Fleet, NewFault};
use nvme_medium::Medium;
use nvme_ns::{BrokenRule, MAX_BLOCKS};
use nvme_program::{ScriptFault, config_fault_name, sentence_of};
use nvme_script::run_events;
use nvme_spec::{Config, ConfigFault};
use script_text::{FlushedSink, NoRoom, Page, Source, Spell, Text, put_both, put_labelled};
use std::alloc::Global;
use std::io;

/// The answer to the `start` with this number if the configuration is refused: the fault, with the number of the line
/// at fault and the rule that it breaks.
#[derive(Clone, Copy)]
struct RefusedText {
    number: u64,
    fault: ConfigFault,
    reason: Option<(u64, BrokenRule)>,
}

impl Spell for RefusedText {
    ghost spelled = { λ r. refused_text r.number r.fault r.reason };

    fn spell<P: Page>(&self, page: &mut P) -> Result<(), NoRoom> {
        put_labelled(page, "refused line ", self.number)?;
        put_both(page, ": ", config_fault_name(self.fault))?;
        put_reason(page, self.reason)
    }
}

/// Writes the number of the line at fault, and the rule that it breaks.
fn put_reason<P: Page>(page: &mut P, reason: Option<(u64, BrokenRule)>) -> Result<(), NoRoom>
    ensures { Adds P.room result (P.written page.old) (reason_text reason) (P.written page.new) }
{
    let Some((line, rule)) = reason else {
        return page.put_str("");
    };
    put_labelled(page, "; line ", line)?;
    page.put_str(": ")?;
    sentence_of(rule).spell(page)
}

/// Answers a `start` whose fleet was refused for this reason; not if it was `NoMemory`.
fn refuse_start<W: FlushedSink>(
    number: u64,
    fault: ConfigFault,
    reason: Option<(u64, BrokenRule)>,
    text: &mut Text,
    writer: &mut W,
) -> ScriptFault
    ensures { StartRefused (SendsBy W.step W.flushes W.contents) result number fault reason writer.old writer.new }
{
    match fault {
        ConfigFault::NoMemory => ScriptFault::NoMemory,
        _ => match say(
            writer,
            text,
            &RefusedText {
                number,
                fault,
                reason,
            },
        ) {
            Ok(()) => ScriptFault::Config(number as usize, fault),
            Err(unsaid) => unsaid,
        },
    }
}

/// Opens the fleet that the lines before `start` have set up, and answers `start`.
fn start<W: FlushedSink, M: Medium>(
    alloc: Global,
    max_blocks: u64,
    number: u64,
    config: &Config,
    numbers: &LineNumbers,
    text: &mut Text,
    writer: &mut W,
    medium: M,
) -> Result<Fleet<M>, (ScriptFault, M)>
    ensures opened { IfOk result (λ fleet. layers_of fleet.state
        ≡ opening_layers (configuration config.now) (M.device medium)) }
    ensures medium { IfOk result (λ fleet. fleet.medium ≡ medium) }
    ensures accepted { IfOk result
        (λ _. config_fault (configuration config.now) (capacity max_blocks (M.size medium)) ≡ None) }
    ensures said { IfOk result (λ _.
        SendsBy W.step W.flushes W.contents writer.old (Sent (with_feed started_text)) writer.new) }
    ensures fault { IfErr result
        (λ e. StartFails (SendsBy W.step W.flushes W.contents) e.0 (capacity max_blocks (M.size medium))
        (M.device medium) number (set_up_of config.now numbers.now) writer.old writer.new) }
    ensures kept { IfErr result (λ e. e.1 ≡ medium) }
{
    match Fleet::within(alloc, config, max_blocks, medium) {
        Ok(fleet) => match send(writer, b"started\n") {
            Ok(()) => Ok(fleet),
            Err(unsaid) => Err((unsaid, fleet.into_medium())),
        },
        Err(NewFault { fault, medium }) => {
            let reason = numbered_reason(config, numbers, max_blocks, medium.blocks());
            let answered = refuse_start(number, fault, reason, text, writer);
            Err((answered, medium))
        }
    }
}

/// Answers `start`, which was just read and has this number, and the lines after it.
fn run_from_start<R: LineSource, W: FlushedSink, M: Medium>(
    alloc: Global,
    max_blocks: u64,
    number: u64,
    config: &Config,
    numbers: &LineNumbers,
    rooms: &mut Rooms,
    reader: &mut R,
    writer: &mut W,
    medium: M,
) -> Result<M, (ScriptFault, M)>
    requires countable { number < 2 ^ 64 - 1 }
    requires bytes_room { length rooms.old.bytes.items ≡ 2097153 }
    requires identifiers_room { length rooms.old.identifiers.items ≡ 2097153 }
    requires blocks_room { length rooms.old.blocks.items ≡ 2097153 }
    ensures ok { IfOk result (λ after. FromStart (ReadsBy R.step R.remaining) reader.old (λ between.
        Rests M.device (λ last. Ends (TurnOver M.step M.tells (capacity max_blocks (M.size medium)) (M.device medium))
        (ReadsBy R.step R.remaining) (SendsBy W.step W.flushes W.contents) number
        (over (Setting (set_up_of config.now numbers.now)) medium) last between reader.new writer.old writer.new)
        (M.device medium) after)) }
    ensures fault { IfErr result (λ e. FromStart (ReadsBy R.step R.remaining) reader.old (λ between.
        Rests M.device
        (λ last. EndsBy e.0 (TurnOver M.step M.tells (capacity max_blocks (M.size medium)) (M.device medium))
        (ReadsBy R.step R.remaining) (SendsBy W.step W.flushes W.contents) standing_over number
        (over (Setting (set_up_of config.now numbers.now)) medium) last between reader.new writer.old writer.new)
        (M.device medium) e.1)) }
{
    let started = start(
        alloc,
        max_blocks,
        number,
        config,
        numbers,
        &mut rooms.text,
        writer,
        medium,
    );
    match started {
        Ok(fleet) => run_on(number + 1, fleet, rooms, reader, writer),
        Err(fault) => Err(fault),
    }
}

/// A session whose first script has no `start`, and so sets up nothing.
fn run_from_setting<R: LineSource, W: FlushedSink, M: Medium>(
    alloc: Global,
    max_blocks: u64,
    opening: &mut Opening,
    reader: &mut R,
    writer: &mut W,
    medium: M,
) -> Result<M, (ScriptFault, M)>
    requires bytes_room { length opening.old.rooms.bytes.items ≡ 2097153 }
    requires identifiers_room { length opening.old.rooms.identifiers.items ≡ 2097153 }
    requires blocks_room { length opening.old.rooms.blocks.items ≡ 2097153 }
    requires room { HasSetUpRoom opening.old.script.config opening.old.numbers }
    ensures ok { IfOk result (λ after.
        Rests M.device (λ last. Ends (TurnOver M.step M.tells (capacity max_blocks (M.size medium)) (M.device medium))
        (ReadsBy R.step R.remaining) (SendsBy W.step W.flushes W.contents) 1
        (over (Setting (set_up_of opening.old.script.config opening.old.numbers)) medium) last
        reader.old reader.new writer.old writer.new) (M.device medium) after) }
    ensures fault { IfErr result (λ e.
        Rests M.device
        (λ last. EndsBy e.0 (TurnOver M.step M.tells (capacity max_blocks (M.size medium)) (M.device medium))
        (ReadsBy R.step R.remaining) (SendsBy W.step W.flushes W.contents) standing_over 1
        (over (Setting (set_up_of opening.old.script.config opening.old.numbers)) medium) last
        reader.old reader.new writer.old writer.new) (M.device medium) e.1) }
{
    let set = set_up(
        &mut opening.script.config,
        &mut opening.numbers,
        &mut opening.rooms.line,
        &mut opening.rooms.bytes,
        &mut opening.rooms.identifiers,
        &mut opening.rooms.blocks,
        &mut opening.rooms.text,
        reader,
        writer,
    );
    match set {
        Ok(None) => Ok(medium),
        Err(fault) => Err((fault, medium)),
        Ok(Some(number)) => run_from_start(
            alloc,
            max_blocks,
            number,
            &opening.script.config,
            &opening.numbers,
            &mut opening.rooms,
            reader,
            writer,
            medium,
        ),
    }
}

/// Applies the events of the first script, and writes its transcript.
fn run_events_of<W: FlushedSink, M: Medium>(
    opening: &mut Opening,
    fleet: &mut Fleet<M>,
    writer: &mut W,
) -> io::Result<()>
    requires ready { IsReady opening.old.text.items opening.old.script }
    requires bytes_room { length opening.old.rooms.bytes.items ≡ 2097153 }
    requires identifiers_room { length opening.old.rooms.identifiers.items ≡ 2097153 }
    ensures bytes { length opening.new.rooms.bytes.items ≡ 2097153 }
    ensures identifiers { length opening.new.rooms.identifiers.items ≡ 2097153 }
    ensures blocks { length opening.new.rooms.blocks.items ≡ length opening.old.rooms.blocks.items }
    ensures ok { OnOk result (TranscribesBy (RanCalling M.step M.tells) W.step W.contents
        (over (layers_of fleet.old.state) fleet.old.medium) (events_in opening.old.text.items)
        (over (layers_of fleet.new.state) fleet.new.medium) writer.old writer.new) }
    ensures err { OnErr result (StopsAtBy (RanCalling M.step M.tells) W.step W.contents
        (over (layers_of fleet.old.state) fleet.old.medium) (events_in opening.old.text.items)
        (over (layers_of fleet.new.state) fleet.new.medium) writer.old writer.new) }
{
    run_events(
        opening.text.as_slice(),
        opening.script.events.as_slice(),
        fleet,
        &mut opening.rooms.bytes,
        &mut opening.rooms.identifiers,
        &mut opening.rooms.text,
        writer,
    )
}

/// Opens the fleet of a first script with a `start`, and runs its events.
fn run_first<W: FlushedSink, M: Medium>(
    alloc: Global,
    max_blocks: u64,
    start: usize,
    opening: &mut Opening,
    writer: &mut W,
    medium: M,
) -> Result<Fleet<M>, (ScriptFault, M)>
    requires ready { IsReady opening.old.text.items opening.old.script }
    requires starts { opening.old.script.start ≡ Some start }
    requires bytes_room { length opening.old.rooms.bytes.items ≡ 2097153 }
    requires identifiers_room { length opening.old.rooms.identifiers.items ≡ 2097153 }
    ensures bytes { length opening.new.rooms.bytes.items ≡ 2097153 }
    ensures identifiers { length opening.new.rooms.identifiers.items ≡ 2097153 }
    ensures blocks { length opening.new.rooms.blocks.items ≡ length opening.old.rooms.blocks.items }
    ensures ok { IfOk result (λ fleet. IsScript opening.old.text.items (capacity max_blocks (M.size medium))
        × RunsTo M.step M.tells M.device W.step W.flushes W.contents opening.old.text.items medium
        (layers_of fleet.state) fleet.medium writer.old writer.new) }
    ensures fault { IfErr result
        (λ e. FailsFirst M.step M.tells M.device W.step W.flushes W.contents (capacity max_blocks (M.size medium))
        opening.old.text.items e.0 medium e.1 writer.old writer.new) }
{
    let mut fleet = match Fleet::within(alloc, &opening.script.config, max_blocks, medium) {
        Ok(fleet) => fleet,
        Err(NewFault { fault, medium }) => return Err((refused_at(start, fault), medium)),
    };
    if run_events_of(opening, &mut fleet, writer).is_err() {
        return Err((ScriptFault::Write, fleet.into_medium()));
    }
    if writer.flush_all().is_err() {
        return Err((ScriptFault::Write, fleet.into_medium()));
    }
    Ok(fleet)
}

/// The fault of a script whose fleet was refused.
fn refused_at(start: usize, fault: ConfigFault) -> ScriptFault
    ensures { result ≡ of_opening (Some start) fault }
{
    match fault {
        ConfigFault::NoMemory => ScriptFault::NoMemory,
        _ => ScriptFault::Config(start, fault),
    }
}

/// A session: runs a script first, then answers each line of the input by one line, which it flushes before it reads
/// the next line.
///
/// It reads each line of the input by one call, and makes no other call of the input. It writes the transcript of the
/// script, line by line, and flushes it; then the answer to each line, in order: the part that a line up to `start` set
/// up, the result of an event, the state that a query asks for, or why a line is refused. A query and a refused line
/// change nothing. It writes each answer by writes of all that is left of it, and flushes once. After a read, a write
/// or a flush that fails it calls neither input, output nor medium.
///
/// It makes exactly the calls of the medium that its events and its queries of blocks make, in the order of their
/// lines.
///
/// # Errors
///
/// The faults of the script are those of `run_script`. If the script can't be read or is refused, the session reads no
/// input, writes nothing, and does not call the medium; if the transcript can't be written, it reads no input. After
/// the script:
///
/// - `Config`: the session's own `start` is refused. The fault has the number of that line, and the line was answered.
/// - `Write`: a write or the flush of an answer failed. The line has had its effect.
/// - `Read`: the next line could not be read; or 18,446,744,073,709,551,614 lines were read, and no more can be
///   counted.
/// - `NoMemory`: memory was refused for the fleet of a configuration without a fault; or for a line before `start`, of
///   whose kind there are already more than a configuration may have; or for the text of an answer, which then was not
///   written in part either.
///
/// The medium is as after the last event.
pub fn run_live<S: Source, R: LineSource, W: FlushedSink, M: Medium>(
    alloc: Global,
    script: &mut S,
    reader: &mut R,
    writer: &mut W,
    medium: M,
) -> Result<M, (ScriptFault, M)>
    // The input was read to its end.
    ensures ok { IfOk result (λ after. (text : List ℕ) × IsRead S.step S.remaining script.old (Ok text) script.new
        × LivesOn M.step M.tells M.device (ReadsBy R.step R.remaining) W.step W.flushes W.contents
        (script_capacity (M.size medium)) text
        (surroundings reader.old writer.old medium) (surroundings reader.new writer.new after)) }
    // What each fault implies about the reads of the script, the text that they returned, and the session after it. If
    // the script can't be read or is refused, neither input, output nor medium were called.
    ensures fault { IfErr result (λ e. FailsBehindReading S.step S.remaining script.old script.new e.0
        (surroundings reader.old writer.old medium) (surroundings reader.new writer.new e.1) (λ text.
        Fails M.step M.tells M.device (ReadsBy R.step R.remaining) W.step W.flushes W.contents
        (script_capacity (M.size medium)) text e.0
        (surroundings reader.old writer.old medium) (surroundings reader.new writer.new e.1))) }
{
    run_live_within(alloc, MAX_BLOCKS, script, reader, writer, medium)
}

/// Like `run_live`, but a namespace may have up to `max_blocks` blocks.
pub(crate) fn run_live_within<S: Source, R: LineSource, W: FlushedSink, M: Medium>(
    alloc: Global,
    max_blocks: u64,
    script: &mut S,
    reader: &mut R,
    writer: &mut W,
    medium: M,
) -> Result<M, (ScriptFault, M)>
    ensures ok { IfOk result (λ after. (text : List ℕ) × IsRead S.step S.remaining script.old (Ok text) script.new
        × LivesOn M.step M.tells M.device (ReadsBy R.step R.remaining) W.step W.flushes W.contents
        (capacity max_blocks (M.size medium)) text
        (surroundings reader.old writer.old medium) (surroundings reader.new writer.new after)) }
    ensures fault { IfErr result (λ e. FailsBehindReading S.step S.remaining script.old script.new e.0
        (surroundings reader.old writer.old medium) (surroundings reader.new writer.new e.1) (λ text.
        Fails M.step M.tells M.device (ReadsBy R.step R.remaining) W.step W.flushes W.contents
        (capacity max_blocks (M.size medium)) text e.0
        (surroundings reader.old writer.old medium) (surroundings reader.new writer.new e.1))) }
{
    let mut opening = match prepare(alloc, script) {
        Ok(opening) => opening,
        Err(fault) => return Err((fault, medium)),
    };
    let Some(start) = opening.script.start else {
        if make_room(&mut opening.script.config, &mut opening.numbers).is_err() {
            return Err((ScriptFault::NoMemory, medium));
        }
        return run_from_setting(alloc, max_blocks, &mut opening, reader, writer, medium);
    };
    match run_first(alloc, max_blocks, start, &mut opening, writer, medium) {
        Ok(fleet) => run_on(1, fleet, &mut opening.rooms, reader, writer),
        Err(fault) => Err(fault),
    }
}

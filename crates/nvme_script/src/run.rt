//! Runs a script from its text to its transcript.

ghost use Rattle.std.specs.Prelude.{◌≡◌, ◌≤◌, ◌⊎◌, ◌∷◌, [], ℕ, List, IfOk, IfErr, OnOk, OnErr, Ok, length};
ghost use Rattle.script_text.specs.Reading.{IsRead, longest};
ghost use Rattle.nvme_grammar.specs.Room.{HasTextRoom, HasWordsRoom};
ghost use Rattle.nvme_spec.specs.Configuration.{Capacity, capacity, script_capacity};
ghost use Rattle.nvme_spec.specs.Execution.{no_marks};
ghost use Rattle.nvme_fleet.specs.FleetStates.{layers_of};
ghost use Rattle.nvme_subsys.specs.OverMedium.{over};
ghost use Rattle.nvme_grammar.specs.Kept.{kept_events};
ghost use Rattle.nvme_script.specs.Faults.{IsScript, IsReady, IsEarlyFault, IsWrite, ReadsThen};
ghost use Rattle.nvme_script.specs.ScriptCalls.{RanCalling};
ghost use Rattle.nvme_script.specs.ScriptWrites.{IsFault, RunsWriting, StopsAtBy, TranscribesBy};
ghost use Rattle.nvme_program.specs.FaultKinds.{of_opening};
ghost use Rattle.nvme_program.specs.declared.fault.ScriptFault.TheVariants.{NoMemory as MemoryRefused};

use crate::refusal::{LineReason, Refusal};
use nvme_fleet::{Fleet, NewFault};
use nvme_grammar::{Buffers, KeptEvent, Script, parse};
use nvme_medium::Medium;
use nvme_ns::{ConfigReason, MAX_BLOCKS, refusal_of};
use nvme_program::{ScriptFault, number_in};
use nvme_spec::{ConfigFault, Marks};
use nvme_transcript::{TranscriptLine, write_line};
use script_text::{Sink, Source, Text, read_text};
use std::alloc::Global;
use std::io;

/// A script that was read, and the buffers for its events: no memory is taken after its fleet is made.
#[derive(Drop)]
struct Ready {
    script: Script,
    buffers: Buffers,
    /// One line of the transcript.
    line: Text,
}

/// Checks a text, and makes the buffers for its events.
fn prepare(alloc: Global, text: &[u8]) -> Result<Ready, Refusal<'_>>
    requires short { length text.now ≤ longest }
    ensures script { IfOk result (λ ready. IsReady text.now ready.script) }
    ensures bytes_room { IfOk result (λ ready. HasTextRoom text.now ready.buffers.bytes.items) }
    ensures identifiers_room { IfOk result (λ ready. HasWordsRoom text.now ready.buffers.identifiers.items) }
    ensures fault { IfErr result (λ refusal. (size : Capacity) → IsEarlyFault refusal.fault text.now size) }
    ensures early { IfErr result (λ refusal. ¬ IsWrite refusal.fault) }
{
    let mut buffers = Buffers::for_text(alloc, text)?;
    let script = parse(alloc, text, &mut buffers.bytes, &mut buffers.identifiers)?;
    let line = Text::new(alloc)?;
    Ok(Ready {
        script,
        buffers,
        line,
    })
}

/// The fault of a script whose fleet was refused: its configuration's, at the line `start`, or out of memory.
fn refused_at(start: Option<usize>, fault: ConfigFault) -> ScriptFault
    ensures { result ≡ of_opening start fault }
{
    match fault {
        ConfigFault::NoMemory => ScriptFault::NoMemory,
        _ => ScriptFault::Config(start.unwrap_or(0), fault),
    }
}

/// The line of a text whose configuration is refused, and the rule that it breaks.
fn broken_rule<'t>(
    text: &[u8],
    ready: &mut Ready,
    max_blocks: u64,
    medium_blocks: u64,
) -> Option<LineReason<'t>>
    requires bytes_room { HasTextRoom text.now ready.old.buffers.bytes.items }
    requires identifiers_room { HasWordsRoom text.now ready.old.buffers.identifiers.items }
{
    let ConfigReason { line, rule } = refusal_of(&ready.script.config, max_blocks, medium_blocks)?;
    let buffers = &mut ready.buffers;
    let number = number_in(line, text, &mut buffers.bytes, &mut buffers.identifiers)?;
    Some(LineReason::Breaks(number, rule))
}

/// Empties the list of an event's marks, which a transcript does not show.
fn unmark(marks: &mut Marks)
    ensures { marks.new ≡ no_marks }
{
    marks.nsid = 0;
    marks.hosts.clear();
}

/// Applies a stored event of a text, and writes its line of the transcript, with the borrowed buffers. `marks` must be
/// empty, and is empty afterwards, so that it need not be cleared for each event. Nothing happens if the line in which
/// it is stored is not an event.
fn run_event<W: Sink, M: Medium>(
    text: &[u8],
    kept: KeptEvent,
    fleet: &mut Fleet<M>,
    bytes: &mut [u8],
    identifiers: &mut [u16],
    line: &mut Text,
    marks: &mut Marks,
    writer: &mut W,
) -> io::Result<()>
    requires bytes_room { HasTextRoom text.now bytes.old }
    requires identifiers_room { HasWordsRoom text.now identifiers.old }
    requires unmarked { marks.old ≡ no_marks }
    ensures unmarked { marks.new ≡ no_marks }
    ensures ok { OnOk result (TranscribesBy (RanCalling M.step M.tells) W.step W.contents
        (over (layers_of fleet.old.state) fleet.old.medium) (kept_events text.now (kept ∷ []))
        (over (layers_of fleet.new.state) fleet.new.medium) writer.old writer.new) }
    ensures err { OnErr result (StopsAtBy (RanCalling M.step M.tells) W.step W.contents
        (over (layers_of fleet.old.state) fleet.old.medium) (kept_events text.now (kept ∷ []))
        (over (layers_of fleet.new.state) fleet.new.medium) writer.old writer.new) }
{
    let Some(event) = kept.event(text, bytes, identifiers) else {
        return Ok(());
    };
    let seen = fleet.apply_into(event, marks);
    unmark(marks);
    let data = fleet.data();
    let shown = TranscriptLine {
        event,
        seen: &seen,
        bytes: data,
    };
    write_line(writer, line, &shown)
}

/// Applies the stored events of a text, in order, and writes the line of each before the next one.
pub fn run_events<W: Sink, M: Medium>(
    text: &[u8],
    events: &[KeptEvent],
    fleet: &mut Fleet<M>,
    bytes: &mut [u8],
    identifiers: &mut [u16],
    line: &mut Text,
    writer: &mut W,
) -> io::Result<()>
    requires bytes_room { HasTextRoom text.now bytes.old }
    requires identifiers_room { HasWordsRoom text.now identifiers.old }
    ensures ok { OnOk result (TranscribesBy (RanCalling M.step M.tells) W.step W.contents
        (over (layers_of fleet.old.state) fleet.old.medium) (kept_events text.now events.now)
        (over (layers_of fleet.new.state) fleet.new.medium) writer.old writer.new) }
    ensures err { OnErr result (StopsAtBy (RanCalling M.step M.tells) W.step W.contents
        (over (layers_of fleet.old.state) fleet.old.medium) (kept_events text.now events.now)
        (over (layers_of fleet.new.state) fleet.new.medium) writer.old writer.new) }
{
    let mut marks = Marks::none();
    for kept in events {
        run_event(
            text,
            *kept,
            fleet,
            bytes,
            identifiers,
            line,
            &mut marks,
            writer,
        )?;
    }
    Ok(())
}

/// Runs a script that was checked: opens its configuration over the medium, and applies its events.
fn run_ready<'t, W: Sink, M: Medium>(
    alloc: Global,
    max_blocks: u64,
    text: &'t [u8],
    ready: &mut Ready,
    writer: &mut W,
    medium: M,
) -> Result<M, (Refusal<'t>, M)>
    requires script { IsReady text.now ready.old.script }
    requires bytes_room { HasTextRoom text.now ready.old.buffers.bytes.items }
    requires identifiers_room { HasWordsRoom text.now ready.old.buffers.identifiers.items }
    ensures ok { IfOk result (λ after. IsScript text.now (capacity max_blocks (M.size medium))
        × RunsWriting M.step M.tells M.device W.step W.contents text.now medium after writer.old writer.new) }
    ensures fault { IfErr result (λ e. IsFault M.step M.tells M.device W.step W.contents e.0.fault text.now
        (capacity max_blocks (M.size medium)) medium e.1 writer.old writer.new) }
    ensures early { IfErr result (λ e. IsWrite e.0.fault ⊎ ((e.1 ≡ medium) × (writer.new ≡ writer.old))) }
{
    let mut fleet = match Fleet::within(alloc, &ready.script.config, max_blocks, medium) {
        Ok(fleet) => fleet,
        Err(NewFault { fault, medium }) => {
            let refusal = Refusal {
                fault: refused_at(ready.script.start, fault),
                reason: broken_rule(text, ready, max_blocks, medium.blocks()),
            };
            return Err((refusal, medium));
        }
    };
    let outcome = run_events(
        text,
        ready.script.events.as_slice(),
        &mut fleet,
        &mut ready.buffers.bytes,
        &mut ready.buffers.identifiers,
        &mut ready.line,
        writer,
    );
    match outcome {
        Ok(()) => Ok(fleet.into_medium()),
        Err(_) => Err((Refusal::unwritten(), fleet.into_medium())),
    }
}

/// Runs a script as `run_text` does; if a line of it is refused, the fault comes with the line's.
pub(crate) fn run_reasoned<'t, W: Sink, M: Medium>(
    alloc: Global,
    max_blocks: u64,
    text: &'t [u8],
    writer: &mut W,
    medium: M,
) -> Result<M, (Refusal<'t>, M)>
    requires short { length text.now ≤ longest }
    ensures ok { IfOk result (λ after. IsScript text.now (capacity max_blocks (M.size medium))
        × RunsWriting M.step M.tells M.device W.step W.contents text.now medium after writer.old writer.new) }
    ensures fault { IfErr result (λ e. IsFault M.step M.tells M.device W.step W.contents e.0.fault text.now
        (capacity max_blocks (M.size medium)) medium e.1 writer.old writer.new) }
    ensures early { IfErr result (λ e. IsWrite e.0.fault ⊎ ((e.1 ≡ medium) × (writer.new ≡ writer.old))) }
{
    match prepare(alloc, text) {
        Ok(mut ready) => run_ready(alloc, max_blocks, text, &mut ready, writer, medium),
        Err(refusal) => Err((refusal, medium)),
    }
}

/// Runs a script whose text was read: opens its configuration over the medium, and applies its events in order, each of
/// which writes its line of the transcript. `run_script` reads the text too.
///
/// The text has at most 4,194,304 bytes. Faults are found in the order grammar (`Syntax`), configuration (`Config`),
/// writing (`Write`). `NoMemory` may come at any point before the first event, and never later. The state after each of
/// them is as for `run_script`.
pub fn run_text<W: Sink, M: Medium>(
    alloc: Global,
    text: &[u8],
    writer: &mut W,
    medium: M,
) -> Result<M, (ScriptFault, M)>
    requires short { length text.now ≤ longest }
    // One run of the text's events: the transcript is that of its replies, written line by line, exactly its calls are
    // made of the medium, and the medium is the one that it left.
    ensures ok { IfOk result (λ after. IsScript text.now (script_capacity (M.size medium))
        × RunsWriting M.step M.tells M.device W.step W.contents text.now medium after writer.old writer.new) }
    // What each fault implies for the text.
    ensures fault { IfErr result (λ e. IsFault M.step M.tells M.device W.step W.contents e.0 text.now
        (script_capacity (M.size medium)) medium e.1 writer.old writer.new) }
    // Each fault except one of the writer comes before the first event, and no call is made of the medium.
    ensures early { IfErr result (λ e. IsWrite e.0 ⊎ ((e.1 ≡ medium) × (writer.new ≡ writer.old))) }
{
    match run_reasoned(alloc, MAX_BLOCKS, text, writer, medium) {
        Ok(medium) => Ok(medium),
        Err((refusal, medium)) => Err((refusal.fault, medium)),
    }
}

/// Runs a script: reads it whole, opens its configuration over the medium, and applies its events in order, each of
/// which writes its line of the transcript.
///
/// The definitions determine the transcript of the text. It is read by the reads of `read_text`, and by none after
/// them. Faults are found in the order reading (`Read`, `TooLong`), grammar (`Syntax`), configuration (`Config`),
/// writing (`Write`). `Read` comes only if a read failed. `NoMemory` may come at any point before the first event, and
/// never later. After all faults except `Write`, nothing was written, no call was made of the medium, and it is
/// unchanged. After `Write`, exactly the events up to and including the one whose line could not be written have
/// happened; the lines before that one were written whole, and of its own line not all. Exactly the calls of the events
/// that happened are made of the medium, in order. Each line is written by writes of all that is left of it, and
/// `Write` comes only if one of them failed, or if a line is longer than a text may be.
pub fn run_script<R: Source, W: Sink, M: Medium>(
    alloc: Global,
    reader: &mut R,
    writer: &mut W,
    medium: M,
) -> Result<M, (ScriptFault, M)>
    // One run of the events of the text that was read: the transcript is that of its replies, written line by line,
    // exactly its calls are made of the medium, and the medium is the one that it left.
    ensures ok { IfOk result (λ after. (text : List ℕ) × IsRead R.step R.remaining reader.old (Ok text) reader.new
        × IsScript text (script_capacity (M.size medium))
        × RunsWriting M.step M.tells M.device W.step W.contents text medium after writer.old writer.new) }
    // What each fault implies for the reads, and for the text that they gave.
    ensures fault { IfErr result (λ e. ReadsThen R.step R.remaining reader.old reader.new e.0 (λ text.
        IsFault M.step M.tells M.device W.step W.contents e.0 text
        (script_capacity (M.size medium)) medium e.1 writer.old writer.new)) }
    // Each fault except one of the writer comes before the first event, and no call is made of the medium.
    ensures early { IfErr result (λ e. IsWrite e.0 ⊎ ((e.1 ≡ medium) × (writer.new ≡ writer.old))) }
{
    match read_text(alloc, reader) {
        Ok(text) => run_text(alloc, text.as_slice(), writer, medium),
        Err(fault) => Err((ScriptFault::from(fault), medium)),
    }
}

//! Parses a text to a script.

ghost use Rattle.std.specs.Prelude.{◌≡◌, ◌+◌, ◌++◌, ◌∷◌, [], List, true, length, IfOk, IfErr, OnOk};
ghost use Rattle.script_text.specs.Lines.{text_lines};
ghost use Rattle.nvme_grammar.specs.Lent.{line_by_value};
ghost use Rattle.nvme_grammar.specs.Room.{HasBytesRoom, HasTextRoom, HasWordsRoom};
ghost use Rattle.nvme_grammar.specs.Script.{said, events_of, fits_behind, Begins, Says};
ghost use Rattle.nvme_grammar.specs.LineFaults.{IsParseFault, IsRefusal, fault_of};
ghost use Rattle.nvme_grammar.specs.Kept.{kept_events};
ghost use Rattle.nvme_grammar.specs.Reading.{Reads, kept_of_line};
ghost use Rattle.nvme_grammar.specs.declared.line.Line.{Line};
ghost use Rattle.nvme_grammar.specs.declared.script.ParseFault.TheVariants.{NoMemory as MemoryRefused};

use super::fault::{LineFault, line_fault};
use super::kept::KeptEvent;
use super::line::{Line, checked_line};
use nvme_spec::Config;
use script_text::front_line;
use std::alloc::{AllocError, Global};

/// The configuration of a script, and its events. Most events are stored as they are; for the others only the position
/// in the text, where the caller parses each line again when its event's turn comes, so that no memory is kept for
/// data.
#[derive(Drop)]
pub struct Script {
    /// The configuration of the lines before `start`, in order; empty if there is no `start`. Only its words were
    /// checked.
    pub config: Config,
    /// The number of the line `start`, counted from 1.
    pub start: Option<usize>,
    /// The events of the text, in order.
    pub events: Vec<KeptEvent>,
}

/// Why a text is not a script.
#[derive(Clone, Copy)]
pub enum ParseFault<'a> {
    /// The number of the first line that is outside the grammar, from 1, and its fault.
    Syntax(usize, LineFault<'a>),
    /// Memory was refused, or a line begins after more than 4,294,967,295 bytes.
    NoMemory,
}

impl From<AllocError> for ParseFault<'_> {
    ghost from_gives = { λ _ e. e ≡ MemoryRefused };

    fn from(_: AllocError) -> Self {
        ParseFault::NoMemory
    }
}

impl Script {
    /// A script of no lines yet, for a text of `text_len` bytes, with memory for its events: the shortest line of one
    /// is `up 1`.
    fn new(alloc: Global, text_len: usize) -> Result<Script, AllocError>
        ensures read { IfOk result (λ script. Reads script []) }
        ensures events { IfOk result (λ script. script.events.items ≡ []) }
    {
        Ok(Script {
            config: Config {
                controllers: Vec::new(alloc),
                namespaces: Vec::new(alloc),
                attached: Vec::new(alloc),
            },
            start: None,
            events: Vec::with_capacity(alloc, text_len / 5 + 1)?,
        })
    }

    /// Whether a line is allowed after those that were read.
    pub fn allows(&self, line: &Line) -> bool
        ensures { (lines : List Line) → Reads self.now lines → result ≡ fits_behind lines (line_by_value line.now) }
    {
        match line {
            Line::Blank => true,
            Line::Event(_) => self.start.is_some(),
            Line::Controller(_) | Line::Namespace(_) | Line::Attached { .. } | Line::Start => {
                self.start.is_none()
            }
        }
    }

    /// Adds line `number`, which begins after `before` bytes of the text. The line is borrowed, since a move would be
    /// much of the cost of parsing an event.
    #[inline(always)]
    fn take(&mut self, number: usize, before: u32, line: &Line) -> Result<(), AllocError>
        ensures read { OnOk result ((lines : List Line) → Reads self.old lines → number ≡ length lines + 1
            → fits_behind lines (line_by_value line.now) ≡ true
            → Reads self.new (lines ++ line_by_value line.now ∷ [])) }
        ensures events { OnOk result
            (self.new.events.items ≡ self.old.events.items ++ kept_of_line before line.now) }
    {
        match line {
            Line::Blank => {}
            Line::Event(event) => self.events.push(KeptEvent::of(event, before))?,
            Line::Controller(controller) => self.config.controllers.push(*controller)?,
            Line::Namespace(namespace) => self.config.namespaces.push(*namespace)?,
            Line::Attached { cntlid, nsid } => self.config.attached.push((*cntlid, *nsid))?,
            Line::Start => self.start = Some(number),
        }
        Ok(())
    }

    /// The script after all lines were read: without `start` its configuration is empty.
    fn finish(self) -> Script
        ensures says { (lines : List Line) → Reads self lines → Says lines result }
        ensures events { result.events.items ≡ self.events.items }
    {
        let mut script = self;
        if script.start.is_some() {
            return script;
        }
        script.config.controllers.clear();
        script.config.namespaces.clear();
        script.config.attached.clear();
        script
    }
}

/// The refusal of the line with this number, the first that is refused, with or without a `start` before it.
fn refused<'a>(number: usize, line: &'a [u8], started: bool, bytes: &mut [u8]) -> ParseFault<'a>
    requires bytes_room { HasBytesRoom line.now bytes.old }
    ensures { IsRefusal result number (fault_of started line.now) }
{
    match line_fault(line, started, bytes) {
        Some(fault) => ParseFault::Syntax(number, fault),
        None => ParseFault::NoMemory,
    }
}

/// Parses the lines of a text, which may lack `start`. A line feed ends a line; the last line may lack it. The buffers
/// must be long enough for any of its lines. It takes memory for the events, eight bytes for every five of the text.
///
/// `Syntax` has the number of the first line that is outside the grammar, and its fault: it has no meaning, or is a
/// configuration line or a second `start` after `start`, or an event before it. `NoMemory` if memory is refused, or a
/// line begins after more than 4,294,967,295 bytes.
///
/// The lines are read one after the other, in time linear in the text.
pub fn read_lines<'a>(
    alloc: Global,
    text: &'a [u8],
    bytes: &mut [u8],
    identifiers: &mut [u16],
) -> Result<Script, ParseFault<'a>>
    requires bytes_room { HasTextRoom text.now bytes.old }
    requires identifiers_room { HasWordsRoom text.now identifiers.old }
    ensures grammar { IfOk result (λ _. Begins (text_lines text.now)) }
    ensures read { IfOk result (λ script. Reads script (said (text_lines text.now))) }
    // All events of the text are stored, and no others.
    ensures events { IfOk result (λ script.
        kept_events text.now script.events.items ≡ events_of (text_lines text.now)) }
    ensures fault { IfErr result (λ fault. IsParseFault (text_lines text.now) fault) }
{
    let mut script = Script::new(alloc, text.len())?;
    let mut before = 0;
    let mut rest = Some(text);
    while let Some(lines) = rest {
        let (raw, behind) = front_line(lines);
        let said = checked_line(raw, bytes, identifiers);
        let Some(line) = &said else {
            return Err(refused(before + 1, raw, script.start.is_some(), bytes));
        };
        if !script.allows(line) {
            return Err(refused(before + 1, raw, script.start.is_some(), bytes));
        }
        let Ok(place) = u32::try_from(text.len() - lines.len()) else {
            return Err(ParseFault::NoMemory);
        };
        before += 1;
        script.take(before, place, line)?;
        rest = behind;
    }
    Ok(script)
}

/// Parses a text to a script, as `read_lines` reads it: without `start` the configuration is empty.
pub fn parse<'a>(
    alloc: Global,
    text: &'a [u8],
    bytes: &mut [u8],
    identifiers: &mut [u16],
) -> Result<Script, ParseFault<'a>>
    requires bytes_room { HasTextRoom text.now bytes.old }
    requires identifiers_room { HasWordsRoom text.now identifiers.old }
    ensures grammar { IfOk result (λ _. Begins (text_lines text.now)) }
    ensures says { IfOk result (λ script. Says (said (text_lines text.now)) script) }
    // All events of the text are stored, and no others.
    ensures events { IfOk result (λ script.
        kept_events text.now script.events.items ≡ events_of (text_lines text.now)) }
    ensures fault { IfErr result (λ fault. IsParseFault (text_lines text.now) fault) }
{
    match read_lines(alloc, text, bytes, identifiers) {
        Ok(script) => Ok(script.finish()),
        Err(fault) => Err(fault),
    }
}

//! Reads and checks a configuration's text.

ghost use Rattle.std.specs.Prelude.{◌≡◌, ◌≤◌, is_some, length, IfOk, IfErr};
ghost use Rattle.script_text.specs.Lines.{text_lines};
ghost use Rattle.nvme_spec.specs.Configuration.{capacity};
ghost use Rattle.nvme_ns.specs.Configured.{configuration};
ghost use Rattle.script_text.specs.Words.{most_words};
ghost use Rattle.nvme_grammar.specs.Kept.{line_event};
ghost use Rattle.nvme_grammar.specs.Room.{HasBytesRoom, HasTextRoom, HasWordsRoom};
ghost use Rattle.nvme_grammar.specs.Script.{Begins};
ghost use Rattle.library_text.specs.Reading.{Accepts, Refuses, RefusesLines, RuleOf, first_event, set_up};

use crate::refused::Refused;
use nvme_grammar::{Buffers, Line, ParseFault, Script, parse_line, read_lines};
use nvme_ns::{ConfigReason, refusal_of};
use nvme_program::number_in;
use nvme_spec::Config;
use script_text::{behind_separators, front_line};
use std::alloc::Global;

/// The most bytes of a script.
const MOST_BYTES: usize = 4_194_304;

/// The configuration of a text, checked for a medium of `medium_blocks` blocks and namespaces of at most `max_blocks`
/// blocks each; or why it is refused: the text is too long, a line is outside the grammar, a line breaks a rule, a line
/// is an event, or there is no controller. `start` may end the lines.
pub fn config_in(
    alloc: Global,
    text: &[u8],
    max_blocks: u64,
    medium_blocks: u64,
) -> Result<Config, Refused<'_>>
    ensures accepted { IfOk result
        (λ config. Accepts text.now (capacity max_blocks medium_blocks) (configuration config)) }
    ensures refused { IfErr result (λ refused. Refuses text.now (capacity max_blocks medium_blocks) refused) }
{
    if text.len() > MOST_BYTES {
        return Err(Refused::TooLong);
    }
    let Ok(mut buffers) = Buffers::for_text(alloc, text) else {
        return Err(Refused::NoMemory);
    };
    match read_lines(alloc, text, &mut buffers.bytes, &mut buffers.identifiers) {
        Ok(script) => judged(text, max_blocks, medium_blocks, script, &mut buffers),
        Err(ParseFault::Syntax(number, fault)) => Err(Refused::Line(number, fault)),
        Err(ParseFault::NoMemory) => Err(Refused::NoMemory),
    }
}

/// The configuration of a text that was read, or why it is refused.
fn judged<'a>(
    text: &'a [u8],
    max_blocks: u64,
    medium_blocks: u64,
    script: Script,
    buffers: &mut Buffers,
) -> Result<Config, Refused<'a>>
    requires bytes_room { HasTextRoom text.now buffers.old.bytes.items }
    requires identifiers_room { HasWordsRoom text.now buffers.old.identifiers.items }
    requires begins { Begins (text_lines text.now) }
    requires few { length text.now ≤ 4194304 }
    requires read { configuration script.config ≡ set_up (text_lines text.now) }
    ensures accepted { IfOk result
        (λ config. Accepts text.now (capacity max_blocks medium_blocks) (configuration config)) }
    ensures refused { IfErr result
        (λ refused. RefusesLines (text_lines text.now) (capacity max_blocks medium_blocks) refused) }
{
    if let Some(reason) = refusal_of(&script.config, max_blocks, medium_blocks) {
        return Err(rule_refused(text, reason, buffers));
    }
    if let Some((number, column)) = first_event(
        text,
        &mut buffers.bytes,
        &mut buffers.identifiers,
    ) {
        return Err(Refused::Event(number, column));
    }
    if script.config.controllers.is_empty() {
        return Err(Refused::Empty);
    }
    let Script { config, .. } = script;
    Ok(config)
}

/// The line that breaks the first broken rule.
fn rule_refused<'a>(text: &'a [u8], reason: ConfigReason, buffers: &mut Buffers) -> Refused<'a>
    requires bytes_room { HasTextRoom text.now buffers.old.bytes.items }
    requires identifiers_room { HasWordsRoom text.now buffers.old.identifiers.items }
    ensures { RuleOf (text_lines text.now) reason result }
{
    let found = number_in(
        reason.line,
        text,
        &mut buffers.bytes,
        &mut buffers.identifiers,
    );
    match found {
        Some(number) => Refused::Rule(number, reason.rule.fault(), reason.rule),
        None => Refused::NoMemory,
    }
}

/// Whether a line is an event.
fn is_event(line: &[u8], bytes: &mut [u8], identifiers: &mut [u16]) -> bool
    requires bytes_room { HasBytesRoom line.now bytes.old }
    requires identifiers_room { most_words line.now ≤ length identifiers.old }
    ensures { result ≡ is_some (line_event line.now) }
{
    match parse_line(line, bytes, identifiers) {
        Some(Line::Event(_)) => true,
        Some(
            Line::Blank
            | Line::Controller(_)
            | Line::Namespace(_)
            | Line::Attached { .. }
            | Line::Start,
        ) => false,
        None => false,
    }
}

/// The number of the first line of a text that is an event, and the column of its first word.
fn first_event(text: &[u8], bytes: &mut [u8], identifiers: &mut [u16]) -> Option<(usize, usize)>
    requires bytes_room { HasTextRoom text.now bytes.old }
    requires identifiers_room { HasWordsRoom text.now identifiers.old }
    ensures { result ≡ first_event 1 (text_lines text.now) }
{
    let mut number: usize = 1;
    let mut rest = Some(text);
    while let Some(lines) = rest {
        let (line, behind) = front_line(lines);
        if is_event(line, bytes, identifiers) {
            return Some((number, line.len() - behind_separators(line).len() + 1));
        }
        number += 1;
        rest = behind;
    }
    None
}

//! Lines of scripts and of their transcripts.

ghost use Rattle.std.specs.Prelude.{◌≡◌};
ghost use Rattle.library_text.specs.ConfigLines.{lines_of};
ghost use Rattle.nvme_library.specs.Given.{configuration_of};
ghost use Rattle.nvme_library.specs.Lines.{said_line, told_line};
ghost use Rattle.nvme_library.specs.Written.{Writes, WritesLine};

use crate::answer::Answer;
use crate::codes;
use crate::configuration::{Attached, Controller, Namespace, config_of};
use crate::event::{Event, seen_by};
use crate::written::Written;
use library_text::{ConfigLines, put_answer, put_event, put_text};
use std::alloc::Global;

/// Puts an event's line of a script, and a line feed, at the front of a buffer: `OK`; or `NO_ROOM`, or `NO_LINE` if no
/// line is this event, and the buffer is unchanged. `bytes` are those of a store.
#[unsafe(no_mangle)]
pub extern "C" fn nvmesim_event_line(event: &Event, bytes: &[u8], line: &mut [u8]) -> Written
    ensures { WritesLine (said_line event.now bytes.now) result line.old line.new }
{
    match event.said(bytes) {
        Some(said) => Written::of_line(put_event(&said, line)),
        None => Written::without(codes::NO_LINE),
    }
}

/// Puts the line of a transcript for an event's answer, and a line feed, at the front of a buffer: `OK`; or `NO_ROOM`,
/// or `NO_LINE` if no such event has this answer, and the buffer is unchanged.
#[unsafe(no_mangle)]
pub extern "C" fn nvmesim_answer_line(event: &Event, answer: &Answer, line: &mut [u8]) -> Written
    ensures { WritesLine (told_line event.now answer.now) result line.old line.new }
{
    let Some(said) = event.said(&[]) else {
        return Written::without(codes::NO_LINE);
    };
    match seen_by(&said, answer) {
        Some(seen) => Written::of_line(put_answer(&said, &seen, line)),
        None => Written::without(codes::NO_LINE),
    }
}

/// Puts the lines of a script that describe a configuration, each with its line feed, at the front of a buffer: `OK`;
/// or `NO_ROOM` or `NO_MEMORY`, and the buffer is unchanged.
#[unsafe(no_mangle)]
pub extern "C" fn nvmesim_configuration_lines(
    alloc: Global,
    controllers: &[Controller],
    namespaces: &[Namespace],
    attached: &[Attached],
    lines: &mut [u8],
) -> Written
    ensures { Writes (lines_of (configuration_of controllers.now namespaces.now attached.now)) result
        lines.old lines.new }
{
    match config_of(alloc, controllers, namespaces, attached) {
        Ok(config) => Written::of(put_text(alloc, &ConfigLines(&config), "", lines)),
        Err(_) => Written::without(codes::NO_MEMORY),
    }
}

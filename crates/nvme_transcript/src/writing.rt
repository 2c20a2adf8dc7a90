//! Writes the lines of a transcript.

ghost use Rattle.std.specs.Prelude.{◌≡◌, ◌≢◌, [], OnOk, OnErr};
ghost use Rattle.std.specs.Io.KnownBytes.{Appends};
ghost use Rattle.script_text.specs.Pages.{Adds, most_text};
ghost use Rattle.script_text.specs.Writing.{Cuts};
ghost use Rattle.nvme_event.specs.Bare.{seen_of};
ghost use Rattle.nvme_transcript.specs.Putting.{Puts};
ghost use Rattle.nvme_transcript.specs.Transcript.{event_text, seen_line};
ghost use Rattle.nvme_transcript.specs.Writing.{WritesLine};
ghost use Rattle.nvme_transcript.specs.declared.short.Put.TheVariants.{All};

use crate::line::{TranscriptLine, put_data};
use crate::short::{Put, Short, put_line};
use script_text::{NoRoom, Page, Sink, Spell, Text, write_whole};
use std::io;
use std::io::ErrorKind;

/// Writes a line of the transcript, by way of a text. If that fails, not all of the line was written, and no write was
/// made after the one that failed.
pub fn write_line<W: Sink>(
    writer: &mut W,
    text: &mut Text,
    line: &TranscriptLine<'_>,
) -> io::Result<()>
    ensures writes { WritesLine W.step (seen_line line.now.event (seen_of line.now.seen.now) line.now.bytes.now)
        writer.old result writer.new }
    ensures ok { OnOk result
        (Appends (W.contents writer.old) (W.contents writer.new)
        (seen_line line.now.event (seen_of line.now.seen.now) line.now.bytes.now)) }
    ensures err { OnErr result
        (Cuts (W.contents writer.old) (W.contents writer.new)
        (seen_line line.now.event (seen_of line.now.seen.now) line.now.bytes.now)) }
{
    let mut short = Short::new();
    let put = put_line(&mut short, line);
    if put == Put::All {
        short.push_str("\n");
        return write_whole(writer, short.as_str().as_bytes());
    }
    text.clear();
    if spell(text, short.as_str(), put, line).is_err() {
        return Err(io::Error::from(ErrorKind::OutOfMemory));
    }
    write_whole(writer, text.as_bytes())
}

/// Completes a line in a text: appends its data if the text has the rest, or all of it.
fn spell(text: &mut Text, short: &str, put: Put, line: &TranscriptLine<'_>) -> Result<(), NoRoom>
    requires empty { text.old ≡ [] }
    requires put { Puts put line.now.bytes.now short.now
        (event_text line.now.event (seen_of line.now.seen.now) line.now.bytes.now) }
    requires not_all { put ≢ All }
    ensures line { Adds most_text result [] (seen_line line.now.event (seen_of line.now.seen.now) line.now.bytes.now)
        text.new }
{
    match put {
        Put::AllButData => {
            text.put_str(short)?;
            put_data(text, line.bytes)?;
        }
        _ => line.spell(text)?,
    }
    text.put_str("\n")
}

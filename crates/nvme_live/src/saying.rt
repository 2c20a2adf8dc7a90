//! Sends answers: each is written whole and flushed.

ghost use Rattle.script_text.specs.Pages.{Adds, most_text};
ghost use Rattle.nvme_live.specs.Saying.{LacksRoom, with_feed};
ghost use Rattle.nvme_live.specs.Streams.{Says, SendsBy};

use nvme_program::ScriptFault;
use script_text::{FlushedSink, NoRoom, Page, Spell, Text, write_whole};

/// Writes all bytes, and flushes them.
pub fn send<W: FlushedSink>(writer: &mut W, bytes: &[u8]) -> Result<(), ScriptFault>
    ensures { Says (SendsBy W.step W.flushes W.contents) (λ _. ⊥) result bytes.now writer.old writer.new }
{
    if write_whole(writer, bytes).is_err() {
        return Err(ScriptFault::Write);
    }
    if writer.flush_all().is_err() {
        return Err(ScriptFault::Write);
    }
    Ok(())
}

/// Appends a line to a text.
fn put_line<T: Spell>(text: &mut Text, line: &T) -> Result<(), NoRoom>
    ensures { Adds most_text result text.old (with_feed (T.spelled line.now)) text.new }
{
    line.spell(text)?;
    text.put_str("\n")
}

/// Writes a line and flushes it. If the line does not fit in `text`, it writes nothing, and the fault is `NoMemory`.
pub fn say<W: FlushedSink, T: Spell>(
    writer: &mut W,
    text: &mut Text,
    line: &T,
) -> Result<(), ScriptFault>
    ensures { Says (SendsBy W.step W.flushes W.contents) LacksRoom result (with_feed (T.spelled line.now))
        writer.old writer.new }
{
    text.clear();
    match put_line(text, line) {
        Ok(()) => send(writer, text.as_bytes()),
        Err(NoRoom) => Err(ScriptFault::NoMemory),
    }
}

//! The first script of a session, and the memory for its lines.

ghost use Rattle.std.specs.Prelude.{◌≡◌, ℕ, IfErr, IfOk, Ok, length};
ghost use Rattle.script_text.specs.Reading.{IsRead};
ghost use Rattle.nvme_spec.specs.Configuration.{Capacity};
ghost use Rattle.nvme_script.specs.Faults.{IsEarlyFault, IsReady, IsWrite, ReadsThen};
ghost use Rattle.nvme_live.specs.SetUps.{no_numbers, numbers_in};

use crate::line_numbers::LineNumbers;
use crate::rooms::Rooms;
use nvme_grammar::{Script, parse};
use nvme_program::ScriptFault;
use script_text::{Source, read_text};
use std::alloc::Global;

/// The start of a session: the first script, its meaning, the numbers of its setup lines, and the buffers for lines.
#[derive(Drop)]
pub(crate) struct Opening {
    pub text: Vec<u8>,
    pub script: Script,
    pub numbers: LineNumbers,
    pub rooms: Rooms,
}

/// Reads the first script, and makes the buffers for lines.
pub(crate) fn prepare<S: Source>(alloc: Global, script: &mut S) -> Result<Opening, ScriptFault>
    ensures text { IfOk result (λ opening. IsRead S.step S.remaining script.old (Ok opening.text.items) script.new) }
    ensures script { IfOk result (λ opening. IsReady opening.text.items opening.script) }
    ensures numbers { IfOk result (λ opening. numbers_in opening.numbers ≡ no_numbers) }
    ensures bytes { IfOk result (λ opening. length opening.rooms.bytes.items ≡ 2097153) }
    ensures identifiers { IfOk result (λ opening. length opening.rooms.identifiers.items ≡ 2097153) }
    ensures blocks { IfOk result (λ opening. length opening.rooms.blocks.items ≡ 2097153) }
    ensures fault { IfErr result (λ fault. ReadsThen S.step S.remaining script.old script.new fault
        (λ text. (size : Capacity) → IsEarlyFault fault text size)) }
    ensures early { IfErr result (λ fault. ¬ IsWrite fault) }
{
    let text = read_text(alloc, script)?;
    let mut rooms = Rooms::new(alloc)?;
    let script = parse(
        alloc,
        text.as_slice(),
        &mut rooms.bytes,
        &mut rooms.identifiers,
    )?;
    Ok(Opening {
        text,
        script,
        numbers: LineNumbers::new(alloc),
        rooms,
    })
}

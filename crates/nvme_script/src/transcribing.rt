//! A script's run whose transcript goes through a buffer.

ghost use Rattle.std.specs.Prelude.{◌≡◌, ◌≤◌, [], IfOk, IfErr, length};
ghost use Rattle.script_text.specs.Reading.{longest};
ghost use Rattle.nvme_spec.specs.Configuration.{capacity};
ghost use Rattle.nvme_script.specs.Faults.{IsScript};
ghost use Rattle.nvme_script.specs.ProgramRuns.{FailsThrough, RunsBuffered, RunsText};

use crate::buffered::Buffered;
use crate::held::Held;
use crate::refusal::{LineReason, Refusal};
use crate::run::run_reasoned;
use nvme_medium::Medium;
use nvme_program::Failure;
use script_text::FlushedSink;
use std::alloc::Global;

/// Runs a script whose text was read, and writes its transcript through a buffer that is empty before and after it.
fn run_buffered<'t, O: FlushedSink, M: Medium>(
    alloc: Global,
    max_blocks: u64,
    text: &'t [u8],
    buffered: &mut Buffered<'_, '_, O>,
    medium: M,
) -> Result<M, (Refusal<'t>, M)>
    requires short { length text.now ≤ longest }
    requires empty { buffered.old.held ≡ [] }
    ensures name { buffered.new.name ≡ buffered.old.name }
    ensures ran { RunsText M.Medium O.Sink O.flushes max_blocks result text.now medium buffered.old.output
        buffered.new.output }
{
    match run_reasoned(alloc, max_blocks, text, buffered, medium) {
        Ok(medium) => match buffered.flush() {
            Ok(()) => Ok(medium),
            Err(_) => Err((Refusal::unwritten(), medium)),
        },
        Err(refusal) => Err(refusal),
    }
}

/// Runs a script whose text was read, and writes its transcript to an output, through an empty buffer.
fn run_held<'t, O: FlushedSink, M: Medium>(
    alloc: Global,
    max_blocks: u64,
    text: &'t [u8],
    held: &mut Held,
    output: &mut O,
    medium: M,
) -> Result<M, (Refusal<'t>, M)>
    requires short { length text.now ≤ longest }
    requires empty { held.old ≡ [] }
    ensures { RunsText M.Medium O.Sink O.flushes max_blocks result text.now medium output.old output.new }
{
    let mut buffered = Buffered { output, held };
    let ran = run_buffered(alloc, max_blocks, text, &mut buffered, medium);
    // Destructured, so that the state after its borrow is known.
    let Buffered {
        output: _output,
        ..
    } = buffered;
    ran
}

/// Runs a script whose text was read, and writes its transcript to an output, through a buffer.
///
/// # Errors
///
/// The faults of the script; before all else, that memory for the buffer was refused.
#[tactic(auto, unfolding(crate::specs::ProgramRuns::RunsText))]
pub(crate) fn run_through<'t, O: FlushedSink, M: Medium>(
    alloc: Global,
    max_blocks: u64,
    text: &'t [u8],
    output: &mut O,
    medium: M,
) -> Result<M, (Failure, Option<LineReason<'t>>, M)>
    requires short { length text.now ≤ longest }
    ensures ok { IfOk result (λ after. IsScript text.now (capacity max_blocks (M.size medium))
        × RunsBuffered M.Medium O.Sink O.flushes text.now medium after output.old output.new) }
    ensures fault { IfErr result (λ e.
        FailsThrough M.Medium O.Sink O.flushes max_blocks e.0 text.now medium e.2 output.old output.new) }
{
    let Ok(mut held) = Held::new(alloc) else {
        return Err((Failure::Memory, None, medium));
    };
    match run_held(alloc, max_blocks, text, &mut held, output, medium) {
        Ok(medium) => Ok(medium),
        Err((refusal, medium)) => Err((Failure::Script(refusal.fault), refusal.reason, medium)),
    }
}

//! A session over the streams of the program, whose input is buffered.

ghost use Rattle.std.specs.Prelude.{◌≡◌, IfOk, IfErr, None, Some};
ghost use Rattle.nvme_program.specs.Failures.{IsOfRun};
ghost use Rattle.nvme_live.specs.ProgramLives.{LivesOver};

use crate::session::run_live_within;
use nvme_medium::Medium;
use nvme_program::Failure;
use script_text::{FlushedSink, Source};
use std::alloc::Global;
use std::io::{BufReader, Read};

/// Runs a script, then answers each line of the buffered input.
///
/// # Errors
///
/// Those of the session; and first, that there is no memory for the input's buffer.
pub(crate) fn live_over<T: Source, I: Read, O: FlushedSink, M: Medium>(
    alloc: Global,
    max_blocks: u64,
    script: &mut T,
    input: &mut I,
    output: &mut O,
    medium: M,
) -> Result<M, (Failure, M)>
    ensures ok { IfOk result
        (λ after. LivesOver T.Source M.Medium I.remaining O.Sink O.flushes max_blocks script.old script.new medium
        after input.old output.old None output.new) }
    ensures fault { IfErr result
        (λ e. LivesOver T.Source M.Medium I.remaining O.Sink O.flushes max_blocks script.old script.new medium
        e.1 input.old output.old (Some e.0) output.new) }
    ensures run { IfErr result (λ e. IsOfRun (Some e.0)) }
{
    let Ok(mut reader) = BufReader::new(alloc, input) else {
        return Err((Failure::Memory, medium));
    };
    match run_live_within(alloc, max_blocks, script, &mut reader, output, medium) {
        Ok(medium) => Ok(medium),
        Err((fault, medium)) => Err((Failure::Script(fault), medium)),
    }
}

//! Checks that a named image is not a script, which would be overwritten.

ghost use Rattle.std.specs.Prelude.{◌≡◌, List, ℕ, Result};
ghost use Rattle.nvme_grammar.specs.Beginnings.{begins_script};
ghost use Rattle.nvme_program.specs.Programs.{IsJudgement};
ghost use Rattle.nvme_program.specs.SystemCalls.{ReadsText};
ghost use Rattle.nvme_program.specs.declared.failure.Failure.{Failure as AFailure};

use crate::failure::Failure;
use crate::system::{Cause, System, Unopened};
use nvme_grammar::begins_script;
use std::alloc::Global;

/// Checks a named image by its text, before it is opened: it is refused if it begins like a script.
///
/// # Errors
///
/// `File` with the cause `IsScript` if it does; or with the system's error if it can't be read.
pub fn judge_image<S: System>(alloc: Global, system: &mut S, path: &str) -> Result<(), Unopened>
    ensures { (outcome : Result (List ℕ) AFailure) × S.step system.old (ReadsText path.now outcome) system.new
        × IsJudgement outcome result }
{
    let text = system.text_of(alloc, path)?;
    if begins_script(text.as_slice()) {
        return Err(Unopened {
            failure: Failure::File,
            cause: Cause::IsScript,
        });
    }
    Ok(())
}

//! What a program runs after its files are open.

ghost use Rattle.std.specs.Prelude.{◌≡◌, List, Option};
ghost use Rattle.std.specs.Borrow.{GName};
ghost use Rattle.std.specs.Result.{result_err};
ghost use Rattle.nvme_medium.specs.declared.medium.Medium.{Ghosts};
ghost use Rattle.script_text.specs.declared.stream.Source.{Ghosts as SourceGhosts};
ghost use Rattle.nvme_program.specs.Failures.{IsOfRun};
ghost use Rattle.nvme_program.specs.declared.failure.Failure.{Failure};

use crate::command_line::Paths;
use crate::failure::Failure;
use crate::reason::Reason;
use crate::telling::Program;
use nvme_medium::Medium;
use script_text::Source;
use std::alloc::Global;

/// The result of a run, and the medium after it.
#[derive(Drop)]
pub struct Ran<M> {
    pub medium: M,
    pub outcome: Result<(), Failure>,
}

/// What a program runs after its files are open, and its reports of failures. For contracts it defines the effect of a
/// run over any medium, with the model of that medium, and with any script.
pub trait Runner {
    /// The streams that it borrows, by their names: they stay the same.
    ghost links: { Self → List GName };

    /// The effect of a run with a named script on that, on the medium and on the runner, and the failure that ended it.
    /// Of the script, contracts know which states may follow a read, and what is left to read.
    ghost ran: { (T : Type 0) → (M : Type 0) → SourceGhosts T → Ghosts M → T → T → M → M → Self
        → Option Failure → Self → Type 0 };

    /// The same without a named script.
    ghost ran_unnamed: { (M : Type 0) → Ghosts M → M → M → Self → Option Failure → Self → Type 0 };

    /// The effect of reporting a failure on the runner.
    ghost tells: { Self → Self → Type 0 };

    /// The program, by its own name.
    fn program(&self) -> Program;

    /// Runs over a medium, with the script that the command line names.
    fn run<T: Source, M: Medium + Drop>(
        &mut self,
        alloc: Global,
        paths: Paths<'_>,
        script: &mut T,
        medium: M,
    ) -> Ran<M>
        ensures end { IsOfRun (result_err result.outcome) }
        ensures ran { ran T M T.Source M.Medium script.old script.new medium result.medium self.old
            (result_err result.outcome) self.new }
        ensures links { links self.new ≡ links self.old };

    /// Runs over a medium without a named script.
    fn run_unnamed<M: Medium + Drop>(
        &mut self,
        alloc: Global,
        paths: Paths<'_>,
        medium: M,
    ) -> Ran<M>
        ensures end { IsOfRun (result_err result.outcome) }
        ensures ran { ran_unnamed M M.Medium medium result.medium self.old (result_err result.outcome) self.new }
        ensures links { links self.new ≡ links self.old };

    /// Reports why the program ends, with the reason if there is one.
    fn tell(&mut self, failure: Failure, reason: Option<Reason<'_, '_>>) -> Failure
        ensures same { result ≡ failure }
        ensures tells { tells self.old self.new }
        ensures links { links self.new ≡ links self.old };
}

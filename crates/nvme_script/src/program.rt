//! The program `nvmesim [--any-size] [IMAGE [SCRIPT]]` over its streams.

ghost use Rattle.std.specs.Prelude.{◌≡◌, ◌≢◌, ◌≤◌, None, map};
ghost use Rattle.std.specs.String.{string_bytes};
ghost use Rattle.std.specs.Result.{result_err};
ghost use Rattle.nvme_program.specs.CommandLines.{
  after_any_size as after_options,
  max_blocks_in as max_blocks_of,
  word_fault,
};
ghost use Rattle.nvme_program.specs.Failures.{IsOfRun};
ghost use Rattle.nvme_script.specs.ProgramRuns.{RunsOver, ScriptProgramEnds, ScriptProgramExits};

use crate::refusal::LineReason;
use crate::transcribing::run_through;
use nvme_grammar::LineFault;
use nvme_medium::{Cached, FileMedium, HostFile, Medium};
use nvme_program::{
    Failure, HostFiles, Lent, Paths, PlacedFault, PlacedRule, Program, Ran, Reason, Runner,
    ScriptFault, System, USAGE, after_any_size, allows_any_size, launch, max_blocks_in, status_of,
};
use nvme_spec::ConfigFault;
use script_text::{FlushedSink, Source, read_text};
use std::alloc::Global;
use std::fs::File;
use std::io::Write;
use std::marker::Model;
use std::rt::Files;

/// The program, by its own name.
const NVMESIM: Program = Program {
    name: "nvmesim",
    usage: USAGE,
};

/// Why a line of a script is refused; if its text begins like an image, that is the reason.
fn line_reason<'p, 't>(
    text: &[u8],
    line: usize,
    fault: LineFault<'t>,
    paths: Paths<'p>,
) -> Reason<'p, 't> {
    if let (Some(path), Some(&0)) = (paths.script, text.first()) {
        return Reason::Zeros { path };
    }
    Reason::Line {
        path: paths.script,
        fault: PlacedFault { line, fault },
    }
}

/// Why the configuration of a script is refused over a medium of `blocks` blocks; if an image has none, that is the
/// reason.
fn configuration_reason<'p, 't>(
    fault: ConfigFault,
    reason: Option<LineReason<'t>>,
    blocks: u64,
    paths: Paths<'p>,
) -> Option<Reason<'p, 't>> {
    if let (Some(path), ConfigFault::DoesNotFit, 0) = (paths.image, fault, blocks) {
        return Some(Reason::NoBlock {
            path,
            script: paths.script.unwrap_or(path),
        });
    }
    let Some(LineReason::Breaks(line, rule)) = reason else {
        return None;
    };
    Some(Reason::Config {
        path: paths.script,
        rule: PlacedRule {
            line,
            rule,
            in_memory: paths.image.is_none(),
        },
    })
}

/// Reports why a script was not run to its end.
fn refused<E: Write>(
    errors: &mut E,
    paths: Paths<'_>,
    text: &[u8],
    failure: Failure,
    reason: Option<LineReason<'_>>,
    blocks: u64,
) -> Failure
    ensures { result ≡ failure }
{
    let reason = match (failure, reason) {
        (Failure::Script(ScriptFault::Syntax(line)), Some(LineReason::Outside(fault))) => {
            Some(line_reason(text, line, fault, paths))
        }
        (Failure::Script(ScriptFault::Config(_, fault)), reason) => {
            configuration_reason(fault, reason, blocks, paths)
        }
        (Failure::Script(ScriptFault::TooLong), _) => Some(Reason::TooLong { path: paths.script }),
        (Failure::Script(ScriptFault::Read), _) => Some(Reason::Unread { path: paths.script }),
        (Failure::Script(ScriptFault::Write), _) => Some(Reason::Unwritten),
        _ => None,
    };
    NVMESIM.tell(errors, failure, reason)
}

/// Runs a script over a medium, and writes its transcript through a buffer. It reads the whole text first, which the
/// reason of a refusal quotes.
fn run_over<I: Source, O: FlushedSink, E: Write, M: Medium>(
    alloc: Global,
    max_blocks: u64,
    paths: Paths<'_>,
    input: &mut I,
    output: &mut O,
    errors: &mut E,
    medium: M,
) -> Ran<M>
    ensures end { IsOfRun (result_err result.outcome) }
    ensures ran { RunsOver I.Source M.Medium O.Sink O.flushes max_blocks input.old input.new medium result.medium
        output.old (result_err result.outcome) output.new }
{
    let text = match read_text(alloc, input) {
        Ok(text) => text,
        Err(fault) => {
            let failure = Failure::Script(ScriptFault::from(fault));
            let outcome = Err(refused(errors, paths, &[], failure, None, 0));
            return Ran { medium, outcome };
        }
    };
    match run_through(alloc, max_blocks, text.as_slice(), output, medium) {
        Ok(medium) => Ran {
            medium,
            outcome: Ok(()),
        },
        Err((failure, reason, medium)) => {
            let blocks = medium.blocks();
            let outcome = Err(refused(errors, paths, &text, failure, reason, blocks));
            Ran { medium, outcome }
        }
    }
}

/// The streams of the program, and the most blocks that a namespace may have.
#[derive(Drop)]
struct Streams<'i, 'o, 'e, I, O, E> {
    input: Lent<'i, I>,
    output: Lent<'o, O>,
    errors: &'e mut E,
    max_blocks: u64,
}

impl<'i, 'o, 'e, I, O, E> Model for Streams<'i, 'o, 'e, I, O, E> {
    ghost use Rattle.nvme_program.specs.Streams.{Streams, streams};

    ghost Value = { Streams I O };

    ghost view = { λ s. streams s.input s.output s.max_blocks };
}

/// Without a named script it is the input.
impl<I: Source, O: FlushedSink, E: Write> Runner for Streams<'_, '_, '_, I, O, E> {
    ghost use Rattle.nvme_script.specs.ProgramRuns.{runs_scripts};

    ghost links = { (runs_scripts I.Source O.Sink O.flushes).links };

    ghost ran = { (runs_scripts I.Source O.Sink O.flushes).ran };

    ghost ran_unnamed = { (runs_scripts I.Source O.Sink O.flushes).ran_unnamed };

    ghost tells = { (runs_scripts I.Source O.Sink O.flushes).tells };

    fn program(&self) -> Program {
        NVMESIM
    }

    fn run<T: Source, M: Medium + Drop>(
        &mut self,
        alloc: Global,
        paths: Paths<'_>,
        script: &mut T,
        medium: M,
    ) -> Ran<M> {
        let Streams {
            output,
            errors,
            max_blocks,
            ..
        } = self;
        run_over(
            alloc,
            *max_blocks,
            paths,
            script,
            output.stream,
            errors,
            medium,
        )
    }

    fn run_unnamed<M: Medium + Drop>(
        &mut self,
        alloc: Global,
        paths: Paths<'_>,
        medium: M,
    ) -> Ran<M> {
        let Streams {
            input,
            output,
            errors,
            max_blocks,
        } = self;
        run_over(
            alloc,
            *max_blocks,
            paths,
            input.stream,
            output.stream,
            errors,
            medium,
        )
    }

    fn tell(&mut self, failure: Failure, reason: Option<Reason<'_, '_>>) -> Failure {
        NVMESIM.tell(self.errors, failure, reason)
    }
}

/// The program in a system, over its streams.
fn launch_over<S: System, I: Source, O: FlushedSink, E: Write>(
    alloc: Global,
    system: &mut S,
    streams: &mut Streams<'_, '_, '_, I, O, E>,
    words: &[String],
) -> Result<(), Failure>
    requires allowed { streams.old.max_blocks ≡ max_blocks_of (map string_bytes words.now) }
    ensures ends { ScriptProgramEnds S.step S.Image.Medium ⟦<Cached<S::Image> as Medium>⟧ S.Script.Source
        I.Source O.Sink O.flushes (map string_bytes words.now) system.old streams.old.input streams.old.output
        (result_err result) system.new streams.new.input streams.new.output }
    ensures input { streams.new.input_name ≡ streams.old.input_name }
    ensures output { streams.new.output_name ≡ streams.old.output_name }
{
    let options = usize::from(allows_any_size(words));
    launch(alloc, system, streams, after_any_size(words), options)
}

/// Runs the program in any system: opens its files in order, until something ends it. Its words are those of
/// `run_program`. A failure writes one line to `errors`, and a second with the reason, unless it is out of memory.
pub fn run_in<S: System, I: Source, O: FlushedSink, E: Write>(
    alloc: Global,
    system: &mut S,
    words: &[String],
    input: &mut I,
    output: &mut O,
    errors: &mut E,
) -> Result<(), Failure>
    ensures { ScriptProgramEnds S.step S.Image.Medium ⟦<Cached<S::Image> as Medium>⟧ S.Script.Source I.Source
        O.Sink O.flushes (map string_bytes words.now) system.old input.old output.old (result_err result) system.new
        input.new output.new }
{
    let mut streams = Streams {
        input: Lent { stream: input },
        output: Lent { stream: output },
        errors,
        max_blocks: max_blocks_in(words),
    };
    let outcome = launch_over(alloc, system, &mut streams, words);
    // Destructured, so that the state of the input and the output afterwards is known.
    let Streams { input, output, .. } = streams;
    let Lent { stream: _input } = input;
    let Lent { stream: _output } = output;
    outcome
}

/// Runs the program over its streams: `words`, the first of which is its name, and its standard input, output and
/// error. After a first word `--any-size` a namespace may have more than 65,536 blocks. Returns the exit status: 0
/// success; 1 a fault of the script; 2 a file or stream that can't be opened, read or written; 3 a refused command
/// line; 4 out of memory.
#[tactic(auto, using(crate::proofs::Launching::refused_status, crate::proofs::Launching::taken_status))]
pub fn run_program<R: Files<File = File> + AllocGlobal, I: Source, O: FlushedSink, E: Write>(
    rt: &R,
    words: &[String],
    input: &mut I,
    output: &mut O,
    errors: &mut E,
) -> u8
    ensures last { result ≤ 4 }
    ensures run { ScriptProgramExits ⟦<HostFiles<'static, R> as System>⟧.step ⟦<FileMedium<HostFile> as Medium>⟧
        ⟦<Cached<FileMedium<HostFile>> as Medium>⟧ ⟦<File as Source>⟧ I.Source O.Sink O.flushes
        (map string_bytes words.now) input.old output.old result input.new output.new }
    ensures refused { word_fault (after_options (map string_bytes words.now)) ≢ None → result ≡ 3 }
    ensures taken { word_fault (after_options (map string_bytes words.now)) ≡ None → result ≢ 3 }
{
    status_of(run_in(
        rt.alloc(),
        &mut HostFiles { rt },
        words,
        input,
        output,
        errors,
    ))
}

//! The program `nvmelive [--any-size] [--image] [IMAGE [SCRIPT]]` over its streams.

ghost use Rattle.std.specs.Prelude.{◌≡◌, ◌≢◌, ◌≤◌, None, map};
ghost use Rattle.std.specs.String.{string_bytes};
ghost use Rattle.std.specs.Result.{result_err};
ghost use Rattle.nvme_program.specs.CommandLines.{
  after_any_size as after_options,
  behind_option,
  max_blocks_in as max_blocks_of,
  word_fault,
};
ghost use Rattle.nvme_live.specs.ProgramLives.{SessionProgramEnds, SessionProgramExits};

use crate::running::live_over;
use nvme_medium::{Cached, FileMedium, HostFile, Medium};
use nvme_program::{
    Failure, HostFiles, Lent, Paths, Program, Ran, Reason, Runner, ScriptFault, System,
    after_any_size, allows_any_size, launch_guarded, max_blocks_in, status_of,
};
use script_text::{FlushedSink, Source};
use std::alloc::Global;
use std::fs::File;
use std::io::{Read, Write};
use std::marker::Model;
use std::rt::Files;

/// The program, by its own name.
const NVMELIVE: Program = Program {
    name: "nvmelive",
    usage: "nvmelive [--any-size] [--image] [IMAGE [SCRIPT]]",
};

/// Reports why a session ended before its input did. If a line was answered with it, that answer has the reason.
fn refused<E: Write>(errors: &mut E, paths: Paths<'_>, failure: Failure) -> Failure
    ensures { result ≡ failure }
{
    let reason = match failure {
        Failure::Script(ScriptFault::TooLong) => Some(Reason::TooLong { path: paths.script }),
        Failure::Script(ScriptFault::Read) => Some(Reason::Unread { path: paths.script }),
        Failure::Script(ScriptFault::Write) => Some(Reason::Unwritten),
        _ => None,
    };
    NVMELIVE.tell(errors, failure, reason)
}

/// The streams of the program, and the most blocks that a namespace may have.
#[derive(Drop)]
struct Streams<'i, 'o, 'e, I, O, E> {
    input: Lent<'i, I>,
    output: Lent<'o, O>,
    errors: &'e mut E,
    max_blocks: u64,
}

impl<'i, 'o, 'e, I, O, E> Model for Streams<'i, 'o, 'e, I, O, E> {
    ghost use Rattle.nvme_program.specs.Streams.{Streams, streams};

    ghost Value = { Streams I O };

    ghost view = { λ s. streams s.input s.output s.max_blocks };
}

/// A session after a script; without a named one after an empty script.
impl<I: Read, O: FlushedSink, E: Write> Runner for Streams<'_, '_, '_, I, O, E> {
    ghost use Rattle.nvme_live.specs.ProgramLives.{lives_behind_scripts};

    ghost links = { (lives_behind_scripts I.remaining O.Sink O.flushes).links };

    ghost ran = { (lives_behind_scripts I.remaining O.Sink O.flushes).ran };

    ghost ran_unnamed = { (lives_behind_scripts I.remaining O.Sink O.flushes).ran_unnamed };

    ghost tells = { (lives_behind_scripts I.remaining O.Sink O.flushes).tells };

    fn program(&self) -> Program {
        NVMELIVE
    }

    fn run<T: Source, M: Medium + Drop>(
        &mut self,
        alloc: Global,
        paths: Paths<'_>,
        script: &mut T,
        medium: M,
    ) -> Ran<M> {
        let Streams {
            input,
            output,
            errors,
            max_blocks,
        } = self;
        match live_over(
            alloc,
            *max_blocks,
            script,
            input.stream,
            output.stream,
            medium,
        ) {
            Ok(medium) => Ran {
                medium,
                outcome: Ok(()),
            },
            Err((failure, medium)) => Ran {
                medium,
                outcome: Err(refused(errors, paths, failure)),
            },
        }
    }

    fn run_unnamed<M: Medium + Drop>(
        &mut self,
        alloc: Global,
        paths: Paths<'_>,
        medium: M,
    ) -> Ran<M> {
        let mut nothing = b"".as_slice();
        self.run(alloc, paths, &mut nothing, medium)
    }

    fn tell(&mut self, failure: Failure, reason: Option<Reason<'_, '_>>) -> Failure {
        NVMELIVE.tell(self.errors, failure, reason)
    }
}

/// The program in a system, over its streams.
fn launch_over<S: System, I: Read, O: FlushedSink, E: Write>(
    alloc: Global,
    system: &mut S,
    streams: &mut Streams<'_, '_, '_, I, O, E>,
    words: &[String],
) -> Result<(), Failure>
    requires allowed { streams.old.max_blocks ≡ max_blocks_of (map string_bytes words.now) }
    ensures ends { SessionProgramEnds S.step S.Image.Medium ⟦<Cached<S::Image> as Medium>⟧ S.Script.Source
        I.remaining O.Sink O.flushes (map string_bytes words.now) system.old streams.old.input streams.old.output
        (result_err result) system.new streams.new.input streams.new.output }
    ensures input { streams.new.input_name ≡ streams.old.input_name }
    ensures output { streams.new.output_name ≡ streams.old.output_name }
{
    let options = usize::from(allows_any_size(words));
    launch_guarded(alloc, system, streams, after_any_size(words), options)
}

/// Runs the program in any system: opens its files in order, until something ends it. Its words are those of
/// `run_program`. A failure writes one line to `errors`, and a second with the reason, unless an answer had it.
pub fn run_in<S: System, I: Read, O: FlushedSink, E: Write>(
    alloc: Global,
    system: &mut S,
    words: &[String],
    input: &mut I,
    output: &mut O,
    errors: &mut E,
) -> Result<(), Failure>
    ensures { SessionProgramEnds S.step S.Image.Medium ⟦<Cached<S::Image> as Medium>⟧ S.Script.Source I.remaining
        O.Sink O.flushes (map string_bytes words.now) system.old input.old output.old (result_err result) system.new
        input.new output.new }
{
    let mut streams = Streams {
        input: Lent { stream: input },
        output: Lent { stream: output },
        errors,
        max_blocks: max_blocks_in(words),
    };
    let outcome = launch_over(alloc, system, &mut streams, words);
    // Destructured, so that the state of the input and the output afterwards is known.
    let Streams { input, output, .. } = streams;
    let Lent { stream: _input } = input;
    let Lent { stream: _output } = output;
    outcome
}

/// Runs the program over its streams: `words`, the first of which is its name, and its standard input, output and
/// error. After a first word `--any-size` a namespace may have more than 65,536 blocks. After a word `--image` the next
/// is the image, whatever it contains. Returns the exit status: 0 at the end of the input; 1 a fault of the script, or
/// a refused configuration; 2 a file or stream that can't be opened, read or written; 3 a refused command line; 4 out
/// of memory.
#[tactic(auto, using(crate::proofs::Launching::refused_status, crate::proofs::Launching::taken_status))]
pub fn run_program<R: Files<File = File> + AllocGlobal, I: Read, O: FlushedSink, E: Write>(
    rt: &R,
    words: &[String],
    input: &mut I,
    output: &mut O,
    errors: &mut E,
) -> u8
    ensures last { result ≤ 4 }
    ensures run { SessionProgramExits ⟦<HostFiles<'static, R> as System>⟧.step ⟦<FileMedium<HostFile> as Medium>⟧
        ⟦<Cached<FileMedium<HostFile>> as Medium>⟧ ⟦<File as Source>⟧ I.remaining O.Sink O.flushes
        (map string_bytes words.now) input.old output.old result input.new output.new }
    ensures refused { word_fault (behind_option (after_options (map string_bytes words.now))) ≢ None → result ≡ 3 }
    ensures taken { word_fault (behind_option (after_options (map string_bytes words.now))) ≡ None → result ≢ 3 }
{
    status_of(run_in(
        rt.alloc(),
        &mut HostFiles { rt },
        words,
        input,
        output,
        errors,
    ))
}

//! A program from its command line to its end: opens the named files, in order, and runs over them.

ghost use Rattle.std.specs.Prelude.{◌≡◌, None, Some, Ok, map, option_map};
ghost use Rattle.std.specs.String.{string_bytes};
ghost use Rattle.std.specs.Result.{result_err};
ghost use Rattle.nvme_program.specs.Programs.{
  EndsBehindImage,
  EndsFromImage,
  EndsFromScript,
  EndsGuarded,
  GuardedEnds,
  ProgramEnds,
};

use crate::command_line::{Paths, behind_option, means_image, paths_of};
use crate::failure::Failure;
use crate::judging::judge_image;
use crate::media::{behind_cache, scratch};
use crate::running::{Ran, Runner};
use crate::system::{System, Unopened};
use crate::telling::{AS_IMAGE, AS_SCRIPT, reason_of};
use nvme_medium::{Cached, Medium};
use std::alloc::Global;

/// Reports why a file can't be opened for this purpose.
fn refuse_file<R: Runner>(
    runner: &mut R,
    unopened: &Unopened,
    path: &str,
    purpose: &'static str,
) -> Failure
    ensures same { result ≡ unopened.now.failure }
    ensures tells { R.tells runner.old runner.new }
    ensures links { R.links runner.new ≡ R.links runner.old }
{
    runner.tell(unopened.failure, reason_of(&unopened.cause, path, purpose))
}

/// Reports why a command line ends the program, and which word is refused. There were `options` options before these
/// words.
fn refuse_words<R: Runner>(
    runner: &mut R,
    failure: Failure,
    words: &[String],
    options: usize,
) -> Failure
    ensures same { result ≡ failure }
    ensures tells { R.tells runner.old runner.new }
    ensures links { R.links runner.new ≡ R.links runner.old }
{
    let program = runner.program();
    runner.tell(failure, program.word_reason(words, options))
}

/// Opens the script that the command line names, if it names one, and runs over a medium.
fn run_named<S: System, R: Runner, M: Medium + Drop>(
    alloc: Global,
    system: &mut S,
    runner: &mut R,
    paths: Paths<'_>,
    medium: M,
) -> Ran<M>
    ensures ends { EndsFromScript S.step S.Image.Medium ⟦<Cached<S::Image> as Medium>⟧
        S.Script.Source R.Runner M.Medium
        (option_map (λ path. path.now) paths.entry.script) medium result.medium system.old runner.old
        (result_err result.outcome) system.new runner.new }
    ensures links { R.links runner.new ≡ R.links runner.old }
{
    let Some(path) = paths.script else {
        return runner.run_unnamed(alloc, paths, medium);
    };
    match system.open_script(path) {
        Ok(mut script) => runner.run(alloc, paths, &mut script, medium),
        Err(unopened) => Ran {
            medium,
            outcome: Err(refuse_file(runner, &unopened, path, AS_SCRIPT)),
        },
    }
}

/// Runs over an image that was opened, with a cache, and closes it.
fn run_open_image<S: System, R: Runner>(
    alloc: Global,
    system: &mut S,
    runner: &mut R,
    image: S::Image,
    paths: Paths<'_>,
) -> Result<(), Failure>
    ensures ends { EndsBehindImage S.step S.Image.Medium ⟦<Cached<S::Image> as Medium>⟧
        S.Script.Source R.Runner (Ok image)
        (option_map (λ path. path.now) paths.entry.script) system.old runner.old (result_err result) system.new
        runner.new }
    ensures links { R.links runner.new ≡ R.links runner.old }
{
    match behind_cache(alloc, image) {
        Ok(cached) => {
            let Ran { medium, outcome } = run_named(alloc, system, runner, paths, cached);
            system.close_image(medium.into_inner());
            outcome
        }
        Err((image, failure)) => {
            system.close_image(image);
            Err(runner.tell(failure, None))
        }
    }
}

/// Opens an image, and runs over it: its blocks are read and written in place.
fn run_image<S: System, R: Runner>(
    alloc: Global,
    system: &mut S,
    runner: &mut R,
    image: &str,
    paths: Paths<'_>,
) -> Result<(), Failure>
    ensures ends { EndsFromImage S.step S.Image.Medium ⟦<Cached<S::Image> as Medium>⟧
        S.Script.Source R.Runner (Some image.now)
        (option_map (λ path. path.now) paths.entry.script) system.old runner.old (result_err result) system.new
        runner.new }
    ensures links { R.links runner.new ≡ R.links runner.old }
{
    match system.open_image(alloc, image) {
        Ok(opened) => run_open_image(alloc, system, runner, opened, paths),
        Err(unopened) => Err(refuse_file(runner, &unopened, image, AS_IMAGE)),
    }
}

/// Runs over zeros in memory.
fn run_scratch<S: System, R: Runner>(
    alloc: Global,
    system: &mut S,
    runner: &mut R,
    paths: Paths<'_>,
) -> Result<(), Failure>
    ensures ends { EndsFromImage S.step S.Image.Medium ⟦<Cached<S::Image> as Medium>⟧
        S.Script.Source R.Runner None
        (option_map (λ path. path.now) paths.entry.script) system.old runner.old (result_err result) system.new
        runner.new }
    ensures links { R.links runner.new ≡ R.links runner.old }
{
    match scratch(alloc) {
        Ok(medium) => run_named(alloc, system, runner, paths, medium).outcome,
        Err(failure) => Err(runner.tell(failure, None)),
    }
}

/// Runs a program on these words, in any system: opens its files in order, until something ends it. The message for a
/// refused word also counts the `options` words before these.
///
/// # Errors
///
/// The failure that ended the run; or a refused word, a file that can't be opened, or refused memory, if there was no
/// run.
pub fn launch<S: System, R: Runner>(
    alloc: Global,
    system: &mut S,
    runner: &mut R,
    words: &[String],
    options: usize,
) -> Result<(), Failure>
    ensures ends { ProgramEnds S.step S.Image.Medium ⟦<Cached<S::Image> as Medium>⟧
        S.Script.Source R.Runner (map string_bytes words.now) system.old
        runner.old (result_err result) system.new runner.new }
    ensures links { R.links runner.new ≡ R.links runner.old }
{
    let paths = match paths_of(alloc, runner.program().name, words) {
        Ok(paths) => paths,
        Err(failure) => return Err(refuse_words(runner, failure, words, options)),
    };
    match paths.image {
        Some(image) => run_image(alloc, system, runner, image, paths),
        None => run_scratch(alloc, system, runner, paths),
    }
}

/// Runs over an image, or over zeros in memory. The text of an image is checked first, unless `--image` precedes it.
fn run_guarded<S: System, R: Runner>(
    alloc: Global,
    system: &mut S,
    runner: &mut R,
    is_meant: bool,
    paths: Paths<'_>,
) -> Result<(), Failure>
    ensures ends { EndsGuarded S.step S.Image.Medium ⟦<Cached<S::Image> as Medium>⟧
        S.Script.Source R.Runner is_meant
        (option_map (λ path. path.now) paths.entry.image) (option_map (λ path. path.now) paths.entry.script) system.old
        runner.old (result_err result) system.new runner.new }
    ensures links { R.links runner.new ≡ R.links runner.old }
{
    let Some(image) = paths.image else {
        return run_scratch(alloc, system, runner, paths);
    };
    if is_meant {
        return run_image(alloc, system, runner, image, paths);
    }
    match judge_image(alloc, system, image) {
        Ok(()) => run_image(alloc, system, runner, image, paths),
        Err(unopened) => Err(refuse_file(runner, &unopened, image, AS_IMAGE)),
    }
}

/// Runs a program that checks its image: like `launch`, except that the text of an image is checked before it is
/// opened, unless `--image` precedes it.
///
/// # Errors
///
/// Those of `launch`; or that the image is a script.
#[tactic(auto, using(crate::proofs::Guarded::words_are_taken))]
pub fn launch_guarded<S: System, R: Runner>(
    alloc: Global,
    system: &mut S,
    runner: &mut R,
    words: &[String],
    options: usize,
) -> Result<(), Failure>
    ensures ends { GuardedEnds S.step S.Image.Medium ⟦<Cached<S::Image> as Medium>⟧
        S.Script.Source R.Runner (map string_bytes words.now) system.old
        runner.old (result_err result) system.new runner.new }
    ensures links { R.links runner.new ≡ R.links runner.old }
{
    let is_meant = means_image(words);
    let behind = behind_option(words);
    let paths = match paths_of(alloc, runner.program().name, behind) {
        Ok(paths) => paths,
        Err(failure) => {
            let options = options.saturating_add(usize::from(is_meant));
            return Err(refuse_words(runner, failure, behind, options));
        }
    };
    run_guarded(alloc, system, runner, is_meant, paths)
}

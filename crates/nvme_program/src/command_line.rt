//! The words of a command line: the image, the script, and the first that is refused.

ghost use Rattle.std.specs.Prelude.{◌≡◌, ◌≢◌, None, map, option_map, option_and_then, IfOk, IfErr};
ghost use Rattle.std.specs.String.{string_bytes};
ghost use Rattle.nvme_program.specs.CommandLines as spec;
ghost use Rattle.nvme_program.specs.CommandLines.{image_path, is_option, word_fault, AreNamed};
ghost use Rattle.nvme_program.specs.declared.failure.Failure.TheVariants as failed;

use crate::failure::Failure;
use clap::error::ErrorKind;
use clap::{Arg, ArgAction, Command};
use nvme_ns::MAX_BLOCKS;
use std::alloc::Global;

/// Why a command line is refused: its first refused word, by its number after the program's name, from 1.
#[derive(Clone, Copy, Debug, PartialEq, Eq)]
pub enum WordFault {
    /// It begins with `-` like an option, and no option takes that place.
    NoOption(usize),
    /// It is the first word beyond the allowed number.
    TooMany(usize),
}

/// The paths on a command line.
#[derive(Clone, Copy)]
pub struct Paths<'a> {
    /// The image; without it the medium is zeros in memory.
    pub image: Option<&'a str>,
    /// The script; without it the script is the standard input.
    pub script: Option<&'a str>,
}

/// Whether a word begins like an option. `-` alone is not one.
fn begins_as_option(word: &str) -> bool
    ensures { result ≡ is_option word.now }
{
    matches!(word.as_bytes(), [b'-', _, ..])
}

/// Why the word with this number is refused, if it exists and is refused.
fn fault_at(words: &[String], number: usize) -> Option<WordFault>
    ensures { result ≡ spec.fault_at (map string_bytes words.now) number }
{
    let word = words.get(number)?;
    if begins_as_option(word.as_str()) {
        return Some(WordFault::NoOption(number));
    }
    if number > 2 {
        return Some(WordFault::TooMany(number));
    }
    None
}

/// The first refused word after the program's name: one that begins like an option, or the third.
pub fn refused_word(words: &[String]) -> Option<WordFault>
    ensures { result ≡ word_fault (map string_bytes words.now) }
{
    if let Some(fault) = fault_at(words, 1) {
        return Some(fault);
    }
    if let Some(fault) = fault_at(words, 2) {
        return Some(fault);
    }
    fault_at(words, 3)
}

/// The path of an image, if a word is one.
fn path_of_image<'a>(word: Option<&'a str>) -> Option<&'a str>
    ensures { option_map (λ path. path.now) result
        ≡ option_and_then image_path (option_map (λ path. path.now) word.entry) }
{
    match word {
        Some("-") | None => None,
        Some(path) => Some(path),
    }
}

/// The paths on a command line that has no refused word.
fn named<'a>(alloc: Global, name: &'a str, words: &'a [String]) -> Result<Paths<'a>, Failure>
    requires taken { word_fault (map string_bytes words.now) ≡ None }
    ensures named { IfOk result (λ paths. AreNamed paths (map string_bytes words.entry.now)) }
    ensures memory { IfErr result (λ failure. failure ≡ failed.Memory) }
{
    let command = Command::new(alloc, name)
        .disable_help_flag(true)
        .arg(Arg::new(alloc, "image").action(ArgAction::Set))?
        .arg(Arg::new(alloc, "script").action(ArgAction::Set))?;
    match command.try_get_matches_from(words) {
        Ok(matches) => Ok(Paths {
            image: path_of_image(matches.get_str("image")),
            script: matches.get_str("script"),
        }),
        Err(error) => match error.kind() {
            ErrorKind::OutOfMemory => Err(Failure::Memory),
            _ => Err(Failure::CommandLine),
        },
    }
}

/// The paths on the command line of a program of this name, which is its first word too: an image, then a script. `-`
/// means no image.
///
/// # Errors
///
/// `CommandLine` if a word is refused, and `Memory` if memory is.
pub fn paths_of<'a>(alloc: Global, name: &'a str, words: &'a [String]) -> Result<Paths<'a>, Failure>
    ensures named { IfOk result (λ paths. AreNamed paths (map string_bytes words.entry.now)) }
    ensures taken { IfOk result (λ _. word_fault (map string_bytes words.entry.now) ≡ None) }
    ensures refused { word_fault (map string_bytes words.entry.now) ≢ None
        → IfErr result (λ failure. failure ≡ failed.CommandLine) }
    ensures memory { word_fault (map string_bytes words.entry.now) ≡ None
        → IfErr result (λ failure. failure ≡ failed.Memory) }
{
    match refused_word(words) {
        Some(_) => Err(Failure::CommandLine),
        None => named(alloc, name, words),
    }
}

/// Whether the first word after the program's name is `--image`: the image after it is meant as one, whatever it holds.
pub fn means_image(words: &[String]) -> bool
    ensures { result ≡ spec.means_image (map string_bytes words.now) }
{
    match words.get(1) {
        Some(word) => word.as_bytes() == b"--image".as_slice(),
        None => false,
    }
}

/// Whether the first word after the program's name is `--any-size`: a namespace may have any number of blocks.
pub fn allows_any_size(words: &[String]) -> bool
    ensures { result ≡ spec.allows_any_size (map string_bytes words.now) }
{
    match words.get(1) {
        Some(word) => word.as_bytes() == b"--any-size".as_slice(),
        None => false,
    }
}

/// The words after `--any-size`, which then has the place of the program's name; all words if it is not there.
pub fn after_any_size(words: &[String]) -> &[String]
    ensures { map string_bytes result.now ≡ spec.after_any_size (map string_bytes words.now) }
{
    if allows_any_size(words) {
        return &words[1..];
    }
    words
}

/// The most blocks that a namespace may have: 65,536, or any number after `--any-size`.
pub fn max_blocks_in(words: &[String]) -> u64
    ensures { result ≡ spec.max_blocks_in (map string_bytes words.now) }
{
    if allows_any_size(words) {
        return u64::MAX;
    }
    MAX_BLOCKS
}

/// The words after `--image`, which then has the place of the program's name; all words if it is not there.
pub fn behind_option(words: &[String]) -> &[String]
    ensures { map string_bytes result.now ≡ spec.behind_option (map string_bytes words.now) }
{
    if means_image(words) {
        return &words[1..];
    }
    words
}

//! The reason of a failure: one more line after its text.

use crate::holder::Holder;
use crate::placed::{PlacedFault, PlacedRule};
use std::{fmt, io};

/// The usage line.
pub const USAGE: &str = "nvmesim [--any-size] [IMAGE [SCRIPT]]";

/// Why the program ends.
#[derive(Clone, Copy)]
pub enum Reason<'p, 't> {
    /// This word of the command line, from 1, is one too many.
    TooManyWords {
        number: usize,
        word: &'p str,
        usage: &'static str,
    },
    /// This word of the command line begins like an option.
    NoOption {
        number: usize,
        word: &'p str,
        usage: &'static str,
    },
    /// A path that can't be opened for this purpose, or whose kind can't be determined.
    Unopened {
        path: &'p str,
        purpose: &'static str,
        error: &'t io::Error,
    },
    /// A path that is not a regular file.
    NoImage {
        path: &'p str,
    },
    /// An image that another program has locked, and which program, if that is known.
    InUse {
        path: &'p str,
        holder: &'t Option<Holder>,
    },
    /// An image that the system can't lock.
    Unlocked {
        path: &'p str,
    },
    /// A path that is a script, but was named as the image.
    IsScript {
        path: &'p str,
    },
    /// The script can't be read.
    Unread {
        path: Option<&'p str>,
    },
    /// The script has too many bytes.
    TooLong {
        path: Option<&'p str>,
    },
    /// The transcript can't be written.
    Unwritten,
    /// A line outside the grammar.
    Line {
        path: Option<&'p str>,
        fault: PlacedFault<'t>,
    },
    /// A script that begins like an image.
    Zeros {
        path: &'p str,
    },
    /// A configuration that is refused at a line.
    Config {
        path: Option<&'p str>,
        rule: PlacedRule,
    },
    /// An image without a block, and the script for it: the file itself, if none is named.
    NoBlock {
        path: &'p str,
        script: &'p str,
    },
}

impl Reason<'_, '_> {
    /// Whether its line begins with a place in a script.
    pub(crate) fn has_place(&self) -> bool {
        matches!(self, Reason::Line { .. } | Reason::Config { .. })
    }
}

/// The file of a script, or the standard input.
#[derive(Clone, Copy)]
struct ScriptName<'a>(Option<&'a str>);

impl fmt::Display for ScriptName<'_> {
    fn fmt<W: fmt::Write>(&self, f: &mut fmt::Formatter<W>) -> fmt::Result {
        match self.0 {
            Some(path) => write!(f, "{}", path.escape_debug()),
            None => write!(f, "standard input"),
        }
    }
}

/// Writes a path, and a text about it.
fn say<W: fmt::Write>(f: &mut fmt::Formatter<W>, path: &str, said: &str) -> fmt::Result {
    write!(f, "'{}' {said}", path.escape_debug())
}

/// Writes the program that has locked an image.
fn say_in_use<W: fmt::Write>(
    f: &mut fmt::Formatter<W>,
    path: &str,
    holder: &Option<Holder>,
) -> fmt::Result {
    say(f, path, "is in use: ")?;
    match holder {
        Some(holder) => write!(f, "{holder}")?,
        None => write!(f, "another program")?,
    }
    write!(f, " holds its lock; --wait waits for it")
}

impl fmt::Display for Reason<'_, '_> {
    fn fmt<W: fmt::Write>(&self, f: &mut fmt::Formatter<W>) -> fmt::Result {
        match self {
            Reason::TooManyWords {
                number,
                word,
                usage,
            } => write!(
                f,
                "word {number}, '{}', is one too many; usage: {usage}",
                word.escape_debug()
            ),
            Reason::NoOption {
                number,
                word,
                usage,
            } => write!(
                f,
                "word {number}, '{}', is not an option; usage: {usage}",
                word.escape_debug()
            ),
            Reason::Unopened {
                path,
                purpose,
                error,
            } => write!(
                f,
                "'{}' can't be opened {purpose}: {error}",
                path.escape_debug()
            ),
            Reason::NoImage { path } => say(f, path, "is no regular file; an image must be one"),
            Reason::InUse { path, holder } => say_in_use(f, path, holder),
            Reason::Unlocked { path } => say(f, path, "can't be locked; an image must be"),
            Reason::IsScript { path } => write!(
                f,
                "'{}' is a script by its first line; to use it as an image, put --image before it",
                path.escape_debug()
            ),
            Reason::Unread { path } => write!(f, "{} can't be read", ScriptName(*path)),
            Reason::TooLong { path } => write!(
                f,
                "{} has more than 4194304 bytes; an image is the first word: {USAGE}",
                ScriptName(*path)
            ),
            Reason::Unwritten => write!(f, "standard output can't be written"),
            Reason::Line { path, fault } => write!(f, "{}:{fault}", ScriptName(*path)),
            Reason::Zeros { path } => write!(
                f,
                "'{}' begins with a byte 00h, so it is no script; usage: {USAGE}",
                path.escape_debug()
            ),
            Reason::Config { path, rule } => write!(f, "{}:{rule}", ScriptName(*path)),
            Reason::NoBlock { path, script } => write!(
                f,
                "'{}' has no whole block; to run a script over zeros in memory: ./nvmesim - {}",
                path.escape_debug(),
                script.escape_debug()
            ),
        }
    }
}

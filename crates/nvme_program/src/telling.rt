//! Reports of a program on standard error: the text of its failure, and then a line with the reason.

ghost use Rattle.std.specs.Prelude.{◌≡◌, ◌++◌, OnOk, Some, codes};
ghost use Rattle.std.specs.Io.KnownBytes.{Appends};
ghost use Rattle.nvme_program.specs.FailureTexts.{told_text};
ghost use Rattle.nvme_program.specs.declared.reason.Reason.TheVariants.{InUse as SaysInUse, IsScript as SaysScript};
ghost use Rattle.nvme_program.specs.declared.system.Cause.TheVariants.{InUse, IsScript};

use crate::command_line::{WordFault, refused_word};
use crate::failure::Failure;
use crate::reason::Reason;
use crate::system::Cause;
use std::io;
use std::io::Write;

/// The purpose of opening an image.
pub(crate) const AS_IMAGE: &str = "as the image, for reading and writing";

/// The purpose of opening a script.
pub(crate) const AS_SCRIPT: &str = "as the script, for reading";

/// The reason of a file that can't be opened for this purpose.
pub(crate) fn reason_of<'a>(
    cause: &'a Cause,
    path: &'a str,
    purpose: &'static str,
) -> Option<Reason<'a, 'a>>
    ensures held { (holder : _) → cause.entry.now ≡ InUse holder
        → (told : _) × (told.now ≡ holder) × (result ≡ Some (SaysInUse path.entry told)) }
    ensures script { cause.entry.now ≡ IsScript → result ≡ Some (SaysScript path.entry) }
{
    match cause {
        Cause::System(error) => Some(Reason::Unopened {
            path,
            purpose,
            error,
        }),
        Cause::Irregular => Some(Reason::NoImage { path }),
        Cause::InUse(holder) => Some(Reason::InUse { path, holder }),
        Cause::Unlocked => Some(Reason::Unlocked { path }),
        Cause::IsScript => Some(Reason::IsScript { path }),
        Cause::Unread => Some(Reason::Unread { path: Some(path) }),
        Cause::Unknown => None,
    }
}

/// A program, by its own name.
#[derive(Clone, Copy)]
pub struct Program {
    /// Its name.
    pub name: &'static str,
    /// Its usage line.
    pub usage: &'static str,
}

impl Program {
    /// Writes the line for a failure.
    fn say<E: Write>(self, errors: &mut E, failure: Failure) -> io::Result<()>
        ensures { OnOk result (Appends (E.contents errors.old) (E.contents errors.new)
            (told_text self.name.now failure ++ codes "\n")) }
    {
        let name = self.name;
        writeln!(errors, "{name}: {failure}")
    }

    /// Writes the line with a reason. Like a compiler's, it begins with the place in a script if there is one, and else
    /// with the program's name.
    fn say_reason<E: Write>(self, errors: &mut E, reason: Reason<'_, '_>) -> io::Result<()> {
        if reason.has_place() {
            return writeln!(errors, "{reason}");
        }
        let name = self.name;
        writeln!(errors, "{name}: {reason}")
    }

    /// Reports why the program ends: the text of the failure, and then a line with its reason. Out of memory has no
    /// such line.
    pub fn tell<E: Write>(
        self,
        errors: &mut E,
        failure: Failure,
        reason: Option<Reason<'_, '_>>,
    ) -> Failure
        ensures { result ≡ failure }
    {
        let _ = self.say(errors, failure);
        if failure.status() == 4 {
            return failure;
        }
        if let Some(reason) = reason {
            let _ = self.say_reason(errors, reason);
        }
        failure
    }

    /// Which word of a command line is refused, and why. There were `options` options before these words.
    pub(crate) fn word_reason(self, words: &[String], options: usize) -> Option<Reason<'_, '_>> {
        let usage = self.usage;
        match refused_word(words)? {
            WordFault::NoOption(number) => Some(Reason::NoOption {
                number: number.saturating_add(options),
                word: words.get(number)?.as_str(),
                usage,
            }),
            WordFault::TooMany(number) => Some(Reason::TooManyWords {
                number: number.saturating_add(options),
                word: words.get(number)?.as_str(),
                usage,
            }),
        }
    }
}

//! The files that a program opens, and their paths.

ghost use Rattle.std.specs.Prelude.{IfErr, MatchResult, Ok, Err};
ghost use Rattle.nvme_program.specs.Failures.{IsOfFile};
ghost use Rattle.nvme_program.specs.SystemCalls.{SystemCall, OpensImage, OpensScript, ReadsText, ClosesImage};

use crate::failure::Failure;
use crate::holder::{Holder, holder_of};
use nvme_medium::{FileFault, FileMedium, HostFile, Medium};
use script_text::{ReadFault, Source, read_text};
use std::alloc::Global;
use std::fs::{File, OpenOptions};
use std::rt::Files;
use std::{fs, io};

/// Why a file can't be opened.
#[derive(Debug, Drop)]
pub enum Cause {
    /// The system refused to open it, with this error.
    System(io::Error),
    /// It is not a regular file, as an image must be.
    Irregular,
    /// Another program has locked it: this one, if it is known.
    InUse(Option<Holder>),
    /// The system can't lock it.
    Unlocked,
    /// It begins like a script, but was named as an image.
    IsScript,
    /// It was opened, but can't be read.
    Unread,
    /// The cause is unknown.
    Unknown,
}

/// A file that can't be opened: the program's failure, and its cause.
#[derive(Debug, Drop)]
pub struct Unopened {
    pub failure: Failure,
    pub cause: Cause,
}

impl Unopened {
    /// An error of the system.
    fn of(error: io::Error) -> Unopened
        ensures { IsOfFile result.failure }
    {
        Unopened {
            failure: Failure::from(&error),
            cause: Cause::System(error),
        }
    }
}

/// The system in which a program opens its files. For contracts it defines by `step` which states may follow a call,
/// with its answer: a system that can record what it opened, and the content of a closed image, does so here.
pub trait System {
    /// An open image.
    type Image: Medium + Drop;

    /// An open script.
    type Script: Source + Drop;

    ghost step: { Self → SystemCall Self.Image Self.Script → Self → Type 0 };

    /// The text of a named image; empty if it is longer than a script may be. Writes nothing there.
    fn text_of(&mut self, alloc: Global, path: &str) -> Result<Vec<u8>, Unopened>
        ensures step { MatchResult result (λ text. step self.old (ReadsText path.now (Ok text.items)) self.new)
            (λ e. step self.old (ReadsText path.now (Err e.failure)) self.new) }
        ensures failure { IfErr result (λ e. IsOfFile e.failure) };

    /// Opens the image at a path, to read and write it in place.
    fn open_image(&mut self, alloc: Global, path: &str) -> Result<Self::Image, Unopened>
        ensures step { MatchResult result (λ image. step self.old (OpensImage path.now (Ok image)) self.new)
            (λ e. step self.old (OpensImage path.now (Err e.failure)) self.new) }
        ensures failure { IfErr result (λ e. IsOfFile e.failure) };

    /// Opens the script at a path, to read it.
    fn open_script(&mut self, path: &str) -> Result<Self::Script, Unopened>
        ensures step { MatchResult result (λ script. step self.old (OpensScript path.now (Ok script)) self.new)
            (λ e. step self.old (OpensScript path.now (Err e.failure)) self.new) }
        ensures failure { IfErr result (λ e. IsOfFile e.failure) };

    /// Closes an image, which keeps what was written to it.
    fn close_image(&mut self, image: Self::Image)
        ensures step { step self.old (ClosesImage image) self.new };
}

/// The files of the system. Others may change them, so it reveals nothing.
#[derive(Drop)]
pub struct HostFiles<'a, R> {
    /// The runtime that has them.
    pub rt: &'a R,
}

/// An image must be a regular file, after its links are followed: opening a pipe or a device may block, or have an
/// effect.
impl<R: Files<File = File>> System for HostFiles<'_, R> {
    type Image = FileMedium<HostFile>;

    type Script = File;

    ghost step = { λ _ _ _. Unit {0} };

    fn text_of(&mut self, alloc: Global, path: &str) -> Result<Vec<u8>, Unopened> {
        refuse_irregular(self.rt, path)?;
        let mut file = match fs::open(self.rt, path) {
            Ok(file) => file,
            Err(error) => return Err(Unopened::of(error)),
        };
        match read_text(alloc, &mut file) {
            Ok(text) => Ok(text),
            Err(fault) => unread(alloc, fault),
        }
    }

    fn open_image(&mut self, alloc: Global, path: &str) -> Result<FileMedium<HostFile>, Unopened> {
        refuse_irregular(self.rt, path)?;
        match FileMedium::open(self.rt, path) {
            Ok(image) => Ok(image),
            Err(fault) => Err(refused_image(self.rt, alloc, path, fault)),
        }
    }

    fn open_script(&mut self, path: &str) -> Result<File, Unopened> {
        match fs::open(self.rt, path) {
            Ok(file) => Ok(file),
            Err(error) => Err(Unopened::of(error)),
        }
    }

    fn close_image(&mut self, _image: FileMedium<HostFile>) {}
}

/// Refuses a path that is not a regular file.
fn refuse_irregular<R: Files<File = File>>(rt: &R, path: &str) -> Result<(), Unopened>
    ensures { IfErr result (λ e. IsOfFile e.failure) }
{
    match fs::metadata(rt, path) {
        Ok(metadata) if metadata.is_file() => Ok(()),
        Ok(_) => Err(Unopened {
            failure: Failure::File,
            cause: Cause::Irregular,
        }),
        Err(error) => Err(Unopened::of(error)),
    }
}

/// The result for a text that was not read to its end: empty if it is longer than a script may be.
fn unread(alloc: Global, fault: ReadFault) -> Result<Vec<u8>, Unopened>
    ensures { IfErr result (λ e. IsOfFile e.failure) }
{
    match fault {
        ReadFault::TooLong => Ok(Vec::new(alloc)),
        ReadFault::NoMemory => Err(Unopened {
            failure: Failure::Memory,
            cause: Cause::Unknown,
        }),
        ReadFault::Read => Err(Unopened {
            failure: Failure::File,
            cause: Cause::Unread,
        }),
    }
}

/// Why an image can't be opened. `fault` has no error of the system, so this opens the image again to get one.
fn refused_image<R: Files<File = File>>(
    rt: &R,
    alloc: Global,
    path: &str,
    fault: FileFault,
) -> Unopened
    ensures { IsOfFile result.failure }
{
    let cause = match fault {
        FileFault::InUse => Cause::InUse(holder_of(rt, alloc, path)),
        FileFault::NoLock => Cause::Unlocked,
        _ => match OpenOptions::new().read(true).write(true).open(rt, path) {
            Ok(_) => Cause::Unknown,
            Err(error) => Cause::System(error),
        },
    };
    Unopened {
        failure: Failure::from(fault),
        cause,
    }
}

//! Finds the program that holds the lock of a file. Only a message uses the answer.

use script_text::read_text;
use std::alloc::Global;
use std::fs::File;
use std::os::unix::fs::MetadataExt;
use std::rt::Files;
use std::{fmt, fs};

/// A program that holds the lock of a file.
#[derive(Debug, Drop)]
pub struct Holder {
    /// The number of its process.
    pub process: u32,
    /// The line with its name, if that is known.
    pub name: Option<String>,
}

impl fmt::Display for Holder {
    fn fmt<W: fmt::Write>(&self, f: &mut fmt::Formatter<W>) -> fmt::Result {
        match &self.name {
            Some(name) => write!(
                f,
                "process {} ({})",
                self.process,
                name.trim_end().escape_debug()
            ),
            None => write!(f, "process {}", self.process),
        }
    }
}

/// The holder of the lock of the file at a path, if Linux lists it in /proc/locks.
pub(crate) fn holder_of<R: Files<File = File>>(
    rt: &R,
    alloc: Global,
    path: &str,
) -> Option<Holder> {
    let metadata = fs::metadata(rt, path).ok()?;
    let (major, minor) = numbers_of(metadata.dev());
    let inode = metadata.ino();
    let file = format!(in alloc; "{major:02x}:{minor:02x}:{inode}").ok()?;
    let locks = text_at(rt, alloc, "/proc/locks")?;
    let process = locks
        .lines()
        .find_map(|line| process_in(line, file.as_str()))?;
    Some(Holder {
        process,
        name: name_of(rt, alloc, process),
    })
}

/// The major and the minor number of a device, in Linux's encoding.
fn numbers_of(device: u64) -> (u64, u64) {
    let major = (device >> 8) & 0xfff | (device >> 32) & 0xffff_f000;
    let minor = device & 0xff | (device >> 12) & 0xffff_ff00;
    (major, minor)
}

/// The process in a line of /proc/locks, if the line is a lock on this file as `File::try_lock` takes it. Such a line
/// is `3: FLOCK  ADVISORY  WRITE 4711 fe:00:131 0 EOF`.
fn process_in(line: &str, file: &str) -> Option<u32> {
    let mut words = line.split_ascii_whitespace();
    let (_, kind, _, _) = (words.next()?, words.next()?, words.next()?, words.next()?);
    let (process, locked) = (words.next()?, words.next()?);
    if kind != "FLOCK" || locked != file {
        return None;
    }
    process.parse().ok()
}

/// The line with the name of a process.
fn name_of<R: Files<File = File>>(rt: &R, alloc: Global, process: u32) -> Option<String> {
    let path = format!(in alloc; "/proc/{process}/comm").ok()?;
    text_at(rt, alloc, path.as_str())
}

/// The text of a file.
fn text_at<R: Files<File = File>>(rt: &R, alloc: Global, path: &str) -> Option<String> {
    let mut file = fs::open(rt, path).ok()?;
    String::from_utf8(read_text(alloc, &mut file).ok()?).ok()
}

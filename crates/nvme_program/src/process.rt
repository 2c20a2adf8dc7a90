//! What a program does before it runs: it holds its standard streams, and reads the words of its command line.

use std::fs::{File, OpenOptions};
use std::os::fd::AsFd;
use std::rt::{Env, Files};
use std::{env, io};

/// Opens `/dev/null` under the number of a standard stream that the program was started without, and returns it: until
/// it is dropped, no file that is opened later can become that stream.
///
/// # Errors
///
/// If `/dev/null` can't be opened.
pub fn hold_stream<R: Files<File = File>, S: AsFd>(rt: &R, stream: &S) -> io::Result<Option<File>> {
    match stream.as_fd().try_clone_to_owned() {
        Ok(_) => Ok(None),
        Err(_) => {
            let file = OpenOptions::new()
                .read(true)
                .write(true)
                .open(rt, "/dev/null")?;
            Ok(Some(file))
        }
    }
}

/// The words of the command line, the first of which is the program's name. They are pushed one by one, since `collect`
/// ignores a refusal of the capacity that it prefers.
///
/// # Errors
///
/// If memory is refused, or a word is not text.
pub fn command_words<R: Env + AllocGlobal>(rt: &R) -> io::Result<Vec<String>> {
    let mut words = Vec::new(rt.alloc());
    for word in env::args(rt)? {
        words.push(word)?;
    }
    Ok(words)
}

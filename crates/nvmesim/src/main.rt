//! `nvmesim [--any-size] [IMAGE [SCRIPT]]` runs a script of hosts over an image, and prints the answer to each command.
#![tactic(auto)]

use nvme_program::{Failure, command_words, hold_stream};
use nvme_script::run_program;
use std::io;
use std::process::ExitCode;

fn main(rt: HostRuntime) -> io::Result<ExitCode> {
    // In this order: each file that is opened gets the lowest free descriptor.
    let (Ok(_input), Ok(_output), Ok(_errors)) = (
        hold_stream(&rt, &rt.stdin()),
        hold_stream(&rt, &rt.stdout()),
        hold_stream(&rt, &rt.stderr()),
    ) else {
        return Ok(ExitCode::from(Failure::File.status()));
    };
    let words = match command_words(&rt) {
        Ok(words) => words,
        Err(error) => return Ok(refused(&rt, error.kind())),
    };
    let status = run_program(
        &rt,
        words.as_slice(),
        &mut rt.stdin(),
        &mut rt.stdout(),
        &mut rt.stderr(),
    );
    Ok(ExitCode::from(status))
}

/// Reports why the command line was not read, and returns the exit status: no memory, or a word is not UTF-8.
fn refused(rt: &impl Eprint, kind: io::ErrorKind) -> ExitCode {
    match kind {
        io::ErrorKind::OutOfMemory => {
            let _ = rt.eprintln("nvmesim: out of memory");
            ExitCode::from(Failure::Memory.status())
        }
        _ => {
            let _ = rt.eprintln("nvmesim: bad command line");
            let _ = rt.eprintln(
                "nvmesim: a word is no UTF-8; usage: nvmesim [--any-size] [IMAGE [SCRIPT]]",
            );
            ExitCode::from(Failure::CommandLine.status())
        }
    }
}

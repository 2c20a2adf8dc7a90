//! Runs each script that the file `examples` of the working directory lists, and compares its transcript with the
//! expected one next to it.
#![tactic(auto)]

use nvme_script::run_program;
use std::alloc::{AllocError, Global};
use std::fs::File;
use std::process::ExitCode;
use std::rt::Files;
use std::{fs, io};

/// The file that lists the examples' names, one per line. The script is `NAME.nvme`, its expected transcript
/// `NAME.out`.
const LIST: &str = "examples";

fn main(rt: HostRuntime) -> io::Result<ExitCode> {
    let names = fs::read_to_string(&rt, LIST)?;
    let mut all_match = true;
    for name in names.lines() {
        let outcome = compare(&rt, name)?;
        println!(rt; "{name}: {}", outcome.text())?;
        all_match = all_match && outcome == Outcome::AsExpected;
    }
    Ok(if all_match {
        ExitCode::SUCCESS
    } else {
        ExitCode::FAILURE
    })
}

/// How a transcript compares with the expected one.
#[derive(Clone, Copy, Debug, PartialEq, Eq)]
enum Outcome {
    AsExpected,
    Differs,
    NothingKept,
}

impl Outcome {
    fn text(self) -> &'static str {
        match self {
            Outcome::AsExpected => "as expected",
            Outcome::Differs => "the transcript differs from the one that is kept",
            Outcome::NothingKept => "no transcript is kept",
        }
    }
}

/// Runs an example and compares its transcript.
fn compare<R: Files<File = File> + AllocGlobal>(rt: &R, name: &str) -> io::Result<Outcome> {
    let path = format!(in rt.alloc(); "{name}.out")?;
    if !fs::exists(rt, path.as_str())? {
        return Ok(Outcome::NothingKept);
    }
    let kept = fs::read(rt, path.as_str())?;
    if transcript_of(rt, name)? == kept {
        Ok(Outcome::AsExpected)
    } else {
        Ok(Outcome::Differs)
    }
}

/// What the program prints for an example, over a medium in memory: the transcript, then the lines of standard error.
fn transcript_of<R: Files<File = File> + AllocGlobal>(
    rt: &R,
    name: &str,
) -> Result<Vec<u8>, AllocError> {
    let words = words_of(rt.alloc(), name)?;
    let mut shown: Vec<u8> = Vec::new(rt.alloc());
    let mut errors: Vec<u8> = Vec::new(rt.alloc());
    let _ = run_program(
        rt,
        words.as_slice(),
        &mut io::empty(),
        &mut shown,
        &mut errors,
    );
    shown.extend_from_slice(errors.as_slice())?;
    Ok(shown)
}

/// The words `nvmesim - NAME.nvme`.
fn words_of(alloc: Global, name: &str) -> Result<Vec<String>, AllocError> {
    let mut words = Vec::new(alloc);
    words.push(String::from_str(alloc, "nvmesim")?)?;
    words.push(String::from_str(alloc, "-")?)?;
    words.push(format!(in alloc; "{name}.nvme")?)?;
    Ok(words)
}

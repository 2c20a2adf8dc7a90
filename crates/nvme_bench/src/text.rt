//! The text of scripts and transcripts, and plain work on the same number of bytes.

use crate::stopwatch::{BYTES, Measured, since, tell};
use nvme_grammar::{Buffers, parse};
use script_text::{HexText, NoRoom, Spell, Text, data_in};
use std::alloc::{AllocError, Global};
use std::io;
use std::io::ErrorKind;
use std::rt::Clock;
use std::time::Instant;

/// A line that is repeated.
struct Kind {
    name: &'static str,
    line: &'static [u8],
}

/// One short line of each kind.
const KINDS: [Kind; 6] = [
    Kind {
        name: "1,000 reads",
        line: b"read 1 1 0 1\n",
    },
    Kind {
        name: "1,000 writes",
        line: b"write 1 1 0 1 hex:01\n",
    },
    Kind {
        name: "1,000 fills",
        line: b"write 1 1 0 256 fill:5a\n",
    },
    Kind {
        name: "1,000 attachments",
        line: b"attached 1 1\n",
    },
    Kind {
        name: "1,000 comments",
        line: b"# a comment\n",
    },
    Kind {
        name: "1,000 empty lines",
        line: b"\n",
    },
];

/// Measures each call, and prints a line for each.
pub(crate) fn all<R: Clock + AllocGlobal + Print>(rt: &R, rounds: u32) -> io::Result<()> {
    let noise = noise(rt.alloc())?;
    let digits = digits(rt.alloc(), noise.as_slice())?;
    let zeros = vec![in rt.alloc(); 0; BYTES]?;
    data(rt, noise.as_slice(), digits.as_slice(), rounds)?;
    no_data(rt, zeros.as_slice(), rounds)?;
    for kind in &KINDS {
        lines(rt, kind, rounds)?;
    }
    Ok(())
}

/// Data written as digits and read from them, and a plain copy.
fn data<R: Clock + AllocGlobal + Print>(
    rt: &R,
    bytes: &[u8],
    digits: &[u8],
    rounds: u32,
) -> io::Result<()> {
    tell(rt, "256 blocks as digits", shown(rt, bytes, rounds))?;
    tell(rt, "digits as 256 blocks", decoded(rt, digits, rounds))?;
    tell(rt, "copy of these digits", copied(rt, digits, rounds))
}

/// Zeros, which are not written out, and a plain scan.
fn no_data<R: Clock + AllocGlobal + Print>(rt: &R, zeros: &[u8], rounds: u32) -> io::Result<()> {
    tell(rt, "256 blocks of zeros", shown(rt, zeros, rounds))?;
    tell(rt, "scan of these zeros", scanned(rt, zeros, rounds))
}

/// 1,000 lines of a kind.
fn lines<R: Clock + AllocGlobal + Print>(rt: &R, kind: &Kind, rounds: u32) -> io::Result<()> {
    let text = script(rt.alloc(), kind.line)?;
    tell(rt, kind.name, parsed(rt, text.as_slice(), rounds))
}

/// Nonzero bytes in an order that no branch predictor learns.
fn noise(alloc: Global) -> Result<Vec<u8>, AllocError> {
    let mut bytes = Vec::with_capacity(alloc, BYTES)?;
    let mut state = 1_u32;
    for _ in 0..BYTES {
        state = state.wrapping_mul(1_664_525).wrapping_add(1_013_904_223);
        bytes.push(state.to_le_bytes()[3] | 1)?;
    }
    Ok(bytes)
}

/// `hex:` and the digits of these bytes.
fn digits(alloc: Global, bytes: &[u8]) -> io::Result<Vec<u8>> {
    let mut word = Vec::new(alloc);
    word.extend_from_slice(b"hex:")?;
    let mut text = Text::new(alloc)?;
    put(&mut text, bytes)?;
    word.extend_from_slice(text.as_bytes())?;
    Ok(word)
}

/// Replaces the content of a text with bytes in hexadecimal.
fn put(text: &mut Text, bytes: &[u8]) -> io::Result<()> {
    text.clear();
    match HexText(bytes).spell(text) {
        Ok(()) => Ok(()),
        Err(NoRoom) => Err(io::Error::from(ErrorKind::OutOfMemory)),
    }
}

/// A script with 1,000 lines of a kind.
fn script(alloc: Global, line: &[u8]) -> Result<Vec<u8>, AllocError> {
    let mut text = Vec::new(alloc);
    text.extend_from_slice(b"controller 1 host 1\n")?;
    if line.starts_with(b"read") || line.starts_with(b"write") {
        text.extend_from_slice(b"start\n")?;
    }
    for _ in 0..1000 {
        text.extend_from_slice(line)?;
    }
    Ok(text)
}

fn shown<R: Clock + AllocGlobal>(rt: &R, bytes: &[u8], rounds: u32) -> io::Result<Measured> {
    let mut text = Text::new(rt.alloc())?;
    let mut sum = 0_u64;
    let start = Instant::now(rt)?;
    for _ in 0..rounds {
        put(&mut text, bytes)?;
        sum = sum.wrapping_add(text.as_bytes().len() as u64);
    }
    since(rt, start, rounds, sum)
}

fn copied<R: Clock + AllocGlobal>(rt: &R, bytes: &[u8], rounds: u32) -> io::Result<Measured> {
    let mut text = Vec::with_capacity(rt.alloc(), 2 * BYTES)?;
    let mut sum = 0_u64;
    let start = Instant::now(rt)?;
    for _ in 0..rounds {
        text.clear();
        text.extend_from_slice(bytes)?;
        sum = sum.wrapping_add(text.len() as u64);
    }
    since(rt, start, rounds, sum)
}

fn scanned<R: Clock>(rt: &R, bytes: &[u8], rounds: u32) -> io::Result<Measured> {
    let mut sum = 0_u64;
    let start = Instant::now(rt)?;
    for _ in 0..rounds {
        sum = sum.wrapping_add(zero_chunks(bytes));
    }
    since(rt, start, rounds, sum)
}

/// The number of chunks of 16 zeros that the bytes begin with.
fn zero_chunks(bytes: &[u8]) -> u64 {
    let mut rest = bytes;
    let mut count = 0_u64;
    while let Some((first, behind)) = rest.split_first_chunk::<16>() {
        if u128::from_le_bytes(*first) != 0 {
            break;
        }
        count = count.wrapping_add(1);
        rest = behind;
    }
    count
}

fn decoded<R: Clock + AllocGlobal>(rt: &R, word: &[u8], rounds: u32) -> io::Result<Measured> {
    let mut buffer = vec![in rt.alloc(); 0; word.len().max(BYTES)]?;
    let mut sum = 0_u64;
    let start = Instant::now(rt)?;
    for _ in 0..rounds {
        if let Some(data) = data_in(word, 256, buffer.as_mut_slice()) {
            sum = sum.wrapping_add(data.len() as u64);
        }
    }
    since(rt, start, rounds, sum)
}

fn parsed<R: Clock + AllocGlobal>(rt: &R, text: &[u8], rounds: u32) -> io::Result<Measured> {
    let mut room = Buffers::for_text(rt.alloc(), text)?;
    let bytes = room.bytes.as_mut_slice();
    let identifiers = room.identifiers.as_mut_slice();
    let mut sum = 0_u64;
    let start = Instant::now(rt)?;
    for _ in 0..rounds {
        if let Ok(script) = parse(rt.alloc(), text, bytes, identifiers) {
            sum = sum.wrapping_add(1 + script.config.controllers.len() as u64);
        }
    }
    since(rt, start, rounds, sum)
}

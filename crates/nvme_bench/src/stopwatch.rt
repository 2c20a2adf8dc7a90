//! Times of calls, and of plain copies for comparison.

use std::rt::Clock;
use std::time::Instant;
use std::{fmt, io};

/// The bytes of a transfer of 256 blocks.
pub(crate) const BYTES: usize = 131_072;

/// The time of all rounds of a call, and a sum over the results, so that the compiler can't leave out a call.
#[derive(Clone, Copy)]
pub(crate) struct Measured {
    nanoseconds: u128,
    rounds: u32,
    sum: u64,
}

impl fmt::Display for Measured {
    fn fmt<W: fmt::Write>(&self, f: &mut fmt::Formatter<W>) -> fmt::Result {
        let each = self.nanoseconds / u128::from(self.rounds.max(1));
        write!(f, "{each} ns each, sum {}", self.sum)
    }
}

/// Prints a name and its measurement, or returns the error. It has the only `println!` and the only `?` for these
/// lines, since each of them makes the proof of its function longer.
pub(crate) fn tell<R: Print>(rt: &R, name: &str, measured: io::Result<Measured>) -> io::Result<()> {
    let measured = measured?;
    println!(rt; "{name}: {measured}")
}

/// The time since `start`, in which `rounds` rounds ran.
pub(crate) fn since<R: Clock>(
    rt: &R,
    start: Instant,
    rounds: u32,
    sum: u64,
) -> io::Result<Measured> {
    let took = start.elapsed(rt)?;
    Ok(Measured {
        nanoseconds: took.as_nanos(),
        rounds,
        sum,
    })
}

/// Plain copies of the bytes of 256 blocks.
pub(crate) fn copies<R: Clock + AllocGlobal>(rt: &R, rounds: u32) -> io::Result<Measured> {
    let source = vec![in rt.alloc(); 1_u8; BYTES]?;
    let mut target = vec![in rt.alloc(); 0; BYTES]?;
    let mut sum = 0_u64;
    let start = Instant::now(rt)?;
    for i in 0..rounds {
        target.as_mut_slice().copy_from_slice(source.as_slice());
        sum = sum.wrapping_add(u64::from(target[i as usize % BYTES]));
    }
    since(rt, start, rounds, sum)
}

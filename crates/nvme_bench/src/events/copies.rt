//! Plain copies of a block, timed in batches, and of 256 blocks, timed one at a time. The smallest time counts.

use crate::stopwatch::BYTES;
use std::io;
use std::rt::Clock;
use std::time::Instant;

/// The number of copies of a block that are timed together.
const BATCH: u32 = 8;

/// Prints the time of a copy, and a sum of copied bytes.
fn tell<R: Print>(rt: &R, name: &str, nanoseconds: u128, sum: u64) -> io::Result<()> {
    println!(rt; "{name}: {nanoseconds} ns, sum {sum}")
}

/// Copies the `round`-th batch of blocks. Returns how long it took, and the sum of one byte of each block.
fn blocks<R: Clock>(rt: &R, source: &[u8; BYTES], round: u32) -> io::Result<(u128, u64)> {
    let mut block = [0; 512];
    let mut sum = 0_u64;
    let start = Instant::now(rt)?;
    for i in 0..BATCH {
        let at = 512 * (round.wrapping_add(i) as usize % 256);
        block.copy_from_slice(&source[at..at + 512]);
        sum = sum.wrapping_add(u64::from(block[i as usize % 512]));
    }
    Ok((start.elapsed(rt)?.as_nanos(), sum))
}

/// Copies blocks, and prints the time of one copy.
pub(crate) fn of_blocks<R: Clock + Print>(rt: &R, rounds: u32) -> io::Result<()> {
    let source = [1; BYTES];
    let (mut quickest, mut sum) = blocks(rt, &source, 0)?;
    for round in 1..rounds {
        let (took, bytes) = blocks(rt, &source, round)?;
        quickest = quickest.min(took);
        sum = sum.wrapping_add(bytes);
    }
    let each = quickest / u128::from(BATCH);
    tell(rt, "copy of a block", each, sum)
}

/// Copies 256 blocks at once, and prints the time of one copy.
pub(crate) fn of_transfers<R: Clock + Print>(rt: &R, rounds: u32) -> io::Result<()> {
    let source = [1_u8; BYTES];
    let mut target = [0_u8; BYTES];
    let mut quickest = u128::MAX;
    let mut sum = 0_u64;
    for round in 0..rounds {
        let start = Instant::now(rt)?;
        target.copy_from_slice(&source);
        quickest = quickest.min(start.elapsed(rt)?.as_nanos());
        sum = sum.wrapping_add(u64::from(target[round as usize % BYTES]));
    }
    tell(rt, "copy of 256 blocks", quickest, sum)
}

//! Data pointers, and plain copies of the same number of bytes.

ghost use Rattle.std.specs.Prelude.{◌≡◌, length};
ghost use Rattle.nvme_spec.specs.Transfers.{addresses};

use crate::opening::{LIST, PAGES, listed_window};
use crate::stopwatch::{BYTES, Measured, copies, since, tell};
use nvme_mem::Window;
use nvme_prp::{Pieces, gather_block, scatter_block, walk};
use std::io;
use std::rt::Clock;
use std::time::Instant;

/// Measures each call, and prints a line for each.
pub(crate) fn all<R: Clock + AllocGlobal + Print>(rt: &R, rounds: u32) -> io::Result<()> {
    let mut window = listed_window(rt.alloc())?;
    tell(rt, "walk of 256 blocks", walks(rt, &window, rounds))?;
    tell(rt, "copy of 256 blocks", copies(rt, rounds))?;
    moves(rt, &mut window, rounds)?;
    tell(rt, "copy of a block", block_copies(rt, rounds))
}

/// Measures the transfer of a block by the PRP list.
fn moves<R: Clock + Print>(rt: &R, window: &mut Window, rounds: u32) -> io::Result<()> {
    if let Ok(pieces) = walk(window, PAGES, LIST, 131_072) {
        tell(
            rt,
            "gather of a block",
            gathers(rt, window, &pieces, rounds),
        )?;
        tell(
            rt,
            "scatter of a block",
            scatters(rt, window, &pieces, rounds),
        )?;
    }
    Ok(())
}

// Not inlined, so that the code around a walk does not change its time.
#[inline(never)]
fn walks<R: Clock>(rt: &R, window: &Window, rounds: u32) -> io::Result<Measured> {
    let mut sum = 0_u64;
    let start = Instant::now(rt)?;
    for i in 0..rounds {
        if let Ok(pieces) = walk(window, PAGES, LIST, 131_072 - 512 * u64::from(i % 2)) {
            sum = sum.wrapping_add(pieces.parts.len() as u64);
        }
    }
    since(rt, start, rounds, sum)
}

fn gathers<R: Clock>(rt: &R, window: &Window, pieces: &Pieces, rounds: u32) -> io::Result<Measured>
    requires { length (addresses pieces.now.parts.items) ≡ 131072 }
{
    let mut block = [0; 512];
    let mut sum = 0_u64;
    let start = Instant::now(rt)?;
    for i in 0..rounds {
        gather_block(window, pieces, u64::from(i % 256), &mut block);
        sum = sum.wrapping_add(u64::from(block[i as usize % 512]));
    }
    since(rt, start, rounds, sum)
}

fn scatters<R: Clock>(
    rt: &R,
    window: &mut Window,
    pieces: &Pieces,
    rounds: u32,
) -> io::Result<Measured>
    requires { length (addresses pieces.now.parts.items) ≡ 131072 }
{
    let block = [1; 512];
    let mut sum = 0_u64;
    let start = Instant::now(rt)?;
    for i in 0..rounds {
        scatter_block(window, pieces, u64::from(i % 256), &block);
        sum = sum.wrapping_add(
            window
                .piece(PAGES, 512)
                .map_or(0, |bytes| bytes.len() as u64),
        );
    }
    since(rt, start, rounds, sum)
}

fn block_copies<R: Clock + AllocGlobal>(rt: &R, rounds: u32) -> io::Result<Measured> {
    let source = vec![in rt.alloc(); 1_u8; BYTES]?;
    let mut block = [0; 512];
    let mut sum = 0_u64;
    let start = Instant::now(rt)?;
    for i in 0..rounds {
        let at = 512 * (i as usize % 256);
        block.copy_from_slice(&source[at..at + 512]);
        sum = sum.wrapping_add(u64::from(block[i as usize % 512]));
    }
    since(rt, start, rounds, sum)
}

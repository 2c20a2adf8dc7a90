//! Transfers of 256 blocks over an image, and plain system calls for the same number of bytes.

ghost use Rattle.std.specs.Prelude.{◌<◌};

use crate::stopwatch::{BYTES, Measured, copies, since, tell};
use nvme_medium::{BLOCK, Cached, FileMedium, HostFile, Lent, Medium, read_blocks, write_blocks};
use std::fs::{File, OpenOptions};
use std::io;
use std::num::NonZeroUsize;
use std::os::unix::fs::FileExt;
use std::rt::{Clock, Files};
use std::time::Instant;

/// The blocks of a transfer.
const BLOCKS: u64 = 256;

/// Measures each transfer, and prints a line for each.
pub(crate) fn all<R: Clock + AllocGlobal + Print + Files<File = File>>(
    rt: &R,
    image: &str,
    rounds: u32,
) -> io::Result<()> {
    through_a_cache(rt, image, rounds)?;
    by_the_system(rt, image, rounds)?;
    tell(rt, "copy of 256 blocks", copies(rt, rounds))
}

/// Measures transfers as the programs make them.
fn through_a_cache<R: Clock + AllocGlobal + Print + Files<File = File>>(
    rt: &R,
    image: &str,
    rounds: u32,
) -> io::Result<()> {
    let mut bytes = vec![in rt.alloc(); 0x5a_u8; BYTES]?;
    let mut medium = cached_image(rt, image)?;
    over_an_image(rt, &mut medium, bytes.as_mut_slice(), rounds)
}

fn over_an_image<R: Clock + Print, M: Medium>(
    rt: &R,
    medium: &mut M,
    bytes: &mut [u8],
    rounds: u32,
) -> io::Result<()> {
    let written = writes(rt, medium, bytes, rounds);
    tell(rt, "write of 256 blocks", written)?;
    let read = reads(rt, medium, bytes, true, rounds);
    tell(rt, "read of 256 blocks, none kept", read)?;
    let kept = reads(rt, medium, bytes, false, rounds);
    tell(rt, "read of 256 blocks, all kept", kept)
}

/// Measures system calls for the same number of bytes.
fn by_the_system<R: Clock + AllocGlobal + Print + Files<File = File>>(
    rt: &R,
    image: &str,
    rounds: u32,
) -> io::Result<()> {
    let mut bytes = vec![in rt.alloc(); 0x5a_u8; BYTES]?;
    let file = OpenOptions::new().read(true).write(true).open(rt, image)?;
    by_plain_calls(rt, &file, bytes.as_mut_slice(), rounds)
}

/// One call per block, or one call for all.
fn by_plain_calls<R: Clock + Print>(
    rt: &R,
    file: &File,
    bytes: &mut [u8],
    rounds: u32,
) -> io::Result<()> {
    let written = plain_writes(rt, file, bytes, BLOCK, rounds);
    tell(rt, "256 calls of pwrite", written)?;
    let read = plain_reads(rt, file, bytes, BLOCK, rounds);
    tell(rt, "256 calls of pread", read)?;
    let written = plain_writes(rt, file, bytes, BYTES, rounds);
    tell(rt, "one call of pwrite", written)?;
    let read = plain_reads(rt, file, bytes, BYTES, rounds);
    tell(rt, "one call of pread", read)
}

/// An image with a cache of 256 blocks, as the programs use it.
fn cached_image<R: AllocGlobal + Files<File = File>>(
    rt: &R,
    image: &str,
) -> io::Result<Cached<FileMedium<HostFile>>> {
    let file: FileMedium<HostFile> = FileMedium::open(rt, image).map_err(|_| io::Error::from(
        io::ErrorKind::NotFound,
    ))?;
    Cached::new(rt.alloc(), file, NonZeroUsize::new(256).unwrap()).map_err(|_| io::Error::from(
        io::ErrorKind::OutOfMemory,
    ))
}

/// Writes the first 256 blocks and the next 256 in turn.
fn writes<R: Clock, M: Medium>(
    rt: &R,
    medium: &mut M,
    bytes: &[u8],
    rounds: u32,
) -> io::Result<Measured> {
    let mut sum = 0_u64;
    let start = Instant::now(rt)?;
    for i in 0..rounds {
        let first = BLOCKS * u64::from(i % 2);
        if bytes.len() == BYTES
            && medium.blocks() >= 2 * BLOCKS
            && write_blocks(medium, first, BLOCKS, &Lent { bytes }).is_ok()
        {
            sum = sum.wrapping_add(BLOCKS);
        }
    }
    since(rt, start, rounds, sum)
}

/// Reads the first 256 blocks; with `in_turn` these and the next 256 in turn.
fn reads<R: Clock, M: Medium>(
    rt: &R,
    medium: &mut M,
    bytes: &mut [u8],
    in_turn: bool,
    rounds: u32,
) -> io::Result<Measured> {
    let mut sum = 0_u64;
    let start = Instant::now(rt)?;
    for i in 0..rounds {
        let first = if in_turn && i % 2 == 1 { BLOCKS } else { 0 };
        if bytes.len() == BYTES
            && medium.blocks() >= 2 * BLOCKS
            && read_blocks(medium, first, bytes).is_ok()
        {
            sum = sum.wrapping_add(u64::from(bytes[i as usize % BYTES]));
        }
    }
    since(rt, start, rounds, sum)
}

/// Writes the same number of bytes by system calls of `part` bytes each.
fn plain_writes<R: Clock>(
    rt: &R,
    file: &File,
    bytes: &[u8],
    part: usize,
    rounds: u32,
) -> io::Result<Measured>
    requires { 0 < part }
{
    let mut sum = 0_u64;
    let start = Instant::now(rt)?;
    for i in 0..rounds {
        let mut at = (i as usize % 2) as u64 * BYTES as u64;
        for piece in bytes.chunks(part) {
            sum = sum.wrapping_add(file.write_at(piece, at)? as u64);
            at = at.wrapping_add(piece.len() as u64);
        }
    }
    since(rt, start, rounds, sum)
}

/// Reads the same number of bytes by system calls of `part` bytes each.
fn plain_reads<R: Clock>(
    rt: &R,
    file: &File,
    bytes: &mut [u8],
    part: usize,
    rounds: u32,
) -> io::Result<Measured>
    requires { 0 < part }
{
    let mut sum = 0_u64;
    let start = Instant::now(rt)?;
    for i in 0..rounds {
        let mut at = (i as usize % 2) as u64 * BYTES as u64;
        for piece in bytes.chunks_mut(part) {
            sum = sum.wrapping_add(file.read_at(piece, at)? as u64);
            at = at.wrapping_add(piece.len() as u64);
        }
    }
    since(rt, start, rounds, sum)
}

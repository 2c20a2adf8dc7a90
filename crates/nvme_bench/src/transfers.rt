//! Commands on 256 blocks, the comparison of a block, and plain work on the same number of bytes.

ghost use Rattle.std.specs.Prelude.{IfOk};
ghost use Rattle.nvme_exec.specs.Carrying.{CanExecute};

use crate::opening::{LIST, PAGES, configuration, listed_window, want_of_memory};
use crate::stopwatch::{BYTES, Measured, copies, since, tell};
use nvme_exec::execute;
use nvme_medium::{Medium, MemMedium, lanes_equal};
use nvme_mem::Window;
use nvme_ns::Spaces;
use nvme_wire::{Sqe, SqeFields};
use std::alloc::Global;
use std::io;
use std::rt::Clock;
use std::time::Instant;

/// The measured commands, with their opcodes.
const COMMANDS: [(&str, u8); 3] = [
    ("Write of 256 blocks", 0x01),
    ("Read of 256 blocks", 0x02),
    ("Compare of 256 blocks", 0x05),
];

/// Measures each call, and prints a line for each.
pub(crate) fn all<R: Clock + AllocGlobal + Print>(rt: &R, rounds: u32) -> io::Result<()> {
    tell(rt, "copy of 256 blocks", copies(rt, rounds))?;
    tell(rt, "comparison of 256 blocks", comparisons(rt, rounds))?;
    for (name, opcode) in COMMANDS {
        tell(rt, name, commands(rt, opcode, rounds))?;
    }
    tell(rt, "a block by lanes", lanes(rt, rounds))?;
    tell(rt, "a block by ==", slices(rt, rounds))
}

fn comparisons<R: Clock + AllocGlobal>(rt: &R, rounds: u32) -> io::Result<Measured> {
    let one = vec![in rt.alloc(); 1_u8; BYTES]?;
    let mut other = vec![in rt.alloc(); 1_u8; BYTES]?;
    let mut sum = 0_u64;
    let start = Instant::now(rt)?;
    for i in 0..rounds {
        other[BYTES - 1] = (i % 2) as u8;
        sum = sum.wrapping_add(u64::from(one.as_slice() == other.as_slice()));
    }
    since(rt, start, rounds, sum)
}

/// A namespace of 256 blocks of one host, over a medium in memory.
#[derive(Drop)]
struct Bench<M> {
    spaces: Spaces,
    medium: M,
    window: Window,
}

/// The same over any medium.
fn bench_over<M: Medium + Drop>(alloc: Global, medium: M) -> io::Result<Bench<M>>
    ensures ready { IfOk result (λ bench. CanExecute bench.spaces (M.size bench.medium) 1) }
{
    let config = configuration(alloc, 1)?;
    let Ok(spaces) = Spaces::new(&config, medium.blocks()) else {
        return Err(want_of_memory());
    };
    if spaces.host_of(1).is_none() {
        return Err(want_of_memory());
    }
    Ok(Bench {
        spaces,
        medium,
        window: listed_window(alloc)?,
    })
}

/// A command on all blocks of the namespace, with a PRP list.
fn entry(opcode: u8) -> Sqe {
    Sqe::from(SqeFields {
        opcode,
        nsid: 1,
        prp1: PAGES,
        prp2: LIST,
        cdw12: 255,
        ..SqeFields::default()
    })
}

fn commands<R: Clock + AllocGlobal>(rt: &R, opcode: u8, rounds: u32) -> io::Result<Measured> {
    let bytes = vec![in rt.alloc(); 0_u8; BYTES]?;
    let mut bench = bench_over(rt.alloc(), MemMedium::of(bytes))?;
    executions(rt, &mut bench, &entry(opcode), rounds)
}

fn executions<R: Clock, M: Medium>(
    rt: &R,
    bench: &mut Bench<M>,
    sqe: &Sqe,
    rounds: u32,
) -> io::Result<Measured>
    requires ready { CanExecute bench.old.spaces (M.size bench.old.medium) 1 }
{
    let mut sum = 0_u64;
    let start = Instant::now(rt)?;
    for _ in 0..rounds {
        sum = sum.wrapping_add(execute_once(bench, sqe));
    }
    since(rt, start, rounds, sum)
}

/// Executes an entry, and returns its status code.
fn execute_once<M: Medium>(bench: &mut Bench<M>, sqe: &Sqe) -> u64
    requires ready { CanExecute bench.old.spaces (M.size bench.old.medium) 1 }
    ensures ready { CanExecute bench.new.spaces (M.size bench.new.medium) 1 }
{
    let outcome = execute(
        &mut bench.spaces,
        &mut bench.medium,
        &mut bench.window,
        1,
        sqe,
        false,
    );
    u64::from(outcome.status.sc)
}

fn lanes<R: Clock + AllocGlobal>(rt: &R, rounds: u32) -> io::Result<Measured> {
    let one = vec![in rt.alloc(); 1_u8; BYTES]?;
    let other = vec![in rt.alloc(); 1_u8; BYTES]?;
    let mut sum = 0_u64;
    let start = Instant::now(rt)?;
    for i in 0..rounds {
        let at = 512 * (i as usize % 256);
        let same = lanes_equal(&one[at..at + 512], &other[at..at + 512]);
        sum = sum.wrapping_add(u64::from(same));
    }
    since(rt, start, rounds, sum)
}

fn slices<R: Clock + AllocGlobal>(rt: &R, rounds: u32) -> io::Result<Measured> {
    let one = vec![in rt.alloc(); 1_u8; BYTES]?;
    let other = vec![in rt.alloc(); 1_u8; BYTES]?;
    let mut sum = 0_u64;
    let start = Instant::now(rt)?;
    for i in 0..rounds {
        let at = 512 * (i as usize % 256);
        let same = one[at..at + 512] == other[at..at + 512];
        sum = sum.wrapping_add(u64::from(same));
    }
    since(rt, start, rounds, sum)
}

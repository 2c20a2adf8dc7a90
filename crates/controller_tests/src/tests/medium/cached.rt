//! Caches: the blocks that they keep, and those that they drop.

use super::files::{Slow, read, write};
use crate::tests::asserting::expect_eq;
use nvme_medium::{Cached, Failing, FileMedium, HostFile, Medium, MediumFault, MemMedium};
use std::alloc::Global;
use std::fs;
use std::num::NonZeroUsize;
use std::test::Fail;

/// A cache of two blocks over a medium.
fn cached_twice<M: Medium + Drop>(alloc: Global, inner: M) -> Result<Cached<M>, &'static str> {
    let two = NonZeroUsize::new(2).ok_or("not 0")?;
    Cached::new(alloc, inner, two)
        .ok()
        .ok_or("memory was refused")
}

/// A medium of 8 blocks of zeros, one call of which fails.
fn failing_once(alloc: Global, calls: u64) -> Result<Failing<MemMedium>, Fail> {
    Ok(Failing::new(MemMedium::new(alloc, &[0; 4096])?, calls))
}

#[test]
fn a_block_whose_write_failed_is_read_anew(rt: HostRuntime) -> Result<(), Fail> {
    let mut cached = cached_twice(rt.alloc(), failing_once(rt.alloc(), 1)?)?;
    expect_eq(&rt, write(&mut cached, 0, 0x5a), Ok(()));
    expect_eq(&rt, write(&mut cached, 0, 0x33), Err("fault"));
    expect_eq(&rt, read(&mut cached, 0), Ok(0x5a));
    Ok(())
}

#[test]
fn kept_blocks_are_read_without_a_call(rt: HostRuntime) -> Result<(), Fail> {
    let cases: [(u64, &[u64], u64); 2] = [(1, &[0, 0], 1), (3, &[0, 1, 0, 2, 0], 1)];
    for (calls, kept, forgotten) in cases {
        let mut cached = cached_twice(rt.alloc(), failing_once(rt.alloc(), calls)?)?;
        for i in kept {
            assert_eq!(rt;
                read(&mut cached, *i),
                Ok(0),
                "block {i} behind {calls} calls"
            );
        }
        expect_eq(&rt, read(&mut cached, forgotten), Err("fault"));
    }
    Ok(())
}

/// Reads a block onto the middle of bytes that are 7, and returns the bytes at its ends and next to them; as an error
/// if the read failed.
fn read_onto<M: Medium>(medium: &mut M, i: u64) -> Result<[u8; 4], [u8; 4]> {
    let mut bytes = [7; 1024];
    if i >= medium.blocks() {
        return Err([0; 4]);
    }
    let read = medium.read_onto(i, &mut bytes[256..768]);
    let seen = [bytes[255], bytes[256], bytes[767], bytes[768]];
    match read {
        Ok(()) => Ok(seen),
        Err(MediumFault) => Err(seen),
    }
}

#[test]
fn a_block_is_read_onto_bytes_that_a_fault_leaves(rt: HostRuntime) -> Result<(), Fail> {
    let mut medium = failing_once(rt.alloc(), 2)?;
    expect_eq(&rt, write(&mut medium, 3, 0x5a), Ok(()));
    let mut cached = cached_twice(rt.alloc(), medium)?;
    expect_eq(&rt, read_onto(&mut cached, 3), Ok([7, 0x5a, 0x5a, 7]));
    expect_eq(&rt, read_onto(&mut cached, 3), Ok([7, 0x5a, 0x5a, 7]));
    expect_eq(&rt, read_onto(&mut cached, 0), Err([7; 4]));
    expect_eq(&rt, read_onto(&mut cached, 0), Ok([7, 0, 0, 7]));
    Ok(())
}

/// Writes three blocks through a cache of two, reads the first, and returns the medium.
fn write_three<M: Medium + Drop>(alloc: Global, inner: M) -> Result<M, &'static str> {
    let mut cached = cached_twice(alloc, inner)?;
    for i in 0..3 {
        write(&mut cached, i, i as u8 + 1)?;
    }
    match read(&mut cached, 0)? {
        1 => Ok(cached.into_inner()),
        _ => Err("block 0 is another"),
    }
}

#[test]
fn writes_reach_the_medium(rt: HostRuntime) -> Result<(), Fail> {
    let mut medium = write_three(rt.alloc(), MemMedium::new(rt.alloc(), &[0; 4096])?)?;
    let path = "cached.img";
    fs::write(&rt, path, [0_u8; 4096].as_slice())?;
    let opened: FileMedium<HostFile> = FileMedium::open(&rt, path).ok().ok_or("no file")?;
    let _ = write_three(rt.alloc(), opened)?;
    let mut file: FileMedium<HostFile> = FileMedium::open(&rt, path).ok().ok_or("no file")?;
    for (i, byte) in [(0, 1), (1, 2), (2, 3), (3, 0)] {
        expect_eq(&rt, read(&mut medium, i), Ok(byte));
        expect_eq(&rt, read(&mut file, i), Ok(byte));
    }
    fs::remove_file(&rt, path)?;
    Ok(())
}

#[test]
fn a_flush_reaches_the_medium(rt: HostRuntime) -> Result<(), Fail> {
    let mut cached = cached_twice(rt.alloc(), FileMedium::over(Slow::new()))?;
    let flushes = [cached.flush(), cached.flush(), cached.flush()];
    expect_eq(&rt, flushes, [Err(MediumFault), Ok(()), Err(MediumFault)]);
    Ok(())
}

#[test]
fn a_refused_cache_hands_the_medium_back(rt: HostRuntime) -> Result<(), Fail> {
    let medium = MemMedium::new(rt.alloc(), &[7; 1024])?;
    let (medium, _) = Cached::new(rt.alloc(), medium, NonZeroUsize::MAX)
        .err()
        .ok_or("a cache of all memory")?;
    assert_eq!(rt; medium.as_bytes(), [7; 1024].as_slice());
    Ok(())
}

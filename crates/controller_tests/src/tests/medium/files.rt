//! Media over files: one that moves a few bytes a call, and one of the system.

ghost use Rattle.std.specs.Prelude.{◌≡◌, length};

use crate::tests::asserting::{expect_eq, expect_that};
use nvme_medium::{FileFault, FileMedium, HostFile, Medium, MediumFault, RawFile};
use std::fs;
use std::test::Fail;

/// A file of 1,100 bytes that moves at most 200 in a call. Of its syncs the first fails, and then every other one.
#[derive(Drop)]
pub(crate) struct Slow {
    bytes: [u8; 1100],
    is_synced: bool,
    failures: u64,
    ghost whole: { length bytes ≡ 1100 },
}

impl Slow {
    pub(crate) fn new() -> Slow {
        Slow {
            bytes: [0; 1100],
            is_synced: true,
            failures: 0,
        }
    }
}

impl RawFile for Slow {
    ghost use Rattle.std.specs.Prelude.{true};
    ghost use Rattle.std.proofs.Common.{rules};

    ghost tells = { true };

    ghost bytes = { λ file. file.bytes };

    ghost failures = { λ file. file.failures };

    ghost size = { λ _. 1100 };

    ghost countable = { λ _. Prim.search rules };

    ghost whole = { λ file _. file.whole };

    fn len(&self) -> u64 {
        1100
    }

    fn read_at(&mut self, offset: u64, part: &mut [u8]) -> Result<usize, MediumFault> {
        let n = part.len().min(200);
        let at = offset as usize;
        part[..n].copy_from_slice(&self.bytes[at..at + n]);
        Ok(n)
    }

    fn write_at(&mut self, offset: u64, part: &[u8]) -> Result<usize, MediumFault> {
        let n = part.len().min(200);
        let at = offset as usize;
        self.bytes[at..at + n].copy_from_slice(&part[..n]);
        Ok(n)
    }

    fn sync(&mut self) -> Result<(), MediumFault> {
        self.is_synced = !self.is_synced;
        if self.is_synced {
            return Ok(());
        }
        self.failures = self.failures.saturating_add(1);
        Err(MediumFault)
    }
}

/// Reads a block.
fn read_whole<M: Medium>(medium: &mut M, i: u64) -> Result<[u8; 512], &'static str> {
    let mut block = [9; 512];
    if i >= medium.blocks() {
        return Err("no such block");
    }
    match medium.read(i, &mut block) {
        Ok(()) => Ok(block),
        Err(MediumFault) => Err("fault"),
    }
}

/// Reads a block, and returns its last byte.
pub(crate) fn read<M: Medium>(medium: &mut M, i: u64) -> Result<u8, &'static str> {
    read_whole(medium, i).map(|block| block[511])
}

/// Fills a block with a byte.
pub(crate) fn write<M: Medium>(medium: &mut M, i: u64, byte: u8) -> Result<(), &'static str> {
    if i >= medium.blocks() {
        return Err("no such block");
    }
    match medium.write(i, &[byte; 512]) {
        Ok(()) => Ok(()),
        Err(MediumFault) => Err("fault"),
    }
}

#[test]
fn moves_a_block_in_parts(rt: HostRuntime) -> Result<(), Fail> {
    let mut medium = FileMedium::over(Slow::new());
    expect_eq(&rt, medium.blocks(), 2);
    expect_eq(&rt, write(&mut medium, 1, 0x5a), Ok(()));
    expect_eq(&rt, read_whole(&mut medium, 1), Ok([0x5a; 512]));
    expect_eq(&rt, read_whole(&mut medium, 0), Ok([0; 512]));
    Ok(())
}

#[test]
fn a_flush_syncs_the_file(rt: HostRuntime) -> Result<(), Fail> {
    let mut medium = FileMedium::over(Slow::new());
    let flushes = [medium.flush(), medium.flush(), medium.flush()];
    expect_eq(&rt, flushes, [Err(MediumFault), Ok(()), Err(MediumFault)]);
    Ok(())
}

#[test]
fn a_file_is_written_in_place(rt: HostRuntime) -> Result<(), Fail> {
    let path = "in-place.img";
    let mut bytes = [7; 1100];
    fs::write(&rt, path, bytes.as_slice())?;
    let mut medium: FileMedium<HostFile> = FileMedium::open(&rt, path).ok().ok_or("no file")?;
    expect_eq(&rt, (medium.blocks(), read(&mut medium, 1)), (2, Ok(7)));
    expect_eq(&rt, write(&mut medium, 1, 0x5a), Ok(()));
    expect_that(&rt, medium.flush().is_ok());
    bytes[512..1024].fill(0x5a);
    expect_eq(&rt, fs::read(&rt, path)?.as_slice(), bytes.as_slice());
    fs::write(&rt, path, [].as_slice())?;
    expect_eq(&rt, read(&mut medium, 1), Err("fault"));
    fs::remove_file(&rt, path)?;
    Ok(())
}

#[test]
fn a_flush_reaches_the_system(rt: HostRuntime) -> Result<(), Fail> {
    let mut nothing: FileMedium<HostFile> = FileMedium::open(&rt, "/dev/null")
        .ok()
        .ok_or("no file")?;
    expect_eq(&rt, nothing.blocks(), 0);
    assert!(rt;
        nothing.flush().is_err(),
        "a device without a disk can't be synced"
    );
    Ok(())
}

#[test]
fn what_cannot_be_opened_is_no_medium(rt: HostRuntime) -> Result<(), Fail> {
    for path in ["no-such-file", ".", ""] {
        let opened: Result<FileMedium<HostFile>, FileFault> = FileMedium::open(&rt, path);
        assert_eq!(rt; opened.err(), Some(FileFault::NoFile));
    }
    Ok(())
}

//! Scripts over streams that fail in the middle.

use super::lines::{HELLO, carried};
use super::streams::{FailingReader, FailingWriter};
use crate::tests::asserting::{expect_eq, expect_that};
use nvme_medium::MemMedium;
use nvme_script::{ScriptFault, run_program, run_script};
use std::fs;
use std::test::Fail;

/// A byte is written to each of the blocks 0, 1 and 2.
const THREE_WRITES: &[&[u8]] = &[
    b"write 1 1 0 1 hex:01",
    b"write 1 1 1 1 hex:02",
    b"write 1 1 2 1 hex:03",
];

/// The number of line feeds of a text.
fn lines_in(text: &[u8]) -> usize {
    text.iter().filter(|byte| **byte == b'\n').count()
}

/// The number of the three commands whose bytes are on the medium, if those are the first.
fn commands_done(medium: &MemMedium) -> Option<usize> {
    let bytes = medium.as_bytes();
    let firsts = [
        bytes.get(0).copied()?,
        bytes.get(512).copied()?,
        bytes.get(1024).copied()?,
    ];
    match firsts {
        [0, 0, 0] => Some(0),
        [1, 0, 0] => Some(1),
        [1, 2, 0] => Some(2),
        [1, 2, 3] => Some(3),
        _ => None,
    }
}

#[test]
fn a_reader_that_fails_leaves_all_as_it_was(rt: HostRuntime) -> Result<(), Fail> {
    let text = carried(rt.alloc(), THREE_WRITES)?;
    for failing in 0..20 {
        let mut reader = FailingReader::new(text.as_slice(), failing);
        let mut written: Vec<u8> = Vec::new(rt.alloc());
        let medium = MemMedium::new(rt.alloc(), &[0; 32768])?;
        let (fault, medium) = run_script(rt.alloc(), &mut reader, &mut written, medium)
            .err()
            .ok_or("a read failed unseen")?;
        assert_eq!(rt; fault, ScriptFault::Read, "at read {failing}");
        assert!(rt; reader.calls == failing + 1, "nothing is read behind it");
        assert_eq!(rt; commands_done(&medium), Some(0), "at read {failing}");
        assert!(rt; written.is_empty(), "at read {failing}");
    }
    Ok(())
}

/// A text is read exactly to its end, and each line is one write.
#[test]
fn streams_are_called_no_more_than_once(rt: HostRuntime) -> Result<(), Fail> {
    let text = carried(rt.alloc(), THREE_WRITES)?;
    let mut reader = FailingReader::new(text.as_slice(), usize::MAX);
    let mut writer = FailingWriter::at_write(rt.alloc(), usize::MAX);
    let medium = MemMedium::new(rt.alloc(), &[0; 32768])?;
    let ran = run_script(rt.alloc(), &mut reader, &mut writer, medium);
    expect_that(&rt, ran.is_ok());
    // Each read except the last gives seven bytes, and one more read gives none.
    expect_eq(&rt, reader.calls, text.len().div_ceil(7).saturating_add(1));
    expect_eq(&rt, writer.writes, 16);
    Ok(())
}

#[test]
fn a_writer_that_fails_stops_behind_its_command(rt: HostRuntime) -> Result<(), Fail> {
    let text = carried(rt.alloc(), THREE_WRITES)?;
    let mut refused: usize = 0;
    for failing in [0_usize, 1, 4, 9, 15, 16] {
        let mut writer = FailingWriter::at_write(rt.alloc(), failing);
        let medium = MemMedium::new(rt.alloc(), &[0; 32768])?;
        match run_script(rt.alloc(), &mut text.as_slice(), &mut writer, medium) {
            Ok(medium) => {
                expect_eq(&rt, commands_done(&medium), Some(3));
                expect_eq(&rt, lines_in(writer.kept.as_slice()), 16);
            }
            Err((fault, medium)) => {
                refused = failing.saturating_add(1);
                assert_eq!(rt; fault, ScriptFault::Write, "at write {failing}");
                assert!(rt; writer.writes == refused, "nothing is written behind it");
                let told = lines_in(writer.kept.as_slice());
                // The driver comes up, and each request takes five events, of which the fourth executes it.
                let events = told.checked_add(1).ok_or("no such count")?;
                assert_eq!(rt;
                    commands_done(&medium),
                    Some(events / 5),
                    "at write {failing}"
                );
            }
        }
    }
    assert!(rt;
        refused == 16,
        "each line is one write at least, and the last write is reached"
    );
    Ok(())
}

/// Each write of the transcript succeeds, and its last flush fails, which no stream of the system does. The image has
/// what was written.
#[test]
fn a_flush_that_fails_is_told(rt: HostRuntime) -> Result<(), Fail> {
    let text = carried(rt.alloc(), HELLO)?;
    let path = "no-transcript.img";
    fs::write(&rt, path, [0; 32768].as_slice())?;
    let mut words = Vec::new(rt.alloc());
    words.push(String::from_str(rt.alloc(), "nvmesim")?)?;
    words.push(String::from_str(rt.alloc(), path)?)?;
    let mut writer = FailingWriter::at_flush(rt.alloc(), 0);
    let mut errors: Vec<u8> = Vec::new(rt.alloc());
    let status = run_program(
        &rt,
        words.as_slice(),
        &mut text.as_slice(),
        &mut writer,
        &mut errors,
    );
    let left = fs::read(&rt, path)?;
    fs::remove_file(&rt, path)?;
    expect_eq(&rt, status, 2);
    expect_eq(
        &rt,
        errors.as_slice(),
        b"nvmesim: file fault\nnvmesim: standard output can't be written\n".as_slice(),
    );
    expect_that(&rt, left.starts_with(b"Hello\x00"));
    Ok(())
}

//! Scripts over a medium that keeps what is written, and over one that fails one call.

use super::lines::{carried, lines_with};
use nvme_medium::{Failing, MemMedium};
use nvme_script::run_script;
use std::alloc::{AllocError, Global};
use std::process::Abort;
use std::test::Fail;

/// Block 3 is read, written, read, written and read.
const ONE_BLOCK: &[&[u8]] = &[
    b"read 1 1 3 1",
    b"write 1 1 3 1 hex:0a",
    b"read 1 1 3 1",
    b"write 1 1 3 1 hex:0b",
    b"read 1 1 3 1",
];

/// The answers of `ONE_BLOCK` if the call of the medium with each number fails: each command makes one call.
const ANSWERS: [&[u8]; 6] = [
    b"poll 1 1 2:81 00000000
poll 1 2 0:00 00000000
poll 1 3 0:00 00000000 512 0a
poll 1 4 0:00 00000000
poll 1 5 0:00 00000000 512 0b
",
    b"poll 1 1 0:00 00000000 512 -
poll 1 2 2:80 00000000
poll 1 3 0:00 00000000 512 -
poll 1 4 0:00 00000000
poll 1 5 0:00 00000000 512 0b
",
    b"poll 1 1 0:00 00000000 512 -
poll 1 2 0:00 00000000
poll 1 3 2:81 00000000
poll 1 4 0:00 00000000
poll 1 5 0:00 00000000 512 0b
",
    b"poll 1 1 0:00 00000000 512 -
poll 1 2 0:00 00000000
poll 1 3 0:00 00000000 512 0a
poll 1 4 2:80 00000000
poll 1 5 0:00 00000000 512 0a
",
    b"poll 1 1 0:00 00000000 512 -
poll 1 2 0:00 00000000
poll 1 3 0:00 00000000 512 0a
poll 1 4 0:00 00000000
poll 1 5 2:81 00000000
",
    b"poll 1 1 0:00 00000000 512 -
poll 1 2 0:00 00000000
poll 1 3 0:00 00000000 512 0a
poll 1 4 0:00 00000000
poll 1 5 0:00 00000000 512 0b
",
];

/// The transcript of requests over a medium of 64 blocks of zeros whose call with this number fails.
fn transcript_of<R: Abort + AllocGlobal>(
    rt: &R,
    requests: &[&[u8]],
    failing: u64,
) -> Result<Vec<u8>, Fail> {
    let text = carried(rt.alloc(), requests)?;
    let mut written: Vec<u8> = Vec::new(rt.alloc());
    let medium = Failing::new(MemMedium::new(rt.alloc(), &[0; 32768])?, failing);
    let run = run_script(rt.alloc(), &mut text.as_slice(), &mut written, medium);
    assert!(rt; run.is_ok(), "at call {failing}");
    Ok(written)
}

#[test]
fn a_fault_of_the_medium_is_told_by_its_own_command(rt: HostRuntime) -> Result<(), Fail> {
    for failing in 0..6 {
        let written = transcript_of(&rt, ONE_BLOCK, failing as u64)?;
        assert_eq!(rt;
            lines_with(rt.alloc(), written.as_slice(), b"poll")?.as_slice(),
            ANSWERS[failing],
            "at call {failing}"
        );
    }
    Ok(())
}

/// Runs of requests, and the executions' lines if the call with each number fails: the last line is that of a run
/// without a failure.
const RUNS: [(&[&[u8]], &[&[u8]]); 4] = [
    (
        &[b"write 1 1 0 1 hex:48656c6c6f", b"read 1 1 0 1"],
        &[
            b"2:80 0, 0:00 0, ",
            b"0:00 0, 2:81 0, ",
            b"0:00 0, 0:00 0, ",
        ],
    ),
    (
        &[b"write 1 1 0 3 fill:5a"],
        &[b"2:80 0, ", b"2:80 0, ", b"2:80 0, ", b"0:00 0, "],
    ),
    (
        &[b"compare 1 1 0 1 hex:00", b"compare 1 1 0 1 hex:01"],
        &[
            b"2:81 0, 2:85 0, ",
            b"0:00 0, 2:81 0, ",
            b"0:00 0, 2:85 0, ",
        ],
    ),
    (
        &[b"zeroes 1 1 0 2", b"flush 1 1"],
        &[
            b"2:80 0, 0:00 0, ",
            b"2:80 0, 0:00 0, ",
            b"0:00 0, 2:80 0, ",
            b"0:00 0, 0:00 0, ",
        ],
    ),
];

/// The results of a transcript's executions, in order.
fn executed_in(alloc: Global, transcript: &[u8]) -> Result<Vec<u8>, AllocError> {
    let mut shown = Vec::new(alloc);
    for line in transcript.split(|byte| *byte == b'\n') {
        if let Some(posted) = line.strip_prefix(b"execute 1 0 posted ".as_slice()) {
            shown.extend_from_slice(posted)?;
            shown.extend_from_slice(b", ")?;
        }
    }
    Ok(shown)
}

#[test]
fn each_call_of_the_medium_fails_in_turn(rt: HostRuntime) -> Result<(), Fail> {
    for (requests, shown) in RUNS {
        for (failing, expected) in shown.iter().enumerate() {
            let written = transcript_of(&rt, requests, failing as u64)?;
            let executed = executed_in(rt.alloc(), written.as_slice())?;
            assert_eq!(rt; executed.as_slice(), *expected, "at call {failing}");
        }
    }
    Ok(())
}

/// A Write of three blocks whose second block fails leaves the first written, and the third as it was.
#[test]
fn a_write_stops_at_the_block_that_fails(rt: HostRuntime) -> Result<(), Fail> {
    let requests: [&[u8]; 3] = [
        b"write 1 1 0 3 fill:5a",
        b"compare 1 1 0 1 fill:5a",
        b"compare 1 1 2 1 fill:00",
    ];
    let written = transcript_of(&rt, &requests, 1)?;
    assert_eq!(rt;
        lines_with(rt.alloc(), written.as_slice(), b"execute")?.as_slice(),
        b"execute 1 0 posted 2:80 0\nexecute 1 0 posted 0:00 0\nexecute 1 0 posted 0:00 0\n".as_slice()
    );
    Ok(())
}

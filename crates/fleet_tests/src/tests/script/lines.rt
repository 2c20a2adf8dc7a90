//! Lines of scripts and transcripts.

use std::alloc::{AllocError, Global};

/// One controller with a shared namespace of 64 blocks: the first four lines of many scripts.
const SETUP: &[u8] = b"controller 1 host 0xa1
namespace 1 blocks 64 shared
attached 1 1
start
";

/// A Write of a block, and a Read of it.
pub const HELLO: &[&[u8]] = &[b"write 1 1 0 1 hex:48656c6c6f", b"read 1 1 0 1"];

/// The setup, after which the driver of controller 1 comes up, and each of these requests is placed, rung, fetched,
/// executed and delivered.
pub(crate) fn carried(alloc: Global, requests: &[&[u8]]) -> Result<Vec<u8>, AllocError> {
    let mut text = Vec::new(alloc);
    text.extend_from_slice(SETUP)?;
    text.extend_from_slice(b"up 1\n")?;
    for request in requests {
        text.extend_from_slice(request)?;
        text.extend_from_slice(b"\nring 1\nfetch 1 1\nexecute 1 0\npoll 1\n")?;
    }
    Ok(text)
}

/// The lines of a transcript that begin with `front`.
pub(crate) fn lines_with(
    alloc: Global,
    transcript: &[u8],
    front: &[u8],
) -> Result<Vec<u8>, AllocError> {
    let mut kept = Vec::new(alloc);
    for line in transcript.split(|byte| *byte == b'\n') {
        if line.starts_with(front) {
            kept.extend_from_slice(line)?;
            kept.push(b'\n')?;
        }
    }
    Ok(kept)
}

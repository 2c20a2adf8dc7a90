//! The run of a script.

use crate::Came;
use crate::opening::{is_marked, marked};
use nvme_script::{ScriptFault, run_script};
use nvme_wire::NoMemory;
use std::alloc::Global;
use std::io;
use std::io::Write;

/// It writes a block. Its transcript has `TRANSCRIPT` bytes.
const SCRIPT: &[u8] = b"controller 1 host 0xa1
namespace 1 blocks 8 shared
attached 1 1
start
up 1
write 1 1 0 1 hex:01
ring 1
fetch 1 1
execute 1 0
poll 1
";

const TRANSCRIPT: u64 = 90;

/// Counts the bytes that are written.
#[derive(Drop)]
struct Counting {
    bytes: u64,
}

impl Write for Counting {
    fn write(&mut self, buf: &[u8]) -> io::Result<usize> {
        self.bytes = self.bytes.saturating_add(buf.len() as u64);
        Ok(buf.len())
    }

    fn flush(&mut self) -> io::Result<()> {
        Ok(())
    }
}

/// If memory is refused, the medium is returned, and nothing was written.
pub(crate) fn script(alloc: Global) -> Result<Came, NoMemory> {
    let medium = marked(alloc)?;
    let mut written = Counting { bytes: 0 };
    Ok(
        match run_script(alloc, &mut &SCRIPT[..], &mut written, medium) {
            Ok(medium) => {
                Came::done(written.bytes == TRANSCRIPT && medium.as_bytes().first() == Some(&1))
            }
            Err((fault, medium)) => Came::refused(
                fault == ScriptFault::NoMemory && written.bytes == 0 && is_marked(&medium),
            ),
        },
    )
}

//! A file of the system. Each call except `len` makes one system call, whose effect no contract states: audit this file
//! by hand.

ghost use Rattle.std.specs.Prelude.{◌≡◌, ◌<◌, ◌^◌, Ok, IfOk};
ghost use Rattle.nvme_spec.specs.Blocks.{CountsFaults};

use crate::{BLOCK, MediumFault, RawFile};
use std::fs::File;
use std::io;
use std::os::unix::fs::FileExt;

/// A file of the system, with the length that it had when it was opened. Others may change it and a disk may return
/// anything, so it reveals no bytes.
#[derive(Drop)]
pub struct HostFile {
    file: File,
    len: u64,
    failures: u64,
    ghost countable: { len < 2 ^ 64 },
}

impl HostFile {
    /// An open file of this length, none of whose calls has failed.
    pub(crate) fn new(file: File, len: u64) -> Self
        ensures len { result.len ≡ len }
        ensures unfailed { result.failures ≡ 0 }
    {
        HostFile {
            file,
            len,
            failures: 0,
        }
    }

    /// The number of bytes that a system call moved. An error is a fault, which is counted; so is a call that moved no
    /// byte.
    fn counted(&mut self, outcome: io::Result<usize>) -> Result<usize, MediumFault>
        ensures some { IfOk result (λ n. 0 < n) }
        ensures same { IfOk result (λ n. outcome ≡ Ok n) }
        ensures len { self.new.len ≡ self.old.len }
        ensures count { CountsFaults self.old.failures self.new.failures result }
    {
        match outcome {
            Ok(n) if n > 0 => Ok(n),
            _ => {
                self.failures = self.failures.saturating_add(1);
                Err(MediumFault)
            }
        }
    }
}

impl RawFile for HostFile {
    ghost use Rattle.std.specs.Prelude.{[], false};
    ghost use Rattle.nvme_medium.specs.Whole.{tells-none};

    ghost tells = { false };

    ghost bytes = { λ _. [] };

    ghost failures = { λ file. file.failures };

    ghost size = { λ file. file.len };

    ghost countable = { λ file. file.countable };

    ghost whole = { λ file tells. tells-none tells };

    fn len(&self) -> u64 {
        self.len
    }

    /// Reads into a buffer of its own first: the contract of the system call states the number of bytes read, but not
    /// that it left the others unchanged.
    fn read_at(&mut self, offset: u64, part: &mut [u8]) -> Result<usize, MediumFault> {
        let mut buffer = [0; BLOCK];
        let most = part.len().min(BLOCK);
        let outcome = self.file.read_at(&mut buffer[..most], offset);
        let n = self.counted(outcome)?;
        part[..n].copy_from_slice(&buffer[..n]);
        Ok(n)
    }

    fn write_at(&mut self, offset: u64, part: &[u8]) -> Result<usize, MediumFault> {
        let outcome = self.file.write_at(part, offset);
        self.counted(outcome)
    }

    fn sync(&mut self) -> Result<(), MediumFault> {
        let outcome = self.file.sync_all();
        self.counted(outcome.map(|()| 1))?;
        Ok(())
    }
}

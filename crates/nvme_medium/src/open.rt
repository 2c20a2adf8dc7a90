//! Opens a medium over a file of the system.

ghost use Rattle.std.specs.Prelude.{◌≡◌, ◌≢◌};
ghost use Rattle.std.specs.IoError.{error_kind};
ghost use Rattle.std.specs.declared.io.ErrorKind.TheVariants.{OutOfMemory};
ghost use Rattle.std.specs.declared.fs.locks.TryLockError.TheVariants.{WouldBlock, Error};
ghost use Rattle.nvme_medium.specs.declared.open.FileFault.TheVariants.{InUse, NoLock, NoMemory};

use crate::{FileMedium, HostFile};
use std::fs::{File, OpenOptions, TryLockError};
use std::io;
use std::io::ErrorKind;
use std::path::AsPath;
use std::rt::Files;

/// Why a file can't be a medium.
#[derive(Clone, Copy, Debug, PartialEq, Eq)]
pub enum FileFault {
    /// It can't be opened for reading and writing.
    NoFile,
    /// Another open of it holds its lock.
    InUse,
    /// The system can't lock it.
    NoLock,
    /// Its length can't be determined.
    NoLength,
    /// Memory was refused.
    NoMemory,
}

impl FileMedium<HostFile> {
    /// A medium of the whole blocks of the file at a path, read and written in place. It locks the file first, for this
    /// medium alone; the lock ends when the medium is dropped.
    ///
    /// # Errors
    ///
    /// `NoFile` if it can't be opened for reading and writing, `InUse` if another open of it holds the lock, `NoLock`
    /// if the system can't lock it, `NoLength` if its length can't be determined, and `NoMemory` if the system has no
    /// memory for one of these.
    pub fn open<R: Files<File = File>, P: AsPath>(rt: &R, path: P) -> Result<Self, FileFault> {
        let file = OpenOptions::new()
            .read(true)
            .write(true)
            .open(rt, path)
            .map_err(|error| fault_of(&error, FileFault::NoFile))?;
        file.try_lock().map_err(|error| lock_fault(&error))?;
        let metadata = file
            .metadata()
            .map_err(|error| fault_of(&error, FileFault::NoLength))?;
        let len = metadata.len();
        Ok(FileMedium::over(HostFile::new(file, len)))
    }
}

/// The fault of a lock that was not granted: another open of the file holds it, or the system failed.
fn lock_fault(error: &TryLockError) -> FileFault
    ensures held { error.now ≡ WouldBlock → result ≡ InUse }
    ensures memory { (e : _) → error.now ≡ Error e → error_kind e ≡ OutOfMemory → result ≡ NoMemory }
    ensures other { (e : _) → error.now ≡ Error e → error_kind e ≢ OutOfMemory → result ≡ NoLock }
{
    match error {
        TryLockError::WouldBlock => FileFault::InUse,
        TryLockError::Error(error) => fault_of(error, FileFault::NoLock),
    }
}

/// The fault for an error of the system: `NoMemory` if it was out of memory, else `other`.
fn fault_of(error: &io::Error, other: FileFault) -> FileFault
    ensures memory { error_kind error.now ≡ OutOfMemory → result ≡ NoMemory }
    ensures other { error_kind error.now ≢ OutOfMemory → result ≡ other }
{
    match error.kind() {
        ErrorKind::OutOfMemory => FileFault::NoMemory,
        _ => other,
    }
}

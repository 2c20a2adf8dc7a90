//! Commands that a host places as they are.

ghost use Rattle.std.specs.Prelude.{◌≡◌, ◌≤◌, length};
ghost use Rattle.nvme_driver.specs.Requests.{words_of};
ghost use Rattle.nvme_driver.specs.HostCommands.{asked_by_host, moved_by, sent_by, received_by};

use crate::lane::Lane;

/// A command that a host places as it is, beyond the requests: such as Abort, Asynchronous Event Request, Get Log Page
/// or Set Features of the Host Identifier. Its fields have the standard's names, and the command's other fields are 0,
/// except the identifier and the data pointer, which are the driver's. Nothing is judged of it but its length.
#[derive(Clone, Copy)]
pub struct HostCommand<'a> {
    /// The lane (queue pair).
    pub lane: Lane,
    pub opcode: u8,
    pub nsid: u32,
    pub cdw10: u32,
    pub cdw11: u32,
    pub cdw12: u32,
    pub payload: HostData<'a>,
}

/// The data of a command of a host, at most 131,072 bytes.
#[derive(Clone, Copy)]
pub enum HostData<'a> {
    /// The command transfers none.
    Unused,
    /// The controller reads these bytes, which the driver no longer needs after the command is placed.
    FromHost(&'a [u8]),
    /// The controller writes this many bytes.
    ToHost(usize),
}

impl HostCommand<'_> {
    /// The opcode.
    pub(crate) fn host_opcode(&self) -> u8
        ensures { result ≡ self.now.opcode }
    {
        self.opcode
    }

    /// The namespace.
    pub(crate) fn host_nsid(&self) -> u32
        ensures { result ≡ self.now.nsid }
    {
        self.nsid
    }

    /// Double words 10, 11 and 12.
    pub(crate) fn host_words(&self) -> [u32; 3]
        ensures { result ≡ words_of (asked_by_host self.now).command }
    {
        [self.cdw10, self.cdw11, self.cdw12]
    }
}

impl HostData<'_> {
    /// The number of bytes, in either direction.
    pub(crate) fn moved_length(&self) -> usize
        ensures { result ≡ moved_by self.now }
    {
        match *self {
            HostData::Unused => 0,
            HostData::FromHost(bytes) => bytes.len(),
            HostData::ToHost(count) => count,
        }
    }

    /// The number of bytes from the controller if the command succeeds.
    pub(crate) fn received_length(&self) -> usize
        ensures { result ≡ received_by self.now }
    {
        match *self {
            HostData::ToHost(count) => count,
            _ => 0,
        }
    }

    /// The bytes for the controller.
    pub(crate) fn sent_bytes(&self) -> &[u8]
        ensures bytes { result.now ≡ sent_by self.now }
        ensures few { length (sent_by self.now) ≤ moved_by self.now }
    {
        match *self {
            HostData::FromHost(bytes) => bytes,
            _ => &[],
        }
    }
}

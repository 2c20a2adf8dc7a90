//! The data that a request sends to the controller.

ghost use Rattle.std.specs.Prelude.{◌≡◌, ◌+◌, ◌++◌, ◌≤◌, false, length, replicate};
ghost use Rattle.nvme_spec.specs.Bytes.{with_bytes};
ghost use Rattle.nvme_spec.specs.Limits.{most_bytes};
ghost use Rattle.nvme_spec.specs.Memory.{window_size};
ghost use Rattle.nvme_driver.specs.Calls.{Stores};
ghost use Rattle.nvme_driver.specs.Payloads.{bytes_of, IsSpelled};
ghost use Rattle.nvme_driver.specs.Requests.{asked_of, is_bad as bad, controller_list as list_bytes, key};

use crate::bytes::put_bytes;
use crate::port::Port;
use crate::request::Request;

/// The data that a request sends to the controller: the caller's, or made from the request's fields.
#[derive(Clone, Copy)]
pub enum Payload<'a> {
    /// None.
    Nothing,
    /// The caller's bytes.
    Given(&'a [u8]),
    /// One reservation key.
    Key([u8; 8]),
    /// Two reservation keys.
    Keys([u8; 16]),
    /// A Controller List of these identifiers.
    Identifiers(&'a [u16]),
}

impl Payload<'_> {
    /// Stores the bytes at `addr`.
    pub(crate) fn store<P: Port>(&self, port: &mut P, addr: u64)
        requires inside { addr + length (bytes_of self.now) ≤ window_size }
        requires short { IsSpelled self.now }
        ensures step { P.step port.old (Stores addr (bytes_of self.now)) port.new }
        ensures whole { length (P.bytes port.old) ≡ window_size }
        ensures bytes { P.bytes port.new ≡ with_bytes (P.bytes port.old) addr (bytes_of self.now) }
        ensures links { P.links port.new ≡ P.links port.old }
    {
        match self {
            Payload::Nothing => port.store(addr, &[]),
            Payload::Given(bytes) => port.store(addr, bytes),
            Payload::Key(bytes) => port.store(addr, bytes),
            Payload::Keys(bytes) => port.store(addr, bytes),
            Payload::Identifiers(list) => store_list(port, addr, list),
        }
    }
}

/// Stores a Controller List at `addr`.
// Not inlined, so that only requests that send a list pay for its page.
#[inline(never)]
fn store_list<P: Port>(port: &mut P, addr: u64, list: &[u16])
    requires inside { addr + length (list_bytes list.now) ≤ window_size }
    requires short { length list.now ≤ 2047 }
    ensures step { P.step port.old (Stores addr (list_bytes list.now)) port.new }
    ensures whole { length (P.bytes port.old) ≡ window_size }
    ensures bytes { P.bytes port.new ≡ with_bytes (P.bytes port.old) addr (list_bytes list.now) }
    ensures links { P.links port.new ≡ P.links port.old }
{
    let mut page = [0; 4096];
    spell_list(&mut page, list);
    port.store(addr, &page);
}

/// Two adjacent reservation keys.
fn keys(first: u64, second: u64) -> [u8; 16]
    ensures { result ≡ key first ++ key second }
{
    let mut bytes = [0; 16];
    bytes[0..8].copy_from_slice(&first.to_le_bytes());
    bytes[8..16].copy_from_slice(&second.to_le_bytes());
    bytes
}

/// Writes a Controller List of at most 2,047 identifiers into a page of zeros.
fn spell_list(page: &mut [u8], list: &[u16])
    requires zeros { page.old ≡ replicate 4096 0 }
    requires short { length list.now ≤ 2047 }
    ensures { page.new ≡ list_bytes list.now }
{
    put_bytes(page, 0, &(list.len() as u16).to_le_bytes());
    for index in 0..list.len() {
        put_bytes(page, 2 + 2 * index, &list[index].to_le_bytes());
    }
}

impl<'a> Request<'a> {
    /// The data that the request sends to the controller.
    #[tactic(auto, using(crate::proofs::Spelling::controller_list_length))]
    pub(crate) fn payload(&self) -> Payload<'a>
        requires { bad self.now ≡ false }
        ensures bytes { bytes_of result ≡ (asked_of self.now).sent }
        ensures most { length (bytes_of result) ≤ most_bytes }
        ensures short { IsSpelled result }
    {
        match *self {
            Request::Write { bytes, .. } | Request::Compare { bytes, .. } => Payload::Given(bytes),
            Request::Register { crkey, nrkey, .. } => Payload::Keys(keys(crkey, nrkey)),
            Request::Acquire { crkey, prkey, .. } => Payload::Keys(keys(crkey, prkey)),
            Request::Release { crkey, .. } => Payload::Key(crkey.to_le_bytes()),
            Request::Attach { list, .. } | Request::Detach { list, .. } => {
                Payload::Identifiers(list)
            }
            _ => Payload::Nothing,
        }
    }
}

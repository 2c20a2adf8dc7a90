//! What a Connect asks for.

ghost use Rattle.std.specs.Prelude.{◌≡◌, ◌<◌, ◌==◌, length, position, IfSome};
ghost use Rattle.nvme_fabrics.specs.Requests as def;

use crate::answer::{Answer, check};
use nvme_wire::u16_at;

/// A Connect whose fields can be.
#[derive(Clone, Copy)]
pub struct Request {
    /// HOSTID.
    pub host_id: u128,
    /// HOSTNQN: a text, NUL, and anything.
    pub host_nqn: [u8; 256],
    /// CNTLID; FFFFh is any controller of the host.
    pub cntlid: u16,
    /// QID: 0 is the Admin Queue.
    pub qid: u16,
    /// The number of entries of the queue, SQSIZE and one.
    pub entries: u16,
}

impl Request {
    /// What a Connect with these data asks for, or the answer of the first rule that it breaks. `is_whole` says whether
    /// the command's data are 1,024 bytes.
    #[tactic(auto, unfolding(crate::specs::Requests::request_of))]
    pub fn of(entry: &[u8; 64], bytes: &[u8; 1024], is_whole: bool) -> Result<Request, Answer>
        ensures { result ≡ def.request_of entry.now bytes.now is_whole }
    {
        let sqsize = u16_at(entry, 44);
        let host_nqn = host_nqn_of(bytes);
        check(Answer::of(1, 0x80), u16_at(entry, 40) == 0)?;
        check(Answer::of(0, 0x0f), is_whole)?;
        check(Answer::in_data(512), is_name(&host_nqn))?;
        check(Answer::in_entry(44), 1 <= sqsize && sqsize <= 63)?;
        Ok(Request {
            host_id: host_id_of(bytes),
            host_nqn,
            cntlid: cntlid_of(bytes),
            qid: u16_at(entry, 42),
            entries: sqsize + 1,
        })
    }
}

/// CNTLID.
#[tactic(auto, unfolding(crate::specs::Requests::cntlid_of))]
fn cntlid_of(bytes: &[u8; 1024]) -> u16
    ensures { result ≡ def.cntlid_of bytes.now }
{
    u16_at(bytes, 16)
}

/// HOSTID.
#[tactic(auto, unfolding(crate::specs::Requests::host_id_of))]
fn host_id_of(bytes: &[u8; 1024]) -> u128
    ensures { result ≡ def.host_id_of bytes.now }
{
    match bytes[..16].as_array::<16>() {
        Some(id) => u128::from_le_bytes(*id),
        None => 0,
    }
}

/// HOSTNQN.
#[tactic(auto, unfolding(crate::specs::Requests::host_nqn_of))]
fn host_nqn_of(bytes: &[u8; 1024]) -> [u8; 256]
    ensures { result ≡ def.host_nqn_of bytes.now }
{
    let mut name = [0; 256];
    name.copy_from_slice(&bytes[512..768]);
    name
}

/// Whether a field has a name and the NUL after it.
#[tactic(auto, unfolding(crate::specs::Requests::is_name))]
fn is_name(field: &[u8; 256]) -> bool
    ensures { result ≡ def.is_name field.now }
{
    let length = text_of(field).len();
    0 < length && length < 256
}

/// The text of a field: the bytes before the first NUL.
#[tactic(auto, unfolding(crate::specs::Requests::text_of))]
pub(crate) fn text_of(field: &[u8]) -> &[u8]
    ensures { result.now ≡ def.text_of field.now }
{
    match nul_in(field) {
        Some(end) => &field[..end],
        None => field,
    }
}

/// The place of the first NUL.
fn nul_in(field: &[u8]) -> Option<usize>
    ensures exact { result ≡ position (λ b. b == 0) field.now }
    ensures within { IfSome result (λ n. n < length field.now) }
{
    field.iter().position(|byte| *byte == 0)
}

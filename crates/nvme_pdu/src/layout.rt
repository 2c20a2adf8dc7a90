//! The places of the parts of a PDU of a host, by the eight bytes that all PDUs have, and the first field of these that
//! is at fault.

ghost use Rattle.std.specs.Prelude.{◌≡◌, ◌+◌, ◌≤◌, ◌<◌, IfOk};
ghost use Rattle.nvme_pdu.specs.Headers.{flags, digest_bytes};
ghost use Rattle.nvme_pdu.specs.Layouts as def;

use crate::agreed::Agreed;
use crate::fatal::{Fatal, check};
use crate::kind::Kind;
use nvme_wire::u32_at;

/// The places of the parts of a PDU: its header, the digest of the header right after it, its data, and the digest of
/// the data right after them.
#[derive(Clone, Copy)]
pub struct PduLayout {
    pub kind: Kind,
    /// Whether these are the last data of a command (LAST_PDU).
    pub is_last: bool,
    /// The length of the header (HLEN).
    pub header: u8,
    pub header_digest: bool,
    /// Offset and length of the data. Without data the offset is that of the end.
    pub data_offset: u32,
    pub data_length: u32,
    pub data_digest: bool,
    /// The length of the whole (PLEN).
    pub length: u32,
}

/// The fields of the PDU Common Header.
#[derive(Clone, Copy)]
pub struct Head {
    pub kind: u8,
    pub flags: u8,
    /// HLEN, PDO, PLEN: the length of the header, the offset of the data, the length of the whole.
    pub hlen: u8,
    pub pdo: u8,
    pub plen: u32,
}

impl Head {
    /// The fields in these bytes.
    pub fn of(bytes: &[u8; 8]) -> Head
        ensures { result ≡ def.head_of bytes.now }
    {
        Head {
            kind: bytes[0],
            flags: bytes[1],
            hlen: bytes[2],
            pdo: bytes[3],
            plen: u32_at(bytes, 4),
        }
    }
}

impl PduLayout {
    /// The layout of a PDU of a host with these eight bytes, or the first field at fault.
    #[tactic(auto, unfolding(crate::specs::Layouts::layout_of))]
    pub fn of(agreed: Agreed, bytes: &[u8; 8]) -> Result<PduLayout, Fatal>
        ensures exact { result ≡ def.layout_of agreed bytes.now }
        ensures ordered { IfOk result def.IsOrdered }
        ensures most { IfOk result (λ l. l.data_length ≤ 131072) }
        ensures short { IfOk result (λ l. l.length ≤ 131331) }
    {
        let head = Head::of(bytes);
        match head.kind {
            0 => PduLayout::of_request(head),
            2 => PduLayout::of_termination(head),
            4 => PduLayout::with_data(Kind::CapsuleCmd, 72, 8192, agreed, head),
            6 => PduLayout::with_data(Kind::H2cData, 24, 131_072, agreed, head),
            _ => Err(Fatal {
                status: 1,
                field: 0,
            }),
        }
    }

    /// An ICReq has no digest.
    #[tactic(auto, unfolding(crate::specs::Layouts::request_layout))]
    fn of_request(head: Head) -> Result<PduLayout, Fatal>
        ensures exact { result ≡ def.request_layout head }
        ensures ordered { IfOk result def.IsOrdered }
        ensures most { IfOk result (λ l. l.data_length ≤ 131072) }
    {
        check(2, head.hlen == 128)?;
        check(1, head.flags == 0)?;
        check(4, head.plen == 128)?;
        Ok(PduLayout::without_data(Kind::IcReq, 128, false, false))
    }

    /// A termination request has no digest, and up to 128 bytes of a header instead of data.
    #[tactic(auto, unfolding(crate::specs::Layouts::termination_layout))]
    fn of_termination(head: Head) -> Result<PduLayout, Fatal>
        ensures exact { result ≡ def.termination_layout head }
        ensures ordered { IfOk result def.IsOrdered }
        ensures most { IfOk result (λ l. l.data_length ≤ 131072) }
    {
        check(2, head.hlen == 24)?;
        check(4, 24 <= head.plen && head.plen <= 152)?;
        Ok(PduLayout {
            kind: Kind::H2cTermReq,
            is_last: false,
            header: 24,
            header_digest: false,
            data_offset: 24,
            data_length: head.plen - 24,
            data_digest: false,
            length: head.plen,
        })
    }

    /// A PDU that may have data.
    #[tactic(auto, unfolding(crate::specs::Layouts::data_layout))]
    fn with_data(
        kind: Kind,
        header: u8,
        most: u32,
        agreed: Agreed,
        head: Head,
    ) -> Result<PduLayout, Fatal>
        requires most { most ≤ 131072 }
        requires header { header ≤ 72 }
        ensures exact { result ≡ def.data_layout kind header most agreed head }
        ensures ordered { IfOk result def.IsOrdered }
        ensures most { IfOk result (λ l. l.data_length ≤ most) }
    {
        let least = u32::from(header) + digest_bytes(agreed.header_digests);
        let has_data = head.plen != least;
        let has_digest = has_data && agreed.data_digests;
        let flags = flags(agreed.header_digests, has_digest);
        let last = is_last(kind, head.flags, flags);
        check(2, head.hlen == header)?;
        check(1, head.flags == flags || last)?;
        if !has_data {
            return Ok(PduLayout::without_data(kind, header, agreed.header_digests, last));
        }
        let place = u32::from(head.pdo);
        let before = place + digest_bytes(has_digest);
        check(4, least <= head.plen)?;
        check(3, least <= place && place % 4 == 0)?;
        check(4, before < head.plen && head.plen <= before + most)?;
        Ok(PduLayout {
            kind,
            is_last: last,
            header,
            header_digest: agreed.header_digests,
            data_offset: place,
            data_length: head.plen - before,
            data_digest: has_digest,
            length: head.plen,
        })
    }

    /// A header with its digest, and nothing after it.
    pub(crate) fn without_data(kind: Kind, header: u8, has_digest: bool, is_last: bool) -> PduLayout
        ensures { result ≡ def.without_data kind header has_digest is_last }
    {
        let length = u32::from(header) + digest_bytes(has_digest);
        PduLayout {
            kind,
            is_last,
            header,
            header_digest: has_digest,
            data_offset: length,
            data_length: 0,
            data_digest: false,
            length,
        }
    }
}

/// The length of a digest, if there is one.
#[inline(always)]
pub(crate) fn digest_bytes(there: bool) -> u32
    ensures { result ≡ digest_bytes there }
{
    if there { 4 } else { 0 }
}

/// FLAGS of a PDU with these digests that is not the last one.
#[inline(always)]
pub(crate) fn flags(header: bool, bytes: bool) -> u8
    ensures exact { result ≡ flags header bytes }
    ensures few { result < 4 }
{
    (if header { 1 } else { 0 }) + (if bytes { 2 } else { 0 })
}

/// Whether data are the last of a command, by their flags.
#[inline(always)]
fn is_last(kind: Kind, flags: u8, wanted: u8) -> bool
    requires { wanted < 4 }
    ensures { result ≡ def.is_last kind flags wanted }
{
    match kind {
        Kind::H2cData => flags == wanted + 4,
        _ => false,
    }
}

//! The PDUs of NVMe/TCP for C: the layouts and fields of those that a host sends, and the headers of those that a
//! controller sends.

ghost use Rattle.std.specs.Prelude.{◌≡◌};
ghost use Rattle.nvme_pdu.specs.Agreeing.{agreed_of};
ghost use Rattle.nvme_pdu.specs.Fields.{host_data, host_termination};
ghost use Rattle.nvme_pdu.specs.Layouts.{layout_of};
ghost use Rattle.nvme_pdu.specs.Writing.{ic_response, response, ready, controller_data, termination};
ghost use Rattle.nvme_tcp_library.specs.Pdus.{
  agreed_seen,
  data_seen,
  fields_with,
  laid_out,
  layout_seen,
  layout_without,
  layout_written,
  bytes_written,
};

use crate::codes;
use nvme_pdu::{Agreed, Fatal, HostData, PduLayout};

/// The fields of a host's PDU after the common header. Those that the PDU does not have are 0.
#[repr(C)]
#[derive(Clone, Copy)]
pub struct PduFields {
    /// `OK`, or `BAD_PDU`, and the PDU has none.
    pub what: u32,
    /// The offset of the field at fault, or that in H2CTermReq (FEI).
    pub field: u32,
    /// DATAO of H2CData.
    pub offset: u32,
    /// The Fatal Error Status of the fault, or that in H2CTermReq (FES).
    pub status: u16,
    /// CCCID of H2CData.
    pub cid: u16,
    /// TTAG of H2CData.
    pub tag: u16,
    /// What ICReq asks for.
    pub agreed: Agreed,
}

/// The places of the parts of a PDU.
#[repr(C)]
#[derive(Clone, Copy)]
pub struct LayoutSeen {
    /// `OK`, or `BAD_PDU` or `OUTSIDE`, and the layout is all 0.
    pub what: u32,
    /// The offset of the field at fault, or 0.
    pub field: u32,
    /// The length of the whole (PLEN).
    pub length: u32,
    pub data_offset: u32,
    pub data_length: u32,
    /// The Fatal Error Status, or 0.
    pub status: u16,
    /// PDU-Type.
    pub kind: u8,
    /// The length of the header (HLEN).
    pub header: u8,
    /// Whether these are the last data of a command (LAST_PDU).
    pub is_last: bool,
    /// Whether a digest of the header is right after it.
    pub header_digest: bool,
    /// Whether a digest of the data is right after them.
    pub data_digest: bool,
}

/// What an ICReq asks for: `OK`; or `BAD_PDU`, with the first field at fault.
#[unsafe(no_mangle)]
pub extern "C" fn nvmesim_pdu_ic_request(request: &[u8; 128]) -> PduFields
    ensures { result ≡ agreed_seen (agreed_of request.now) }
{
    match Agreed::of(request) {
        Ok(agreed) => PduFields {
            agreed,
            ..PduFields::none()
        },
        Err(fatal) => PduFields::of_fault(codes::BAD_PDU, fatal),
    }
}

/// The layout of a PDU of a host by its first eight bytes: `OK`; or `BAD_PDU`, with the first field at fault.
#[unsafe(no_mangle)]
pub extern "C" fn nvmesim_pdu_layout_of(agreed: &Agreed, head: &[u8; 8]) -> LayoutSeen
    ensures { result ≡ layout_seen (layout_of agreed.now head.now) }
{
    match PduLayout::of(*agreed, head) {
        Ok(layout) => LayoutSeen::of(layout),
        Err(fatal) => LayoutSeen::without(codes::BAD_PDU, fatal),
    }
}

/// The fields of the header of an H2CData with `length` bytes of data: `OK`; or `BAD_PDU` if DATAL is another number.
#[unsafe(no_mangle)]
pub extern "C" fn nvmesim_pdu_host_data(header: &[u8; 24], length: u32) -> PduFields
    ensures { result ≡ data_seen (host_data header.now length) }
{
    match HostData::of(header, length) {
        Ok(data) => PduFields {
            offset: data.offset,
            cid: data.cid,
            tag: data.tag,
            ..PduFields::none()
        },
        Err(fatal) => PduFields::of_fault(codes::BAD_PDU, fatal),
    }
}

/// Why a host ends its connection, by the header of its H2CTermReq.
#[unsafe(no_mangle)]
pub extern "C" fn nvmesim_pdu_host_termination(header: &[u8; 24]) -> PduFields
    ensures { result ≡ fields_with 0 (host_termination header.now) }
{
    PduFields::of_fault(codes::OK, Fatal::of(header))
}

/// Writes ICResp, which grants what was agreed on.
#[unsafe(no_mangle)]
pub extern "C" fn nvmesim_pdu_ic_response(agreed: &Agreed, bytes: &mut [u8; 128])
    ensures { bytes.new ≡ ic_response agreed.now }
{
    *bytes = agreed.ic_response();
}

/// Writes CapsuleResp, with this completion queue entry, and returns its layout.
#[unsafe(no_mangle)]
pub extern "C" fn nvmesim_pdu_response(
    agreed: &Agreed,
    entry: &[u8; 16],
    bytes: &mut [u8; 24],
) -> LayoutSeen
    ensures bytes { bytes.new ≡ (response agreed.now entry.now).bytes }
    ensures layout { result ≡ laid_out (response agreed.now entry.now).layout }
{
    let written = agreed.response(entry);
    bytes.copy_from_slice(&written.bytes);
    LayoutSeen::of(written.layout)
}

/// Writes R2T, which asks for the first `length` bytes of the data of a command, and returns its layout.
#[unsafe(no_mangle)]
pub extern "C" fn nvmesim_pdu_ready(
    agreed: &Agreed,
    cid: u16,
    tag: u16,
    length: u32,
    bytes: &mut [u8; 24],
) -> LayoutSeen
    ensures bytes { bytes.new ≡ (ready agreed.now cid tag length).bytes }
    ensures layout { result ≡ laid_out (ready agreed.now cid tag length).layout }
{
    let written = agreed.ready(cid, tag, length);
    bytes.copy_from_slice(&written.bytes);
    LayoutSeen::of(written.layout)
}

/// Writes the header of C2HData, which has all data of a command, and returns its layout: `OK`; or `OUTSIDE` if HPDA is
/// above 31 or the PDU too long, and nothing is written.
#[unsafe(no_mangle)]
pub extern "C" fn nvmesim_pdu_data(
    agreed: &Agreed,
    cid: u16,
    length: u32,
    bytes: &mut [u8; 24],
) -> LayoutSeen
    ensures bytes { bytes.new ≡ bytes_written bytes.old (controller_data agreed.now cid length) }
    ensures layout { result ≡ layout_written (controller_data agreed.now cid length) }
{
    match agreed.controller_data(cid, length) {
        Some(written) => {
            bytes.copy_from_slice(&written.bytes);
            LayoutSeen::of(written.layout)
        }
        None => LayoutSeen::without(
            codes::OUTSIDE,
            Fatal {
                status: 0,
                field: 0,
            },
        ),
    }
}

/// Writes the header of C2HTermReq, after which up to 128 of the `received` bytes of the PDU at fault follow, and
/// returns its layout.
#[unsafe(no_mangle)]
pub extern "C" fn nvmesim_pdu_termination(
    status: u16,
    field: u32,
    received: u32,
    bytes: &mut [u8; 24],
) -> LayoutSeen
    ensures bytes { bytes.new ≡ (termination (record { status = status; field = field }) received).bytes }
    ensures layout { result ≡ laid_out (termination (record { status = status; field = field }) received).layout }
{
    let written = Fatal { status, field }.termination(received);
    bytes.copy_from_slice(&written.bytes);
    LayoutSeen::of(written.layout)
}

impl PduFields {
    /// No field.
    fn none() -> Self
        ensures { result ≡ fields_with 0 (record { status = 0; field = 0 }) }
    {
        PduFields::of_fault(
            codes::OK,
            Fatal {
                status: 0,
                field: 0,
            },
        )
    }

    /// A fault.
    fn of_fault(what: u32, fatal: Fatal) -> Self
        ensures { result ≡ fields_with what fatal }
    {
        PduFields {
            what,
            field: fatal.field,
            offset: 0,
            status: fatal.status,
            cid: 0,
            tag: 0,
            agreed: Agreed {
                header_digests: false,
                data_digests: false,
                alignment: 0,
            },
        }
    }
}

impl LayoutSeen {
    /// A layout in the form for C.
    pub(crate) fn of(layout: PduLayout) -> Self
        ensures { result ≡ laid_out layout }
    {
        LayoutSeen {
            what: codes::OK,
            field: 0,
            length: layout.length,
            data_offset: layout.data_offset,
            data_length: layout.data_length,
            status: 0,
            kind: layout.kind.number(),
            header: layout.header,
            is_last: layout.is_last,
            header_digest: layout.header_digest,
            data_digest: layout.data_digest,
        }
    }

    /// No layout.
    pub(crate) fn without(what: u32, fatal: Fatal) -> Self
        ensures { result ≡ layout_without what fatal }
    {
        LayoutSeen {
            what,
            field: fatal.field,
            length: 0,
            data_offset: 0,
            data_length: 0,
            status: fatal.status,
            kind: 0,
            header: 0,
            is_last: false,
            header_digest: false,
            data_digest: false,
        }
    }
}

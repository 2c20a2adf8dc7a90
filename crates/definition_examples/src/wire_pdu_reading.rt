//! How a host reads the first eight bytes of a PDU of a controller (NVMe/TCP Transport Specification 1.0, PDU Common
//! Header). An error has Fatal Error Status 1 and the offset of the wrong field.
#![tactic(auto, unfolding(nvme_pdu::specs::Reading::host_layout_of))]

ghost use Rattle.std.specs.Prelude.{◌≡◌, [], ◌∷◌, true, false, Ok, Err};
ghost use Rattle.nvme_pdu.specs.declared.kind.Kind.TheVariants.{C2hTermReq, CapsuleResp, C2hData};
ghost use Rattle.nvme_pdu.specs.Examples.{digested, plain};
ghost use Rattle.nvme_pdu.specs.Reading.{host_layout_of};

/// ICResp: HLEN, FLAGS and PLEN are wrong. No controller sends ICReq or H2CData.
fn wire_ic_response_example()
    ensures hlen { host_layout_of plain (1 ∷ 0 ∷ 127 ∷ 0 ∷ 128 ∷ 0 ∷ 0 ∷ 0 ∷ [])
        ≡ Err (record { status = 1; field = 2 }) }
    ensures flags { host_layout_of plain (1 ∷ 1 ∷ 128 ∷ 0 ∷ 128 ∷ 0 ∷ 0 ∷ 0 ∷ [])
        ≡ Err (record { status = 1; field = 1 }) }
    ensures plen { host_layout_of plain (1 ∷ 0 ∷ 128 ∷ 0 ∷ 129 ∷ 0 ∷ 0 ∷ 0 ∷ [])
        ≡ Err (record { status = 1; field = 4 }) }
    ensures ic_request { host_layout_of plain (0 ∷ 0 ∷ 128 ∷ 0 ∷ 128 ∷ 0 ∷ 0 ∷ 0 ∷ [])
        ≡ Err (record { status = 1; field = 0 }) }
    ensures host_data { host_layout_of plain (6 ∷ 0 ∷ 24 ∷ 0 ∷ 24 ∷ 0 ∷ 0 ∷ 0 ∷ [])
        ≡ Err (record { status = 1; field = 0 }) }
{}

/// C2HTermReq, with up to 128 bytes of the header at fault: HLEN and PLEN are wrong.
fn wire_controller_termination_example()
    ensures most { host_layout_of digested (3 ∷ 0 ∷ 24 ∷ 0 ∷ 152 ∷ 0 ∷ 0 ∷ 0 ∷ []) ≡ Ok (record {
      kind = C2hTermReq;
      is_last = false;
      header = 24;
      header_digest = false;
      data_offset = 24;
      data_length = 128;
      data_digest = false;
      length = 152;
    }) }
    ensures hlen { host_layout_of digested (3 ∷ 0 ∷ 25 ∷ 0 ∷ 152 ∷ 0 ∷ 0 ∷ 0 ∷ [])
        ≡ Err (record { status = 1; field = 2 }) }
    ensures less { host_layout_of digested (3 ∷ 0 ∷ 24 ∷ 0 ∷ 23 ∷ 0 ∷ 0 ∷ 0 ∷ [])
        ≡ Err (record { status = 1; field = 4 }) }
    ensures more { host_layout_of digested (3 ∷ 0 ∷ 24 ∷ 0 ∷ 153 ∷ 0 ∷ 0 ∷ 0 ∷ [])
        ≡ Err (record { status = 1; field = 4 }) }
{}

/// CapsuleResp and R2T: HLEN, FLAGS and PLEN are wrong.
fn wire_response_capsule_example()
    ensures right { host_layout_of digested (5 ∷ 1 ∷ 24 ∷ 0 ∷ 28 ∷ 0 ∷ 0 ∷ 0 ∷ []) ≡ Ok (record {
      kind = CapsuleResp;
      is_last = false;
      header = 24;
      header_digest = true;
      data_offset = 28;
      data_length = 0;
      data_digest = false;
      length = 28;
    }) }
    ensures hlen { host_layout_of digested (5 ∷ 1 ∷ 25 ∷ 0 ∷ 28 ∷ 0 ∷ 0 ∷ 0 ∷ [])
        ≡ Err (record { status = 1; field = 2 }) }
    ensures flags { host_layout_of digested (9 ∷ 3 ∷ 24 ∷ 0 ∷ 28 ∷ 0 ∷ 0 ∷ 0 ∷ [])
        ≡ Err (record { status = 1; field = 1 }) }
    ensures plen { host_layout_of digested (9 ∷ 1 ∷ 24 ∷ 0 ∷ 24 ∷ 0 ∷ 0 ∷ 0 ∷ [])
        ≡ Err (record { status = 1; field = 4 }) }
{}

/// C2HData on a connection with both digests and HPDA 1: HLEN, FLAGS, PDO and PLEN are wrong.
fn wire_controller_data_example()
    ensures last { host_layout_of digested (7 ∷ 7 ∷ 24 ∷ 32 ∷ 0x24 ∷ 2 ∷ 0 ∷ 0 ∷ []) ≡ Ok (record {
      kind = C2hData;
      is_last = true;
      header = 24;
      header_digest = true;
      data_offset = 32;
      data_length = 512;
      data_digest = true;
      length = 548;
    }) }
    ensures hlen { host_layout_of digested (7 ∷ 7 ∷ 25 ∷ 32 ∷ 0x24 ∷ 2 ∷ 0 ∷ 0 ∷ [])
        ≡ Err (record { status = 1; field = 2 }) }
    ensures flags { host_layout_of digested (7 ∷ 1 ∷ 24 ∷ 32 ∷ 0x24 ∷ 2 ∷ 0 ∷ 0 ∷ [])
        ≡ Err (record { status = 1; field = 1 }) }
    ensures in_header { host_layout_of digested (7 ∷ 7 ∷ 24 ∷ 24 ∷ 0x24 ∷ 2 ∷ 0 ∷ 0 ∷ [])
        ≡ Err (record { status = 1; field = 3 }) }
    ensures not_aligned { host_layout_of digested (7 ∷ 7 ∷ 24 ∷ 36 ∷ 0x24 ∷ 2 ∷ 0 ∷ 0 ∷ [])
        ≡ Err (record { status = 1; field = 3 }) }
    ensures short { host_layout_of digested (7 ∷ 7 ∷ 24 ∷ 32 ∷ 35 ∷ 0 ∷ 0 ∷ 0 ∷ [])
        ≡ Err (record { status = 1; field = 4 }) }
{}

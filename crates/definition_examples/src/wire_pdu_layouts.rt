//! How a controller reads the first eight bytes of a PDU: PDU-Type, FLAGS, HLEN, PDO and PLEN (NVMe/TCP Transport
//! Specification 1.0, PDU Common Header). An error has Fatal Error Status 1 and the offset of the wrong field.
#![tactic(auto, unfolding(nvme_pdu::specs::Layouts::layout_of, nvme_pdu::specs::Layouts::request_layout, nvme_pdu::specs::Layouts::termination_layout, nvme_pdu::specs::Layouts::data_layout))]

ghost use Rattle.std.specs.Prelude.{◌≡◌, [], ◌∷◌, true, false, Ok, Err};
ghost use Rattle.nvme_pdu.specs.declared.kind.Kind.TheVariants.{H2cTermReq, CapsuleCmd, H2cData};
ghost use Rattle.nvme_pdu.specs.Examples.{digested, plain};
ghost use Rattle.nvme_pdu.specs.Layouts.{IsOrdered, has_data, has_digest, head_of, layout_of};
ghost use Rattle.nvme_pdu.specs.Wholes.{Fit};

/// The fields of the common header. A field that has not come is 0.
fn wire_common_header_example()
    ensures read { head_of (1 ∷ 2 ∷ 3 ∷ 4 ∷ 5 ∷ 6 ∷ 7 ∷ 8 ∷ [])
        ≡ record { kind = 1; flags = 2; hlen = 3; pdo = 4; plen = 0x08070605 } }
    ensures none { head_of [] ≡ record { kind = 0; flags = 0; hlen = 0; pdo = 0; plen = 0 } }
{}

/// Whether a command capsule has data, and whether these have a digest: data with a digest of the connection.
fn wire_capsule_parts_example()
    ensures bare { has_data 72 plain (record { kind = 4; flags = 0; hlen = 72; pdo = 0; plen = 72 }) ≡ false }
    ensures one_byte { has_data 72 plain (record { kind = 4; flags = 0; hlen = 72; pdo = 72; plen = 73 }) ≡ true }
    ensures digest_alone { has_data 72 digested (record { kind = 4; flags = 1; hlen = 72; pdo = 0; plen = 76 })
        ≡ false }
    ensures none_digested { has_digest 72 digested (record { kind = 4; flags = 1; hlen = 72; pdo = 0; plen = 76 })
        ≡ false }
    ensures digested { has_digest 72 digested (record { kind = 4; flags = 3; hlen = 72; pdo = 76; plen = 84 }) ≡ true }
    ensures not_asked_for { has_digest 72 plain (record { kind = 4; flags = 0; hlen = 72; pdo = 72; plen = 76 })
        ≡ false }
{}

/// A command capsule without data: HLEN and FLAGS are wrong.
fn wire_bare_capsules_example()
    ensures right { layout_of digested (4 ∷ 1 ∷ 72 ∷ 0 ∷ 76 ∷ 0 ∷ 0 ∷ 0 ∷ []) ≡ Ok (record {
      kind = CapsuleCmd;
      is_last = false;
      header = 72;
      header_digest = true;
      data_offset = 76;
      data_length = 0;
      data_digest = false;
      length = 76;
    }) }
    ensures hlen { layout_of plain (4 ∷ 0 ∷ 71 ∷ 0 ∷ 72 ∷ 0 ∷ 0 ∷ 0 ∷ []) ≡ Err (record { status = 1; field = 2 }) }
    ensures flags { layout_of plain (4 ∷ 4 ∷ 72 ∷ 0 ∷ 72 ∷ 0 ∷ 0 ∷ 0 ∷ []) ≡ Err (record { status = 1; field = 1 }) }
{}

/// A command capsule with data, of which there are at most 8,192 bytes: HLEN, FLAGS, PLEN and PDO are wrong.
fn wire_capsules_with_data_example()
    ensures most { layout_of plain (4 ∷ 0 ∷ 72 ∷ 72 ∷ 0x48 ∷ 0x20 ∷ 0 ∷ 0 ∷ []) ≡ Ok (record {
      kind = CapsuleCmd;
      is_last = false;
      header = 72;
      header_digest = false;
      data_offset = 72;
      data_length = 8192;
      data_digest = false;
      length = 8264;
    }) }
    ensures more { layout_of plain (4 ∷ 0 ∷ 72 ∷ 72 ∷ 0x49 ∷ 0x20 ∷ 0 ∷ 0 ∷ [])
        ≡ Err (record { status = 1; field = 4 }) }
    ensures hlen { layout_of plain (4 ∷ 0 ∷ 71 ∷ 72 ∷ 0x48 ∷ 2 ∷ 0 ∷ 0 ∷ []) ≡ Err (record { status = 1; field = 2 }) }
    ensures flags { layout_of plain (4 ∷ 4 ∷ 72 ∷ 72 ∷ 0x48 ∷ 2 ∷ 0 ∷ 0 ∷ []) ≡ Err (record { status = 1; field = 1 }) }
    ensures short { layout_of plain (4 ∷ 0 ∷ 72 ∷ 72 ∷ 71 ∷ 0 ∷ 0 ∷ 0 ∷ []) ≡ Err (record { status = 1; field = 4 }) }
    ensures in_header { layout_of plain (4 ∷ 0 ∷ 72 ∷ 68 ∷ 0x48 ∷ 2 ∷ 0 ∷ 0 ∷ [])
        ≡ Err (record { status = 1; field = 3 }) }
    ensures not_aligned { layout_of plain (4 ∷ 0 ∷ 72 ∷ 74 ∷ 0x48 ∷ 2 ∷ 0 ∷ 0 ∷ [])
        ≡ Err (record { status = 1; field = 3 }) }
    ensures empty { layout_of plain (4 ∷ 0 ∷ 72 ∷ 80 ∷ 80 ∷ 0 ∷ 0 ∷ 0 ∷ []) ≡ Err (record { status = 1; field = 4 }) }
{}

/// H2CData, of which there are at most 131,072 bytes, H2CTermReq, and a type that no host sends.
fn wire_other_host_pdus_example()
    ensures most { layout_of plain (6 ∷ 4 ∷ 24 ∷ 24 ∷ 0x18 ∷ 0 ∷ 2 ∷ 0 ∷ []) ≡ Ok (record {
      kind = H2cData;
      is_last = true;
      header = 24;
      header_digest = false;
      data_offset = 24;
      data_length = 131072;
      data_digest = false;
      length = 131096;
    }) }
    ensures more { layout_of plain (6 ∷ 4 ∷ 24 ∷ 24 ∷ 0x19 ∷ 0 ∷ 2 ∷ 0 ∷ []) ≡ Err (record { status = 1; field = 4 }) }
    ensures termination { layout_of plain (2 ∷ 0 ∷ 24 ∷ 0 ∷ 32 ∷ 0 ∷ 0 ∷ 0 ∷ []) ≡ Ok (record {
      kind = H2cTermReq;
      is_last = false;
      header = 24;
      header_digest = false;
      data_offset = 24;
      data_length = 8;
      data_digest = false;
      length = 32;
    }) }
    ensures unknown { layout_of plain (3 ∷ 0 ∷ 24 ∷ 0 ∷ 24 ∷ 0 ∷ 0 ∷ 0 ∷ []) ≡ Err (record { status = 1; field = 0 }) }
{}

/// PDO has one byte, so that data begin at 255 at the latest; and data can't begin in the header.
fn wire_ordered_parts_example()
    ensures farthest { IsOrdered (record {
      kind = H2cData;
      is_last = false;
      header = 24;
      header_digest = false;
      data_offset = 255;
      data_length = 4;
      data_digest = false;
      length = 259;
    }) }
    ensures beyond { IsOrdered (record {
      kind = H2cData;
      is_last = false;
      header = 24;
      header_digest = false;
      data_offset = 256;
      data_length = 4;
      data_digest = false;
      length = 260;
    }) → ⊥ }
    ensures in_header { Fit
        (record {
          kind = H2cData;
          is_last = false;
          header = 4;
          header_digest = false;
          data_offset = 2;
          data_length = 1;
          data_digest = false;
          length = 3;
        })
        (record { header = 6 ∷ 0 ∷ 24 ∷ 2 ∷ []; header_digest = []; bytes = 5 ∷ []; data_digest = [] })
        → ⊥ }
{}

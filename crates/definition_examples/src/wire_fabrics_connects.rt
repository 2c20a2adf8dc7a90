//! The fields of a Connect and the rules on them (NVM Express Base Specification 2.0, Connect Command).
#![tactic(auto, unfolding(nvme_fabrics::specs::Requests::host_id_of, nvme_fabrics::specs::Requests::host_nqn_of, nvme_fabrics::specs::Requests::cntlid_of, nvme_fabrics::specs::Requests::text_of, nvme_fabrics::specs::Requests::is_name, nvme_fabrics::specs::Requests::request_of))]

ghost use Rattle.std.specs.Prelude.{◌≡◌, ◌∷◌, true, false, replicate, None, Ok, Err};
ghost use Rattle.nvme_fabrics.specs.Associations.{io_fits_in};
ghost use Rattle.nvme_fabrics.specs.Examples.{any_of, entry, named};
ghost use Rattle.nvme_fabrics.specs.Places.{fits_at};
ghost use Rattle.nvme_fabrics.specs.Requests.{request_fields, request_of};

/// HOSTID, HOSTNQN, CNTLID, QID, and SQSIZE, which is one less than the number of entries.
fn wire_connect_fields_example()
    ensures fields { request_fields (entry 3 31) (named 0xa1 2 0x6e) ≡ record {
      host_id = 0xa1;
      host_nqn = 0x6e ∷ replicate 255 0;
      cntlid = 2;
      qid = 3;
      entries = 32;
    } }
    ensures two_entries { request_of (entry 0 1) (any_of 0xa1) true ≡ Ok (record {
      host_id = 0xa1;
      host_nqn = 0x6e ∷ replicate 255 0;
      cntlid = 0xffff;
      qid = 0;
      entries = 2;
    }) }
{}

/// HOSTNQN has a name, and a queue has 2 to 64 entries: if not, the field is named by its offset.
fn wire_connect_rules_example()
    ensures no_name { request_of (entry 0 31) (named 0xa1 1 0) true
        ≡ Err (record { status = record { sct = 1; sc = 0x82 }; dw0 = 0x00010200 }) }
    ensures one_entry { request_of (entry 0 0) (any_of 0xa1) true
        ≡ Err (record { status = record { sct = 1; sc = 0x82 }; dw0 = 0x0000002c }) }
    ensures many_entries { request_of (entry 0 64) (any_of 0xa1) true
        ≡ Err (record { status = record { sct = 1; sc = 0x82 }; dw0 = 0x0000002c }) }
{}

/// CNTLID names no controller, or one without an association that an I/O queue could be of.
fn wire_connect_places_example()
    ensures no_controller { fits_at None (request_fields (entry 0 31) (named 0xa1 9 0x6e)) true
        ≡ Err (record { status = record { sct = 1; sc = 0x82 }; dw0 = 0x00010010 }) }
    ensures no_association { io_fits_in None (request_fields (entry 1 31) (named 0xa1 1 0x6e)) true
        ≡ Err (record { status = record { sct = 1; sc = 0x82 }; dw0 = 0x00010010 }) }
{}

//! Fields of ICReq and ICResp (NVMe/TCP Transport Specification 1.0, Initialize Connection Request and Response).
#![tactic(auto, unfolding(nvme_pdu::specs::Agreeing::agreed_of))]

ghost use Rattle.std.specs.Prelude.{◌≡◌, ◌++◌, [], ◌∷◌, true, false, replicate, Ok, Err};
ghost use Rattle.nvme_pdu.specs.Agreeing.{agreed_of, dgst_of, hpda_of};
ghost use Rattle.nvme_pdu.specs.Reading.{granted_by};

/// HPDA 5, and a DGST that enables digests of data and has a reserved bit set. A field that has not come is 0.
fn wire_ic_request_fields_example()
    ensures read { agreed_of (replicate 10 0 ++ (5 ∷ 6 ∷ replicate 116 0))
        ≡ Ok (record { header_digests = false; data_digests = true; alignment = 5 }) }
    ensures header { agreed_of (replicate 10 0 ++ (31 ∷ 1 ∷ replicate 116 0))
        ≡ Ok (record { header_digests = true; data_digests = false; alignment = 31 }) }
    ensures hpda { agreed_of (replicate 10 0 ++ (32 ∷ 0 ∷ replicate 116 0)) ≡ Err (record { status = 1; field = 10 }) }
    ensures pfv { agreed_of (replicate 8 0 ++ (1 ∷ replicate 119 0)) ≡ Err (record { status = 6; field = 8 }) }
    ensures no_hpda { hpda_of (replicate 10 255) ≡ 0 }
    ensures no_dgst { dgst_of (replicate 11 255) ≡ 0 }
{}

/// PFV, CPDA, DGST and MAXH2CDATA. A field that has not come is 0.
fn wire_ic_response_fields_example()
    ensures read { granted_by (replicate 8 0 ++ (1 ∷ 2 ∷ 3 ∷ 6 ∷ 4 ∷ 5 ∷ 6 ∷ 7 ∷ replicate 112 0)) ≡ record {
      pfv = 0x0201;
      cpda = 3;
      header_digests = false;
      data_digests = true;
      max_h2c_data = 0x07060504;
    } }
    ensures none { granted_by [] ≡ record {
      pfv = 0;
      cpda = 0;
      header_digests = false;
      data_digests = false;
      max_h2c_data = 0;
    } }
{}

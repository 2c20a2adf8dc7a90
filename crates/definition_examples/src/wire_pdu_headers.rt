//! Headers of PDUs, byte by byte (NVMe/TCP Transport Specification 1.0, PDU types).
#![tactic(auto, unfolding(nvme_pdu::specs::HostPdus::ic_request, nvme_pdu::specs::HostPdus::termination_request, nvme_pdu::specs::HostPdus::data_header, nvme_pdu::specs::Writing::termination))]

ghost use Rattle.std.specs.Prelude.{◌≡◌, ◌++◌, [], ◌∷◌, true, replicate};
ghost use Rattle.nvme_pdu.specs.Examples.{digested};
ghost use Rattle.nvme_pdu.specs.HostPdus.{data_header, ic_request, termination_request};
ghost use Rattle.nvme_pdu.specs.Writing.{data_written, termination};

/// What a host writes: ICReq for both digests and HPDA 1, H2CTermReq before 8 bytes, and the last H2CData of 512 bytes.
fn wire_host_headers_example()
    ensures ic_request { ic_request 9 0x06050403 digested
        ≡ (0 ∷ 0 ∷ 128 ∷ 9 ∷ 128 ∷ 0 ∷ 0 ∷ 0 ∷ 0 ∷ 0 ∷ 1 ∷ 3 ∷ 3 ∷ 4 ∷ 5 ∷ 6 ∷ []) ++ replicate 112 0 }
    ensures termination { termination_request 7 9 8 (record { status = 0x0201; field = 0x06050403 })
        ≡ (2 ∷ 7 ∷ 24 ∷ 9 ∷ 32 ∷ 0 ∷ 0 ∷ 0 ∷ 1 ∷ 2 ∷ 3 ∷ 4 ∷ 5 ∷ 6 ∷ []) ++ replicate 10 0 }
    ensures host_data { data_header true digested 28 512 (record { cid = 0x0201; tag = 0x0403; offset = 0x08070605 })
        ≡ 6 ∷ 7 ∷ 24 ∷ 28 ∷ 0x20 ∷ 2 ∷ 0 ∷ 0 ∷ 1 ∷ 2 ∷ 3 ∷ 4 ∷ 5 ∷ 6 ∷ 7 ∷ 8 ∷ 0 ∷ 2 ∷ 0 ∷ 0 ∷ replicate 4 0 }
{}

/// What a controller writes: C2HData of 512 bytes with both digests, and C2HTermReq before 128 of 200 bytes.
fn wire_controller_headers_example()
    ensures controller_data { (data_written digested 0x0201 512).bytes
        ≡ 7 ∷ 7 ∷ 24 ∷ 32 ∷ 0x24 ∷ 2 ∷ 0 ∷ 0 ∷ 1 ∷ 2 ∷ 0 ∷ 0 ∷ 0 ∷ 0 ∷ 0 ∷ 0 ∷ 0 ∷ 2 ∷ 0 ∷ 0 ∷ replicate 4 0 }
    ensures termination { (termination (record { status = 0x0201; field = 0x06050403 }) 200).bytes
        ≡ (3 ∷ 0 ∷ 24 ∷ 0 ∷ 152 ∷ 0 ∷ 0 ∷ 0 ∷ 1 ∷ 2 ∷ 3 ∷ 4 ∷ 5 ∷ 6 ∷ []) ++ replicate 10 0 }
{}

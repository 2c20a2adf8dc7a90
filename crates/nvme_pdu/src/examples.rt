//! Worked examples of the definitions, proved by computing.
#![tactic(auto, unfolding(crate::specs::Layouts::layout_of, crate::specs::Layouts::request_layout, crate::specs::Layouts::termination_layout, crate::specs::Layouts::data_layout, crate::specs::Agreeing::agreed_of, crate::specs::Fields::host_data, crate::specs::Writing::ready, crate::specs::Writing::controller_data, crate::specs::Writing::termination))]

ghost use Rattle.std.specs.Prelude.{◌≡◌, ◌++◌, ◌∷◌, [], true, false, replicate, take, Ok, Err, None};
ghost use Rattle.nvme_pdu.specs.declared.kind.Kind.TheVariants.{IcReq, H2cTermReq, CapsuleCmd, H2cData};
ghost use Rattle.nvme_pdu.specs.Agreeing.{agreed_of};
ghost use Rattle.nvme_pdu.specs.Checking.{invalid, unsupported};
ghost use Rattle.nvme_pdu.specs.Examples.{plain, digested, IsRefused, HasNoData, HasData};
ghost use Rattle.nvme_pdu.specs.Fields.{host_data};
ghost use Rattle.nvme_pdu.specs.Layouts.{layout_of, without_data};
ghost use Rattle.nvme_pdu.specs.Writing.{ready, controller_data, data_place, termination};

/// Types that no host sends.
fn foreign_types()
    ensures response { IsRefused plain 1 0 128 0 128 0 }
    ensures unknown { IsRefused plain 8 0 24 0 24 0 }
    ensures last { IsRefused plain 255 0 24 0 24 0 }
{}

/// ICReq: HLEN, FLAGS and PLEN are checked in this order, and PDO is not.
fn requests()
    ensures right { HasNoData plain IcReq 0 128 0 128 false }
    ensures pdo { layout_of plain (0 ∷ 0 ∷ 128 ∷ 77 ∷ 128 ∷ 0 ∷ 0 ∷ 0 ∷ []) ≡ Ok (without_data IcReq 128 false false) }
    ensures hlen { IsRefused plain 0 1 127 0 127 2 }
    ensures flags { IsRefused plain 0 1 128 0 127 1 }
    ensures plen { IsRefused plain 0 0 128 0 132 4 }
{}

/// The fields of ICReq: PFV, HPDA, DGST.
fn parameters()
    ensures plain { agreed_of (replicate 128 0) ≡ Ok plain }
    ensures digested { agreed_of (replicate 10 0 ++ (1 ∷ 3 ∷ replicate 116 0)) ≡ Ok digested }
    ensures reserved { agreed_of (replicate 11 0 ++ (252 ∷ replicate 116 255)) ≡ Ok plain }
    ensures pfv { agreed_of (replicate 9 0 ++ (1 ∷ 32 ∷ replicate 117 0)) ≡ Err (unsupported 8) }
    ensures hpda { agreed_of (replicate 10 0 ++ (32 ∷ replicate 117 0)) ≡ Err (invalid 10) }
{}

/// H2CTermReq: HLEN and PLEN are checked, FLAGS and PDO are not.
fn terminations()
    ensures short { layout_of digested (2 ∷ 255 ∷ 24 ∷ 9 ∷ 24 ∷ 0 ∷ 0 ∷ 0 ∷ [])
        ≡ Ok (without_data H2cTermReq 24 false false) }
    ensures long { HasData plain H2cTermReq 0 24 24 152 false 128 }
    ensures hlen { IsRefused plain 2 0 128 0 153 2 }
    ensures less { IsRefused plain 2 0 24 0 23 4 }
    ensures more { IsRefused plain 2 0 24 0 153 4 }
{}

/// CapsuleCmd without digests: HLEN, FLAGS, PLEN and PDO are checked in this order, PDO only if there are data.
fn commands()
    ensures bare { HasNoData plain CapsuleCmd 0 72 0 72 false }
    ensures pdo_of_none { layout_of plain (4 ∷ 0 ∷ 72 ∷ 33 ∷ 72 ∷ 0 ∷ 0 ∷ 0 ∷ [])
        ≡ Ok (without_data CapsuleCmd 72 false false) }
    ensures block { HasData plain CapsuleCmd 0 72 72 584 false 512 }
    ensures later { HasData plain CapsuleCmd 0 72 76 588 false 512 }
    ensures most { HasData plain CapsuleCmd 0 72 72 8264 false 8192 }
    ensures hlen { IsRefused plain 4 4 24 70 71 2 }
    ensures flags { IsRefused plain 4 4 72 70 71 1 }
    ensures less { IsRefused plain 4 0 72 70 71 4 }
    ensures before { IsRefused plain 4 0 72 68 584 3 }
    ensures between { IsRefused plain 4 0 72 74 584 3 }
    ensures none { IsRefused plain 4 0 72 80 80 4 }
    ensures more { IsRefused plain 4 0 72 72 8265 4 }
{}

/// CapsuleCmd with digests: FLAGS has the header's, and the data's if there are data.
fn digested_commands()
    ensures bare { HasNoData digested CapsuleCmd 1 72 0 76 false }
    ensures block { HasData digested CapsuleCmd 3 72 76 592 false 512 }
    ensures without { IsRefused digested 4 0 72 0 76 1 }
    ensures data_too { IsRefused digested 4 3 72 0 76 1 }
    ensures header_alone { IsRefused digested 4 1 72 76 592 1 }
    ensures no_place { IsRefused digested 4 3 72 72 588 3 }
    ensures digest_alone { IsRefused digested 4 3 72 76 80 4 }
    ensures unasked { IsRefused plain 4 1 72 0 76 1 }
{}

/// H2CData, of which only the last has LAST_PDU.
fn host_data()
    ensures last { HasData plain H2cData 4 24 24 536 true 512 }
    ensures earlier { HasData plain H2cData 0 24 24 536 false 512 }
    ensures digested { HasData digested H2cData 7 24 28 544 true 512 }
    ensures none { HasNoData plain H2cData 4 24 0 24 true }
    ensures most { HasData plain H2cData 0 24 252 131324 false 131072 }
    ensures more { IsRefused plain 6 0 24 252 131325 4 }
    ensures flags { IsRefused plain 6 8 24 24 536 1 }
    ensures fields { host_data (replicate 8 0 ++ (1 ∷ 2 ∷ 3 ∷ 0 ∷ 0 ∷ 16 ∷ 0 ∷ 0 ∷ 0 ∷ 2 ∷ 0 ∷ 0 ∷ replicate 4 9)) 512
        ≡ Ok (record { cid = 513; tag = 3; offset = 4096 }) }
    ensures datal { host_data (replicate 17 0 ++ (2 ∷ replicate 6 0)) 511 ≡ Err (invalid 16) }
{}

/// What a controller writes.
fn written()
    ensures ready { (ready digested 1 2 512).bytes
        ≡ 9 ∷ 1 ∷ 24 ∷ 0 ∷ 28 ∷ 0 ∷ 0 ∷ 0 ∷ 1 ∷ 0 ∷ 2 ∷ 0 ∷ 0 ∷ 0 ∷ 0 ∷ 0 ∷ 0 ∷ 2 ∷ 0
        ∷ 0 ∷ 0 ∷ 0 ∷ 0 ∷ 0 ∷ [] }
    ensures place { data_place plain ≡ 24 }
    ensures aligned { data_place digested ≡ 32 }
    ensures farthest { data_place (record { header_digests = true; data_digests = false; alignment = 31 }) ≡ 128 }
    ensures too_far { controller_data (record { header_digests = true; data_digests = false; alignment = 32 }) 1 512
        ≡ None }
    ensures too_long { controller_data plain 1 4294967272 ≡ None }
    ensures termination { take 11 (termination (invalid 2) 200).bytes ≡ 3 ∷ 0 ∷ 24 ∷ 0 ∷ 152 ∷ 0 ∷ 0 ∷ 0 ∷ 1 ∷ 0 ∷ 2
        ∷ [] }
{}

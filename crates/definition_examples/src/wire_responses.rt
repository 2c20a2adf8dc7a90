//! Responses: how many commands wait, and the fields of completion queue entries (NVM Express Base Specification 2.0,
//! Completion Queue Entry).
#![tactic(auto, unfolding(nvme_responses::specs::Entries::entry))]

ghost use Rattle.std.specs.Prelude.{◌≡◌, ◌≤◌, [], List, length};
ghost use Rattle.nvme_responses.specs.Laws.{AtMost64, IsReadBack, IsStatus};
ghost use Rattle.nvme_responses.specs.Runs.{Call, commands, counted, dropped, responses};

/// At most 64 commands are accepted before any is answered or dropped. Before the first call none is.
fn wire_accepted_commands_example()
    ensures most { AtMost64 → (run : List Call) → responses run ≡ [] → dropped run ≡ [] → length (commands run) ≤ 64 }
    ensures none { counted [] ≡ 0 }
{}

/// SQHD, the command identifier and the status have 16 bits: greater ones are not read back.
fn wire_wide_responses_example()
    ensures sqhd { IsReadBack (record { dw0 = 0; dw1 = 0; sqhd = 0x10000; cid = 0; status = 0 }) → ⊥ }
    ensures cid { IsReadBack (record { dw0 = 0; dw1 = 0; sqhd = 0; cid = 0x10000; status = 0 }) → ⊥ }
    ensures status { IsReadBack (record { dw0 = 0; dw1 = 0; sqhd = 0; cid = 0; status = 0x10000 }) → ⊥ }
{}

/// Reservation Conflict, SC 83h, with Do Not Retry is 8106h in the last word of an entry. A change of bit 16, the phase
/// tag, SC, SCT, CRD or Do Not Retry makes it wrong.
fn wire_status_field_example()
    ensures right { IsStatus (record { sct = 0; sc = 0x83 }) 0x8106 }
    ensures bit_16 { IsStatus (record { sct = 0; sc = 0x83 }) 0x18106 → ⊥ }
    ensures phase_tag { IsStatus (record { sct = 0; sc = 0x83 }) 0x8107 → ⊥ }
    ensures sc { IsStatus (record { sct = 0; sc = 0x83 }) 0x8102 → ⊥ }
    ensures sct { IsStatus (record { sct = 0; sc = 0x83 }) 0x8306 → ⊥ }
    ensures crd { IsStatus (record { sct = 0; sc = 0x83 }) 0x9106 → ⊥ }
    ensures may_retry { IsStatus (record { sct = 0; sc = 0x83 }) 0x0106 → ⊥ }
{}

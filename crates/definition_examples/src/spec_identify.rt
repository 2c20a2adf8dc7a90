//! The fields of Identify data structures, by their offsets.

ghost use Rattle.std.specs.Prelude.{◌≡◌, [], ◌∷◌, codes, slice_range, take};
ghost use Rattle.nvme_spec.specs.Identify.{controller_fields, attached_above};

/// Identify Controller: SN, MN and FR have 20, 40 and 8 bytes, filled with spaces.
fn spec_controller_names()
    ensures fields { take 3 (controller_fields 3) ≡
        record { offset = 4; bytes = codes "NVMESIM             " }
        ∷ record { offset = 24; bytes = codes "Multi-Host Subsystem                    " }
        ∷ record { offset = 64; bytes = codes "1.0     " } ∷ [] }
{}

/// Identify Controller: CMIC, MDTS, CNTLID, VER, CTRATT, CNTRLTYPE; then OACS, SQES, CQES, NN, ONCS, VWC, NWPC.
fn spec_controller_capabilities()
    ensures controller { slice_range (controller_fields 0x0102) 3 9 ≡
        record { offset = 76; bytes = 0x02 ∷ [] }
        ∷ record { offset = 77; bytes = 5 ∷ [] }
        ∷ record { offset = 78; bytes = 0x02 ∷ 0x01 ∷ [] }
        ∷ record { offset = 80; bytes = 0 ∷ 0 ∷ 2 ∷ 0 ∷ [] }
        ∷ record { offset = 96; bytes = 1 ∷ 0 ∷ 0 ∷ 0 ∷ [] }
        ∷ record { offset = 111; bytes = 1 ∷ [] } ∷ [] }
    ensures commands { slice_range (controller_fields 0x0102) 9 16 ≡
        record { offset = 256; bytes = 0x08 ∷ 0x00 ∷ [] }
        ∷ record { offset = 512; bytes = 0x66 ∷ [] }
        ∷ record { offset = 513; bytes = 0x44 ∷ [] }
        ∷ record { offset = 516; bytes = 8 ∷ 0 ∷ 0 ∷ 0 ∷ [] }
        ∷ record { offset = 520; bytes = 0x29 ∷ 0x00 ∷ [] }
        ∷ record { offset = 525; bytes = 0x04 ∷ [] }
        ∷ record { offset = 531; bytes = 3 ∷ [] } ∷ [] }
{}

/// The Active Namespace ID list ends with the highest identifier, 8.
#[tactic(auto, unfolding(nvme_spec::specs::World::is_attached))]
fn spec_highest_listed_namespace()
    ensures last { attached_above (record {
      controllers = [];
      namespaces = [];
      attachments = (1, 9) ∷ (1, 8) ∷ (1, 2) ∷ (2, 7) ∷ [];
    }) 1 2 ≡ 8 ∷ [] }
{}

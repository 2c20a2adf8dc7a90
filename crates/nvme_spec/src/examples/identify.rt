//! Identify data of a cluster's controllers and namespaces.

ghost use Rattle.std.specs.Prelude.{◌≡◌, ◌++◌, [], ◌∷◌, codes, length, replicate, slice_range, true};
ghost use Rattle.nvme_spec.specs.Identify.{
  identify_controller,
  identify_attached,
  attached_above,
  namespace_list,
  no_fields,
};
ghost use Rattle.nvme_spec.specs.World.{with_protection};
ghost use Rattle.nvme_spec.specs.AdminExamples.{cluster_world};

use crate::access::Protection;

/// Controller 3.
fn controller()
    ensures size { length (identify_controller 3) ≡ 4096 }
    ensures serial_number { slice_range (identify_controller 3) 0 24 ≡ replicate 4 0 ++ codes "NVMESIM             " }
    ensures model_number { slice_range (identify_controller 3) 24 64
        ≡ codes "Multi-Host Subsystem                    " }
    ensures firmware_revision { slice_range (identify_controller 3) 64 76 ≡ codes "1.0     " ++ replicate 4 0 }
    ensures identifier { slice_range (identify_controller 3) 76 84
        ≡ 0x02 ∷ 0x05 ∷ 0x03 ∷ 0x00 ∷ 0x00 ∷ 0x00 ∷ 0x02 ∷ 0x00 ∷ [] }
    ensures host_identifiers { slice_range (identify_controller 3) 84 100 ≡ replicate 12 0 ++ 1 ∷ 0 ∷ 0 ∷ 0 ∷ [] }
    ensures kind { slice_range (identify_controller 3) 100 112 ≡ replicate 11 0 ++ 1 ∷ [] }
    ensures admin_commands { slice_range (identify_controller 3) 112 258 ≡ replicate 144 0 ++ 0x08 ∷ 0x00 ∷ [] }
    ensures entries_and_namespaces { slice_range (identify_controller 3) 512 520
        ≡ 0x66 ∷ 0x44 ∷ 0x00 ∷ 0x00 ∷ 0x08 ∷ 0x00 ∷ 0x00 ∷ 0x00 ∷ [] }
    ensures commands { slice_range (identify_controller 3) 520 522 ≡ 0x29 ∷ 0x00 ∷ [] }
    ensures cache_and_protection { slice_range (identify_controller 3) 522 532
        ≡ 0 ∷ 0 ∷ 0 ∷ 0x04 ∷ 0 ∷ 0 ∷ 0 ∷ 0 ∷ 0 ∷ 0x03 ∷ [] }
    ensures nothing_more { slice_range (identify_controller 3) 532 4096 ≡ replicate 3564 0 }
{}

/// The shared namespace of 64 blocks, and the private one of 8, which is attached only to controller 1.
fn namespaces()
    ensures sizes { slice_range (identify_attached cluster_world 2 1) 0 24
        ≡ 64 ∷ replicate 7 0 ++ 64 ∷ replicate 7 0 ++ 64 ∷ replicate 7 0 }
    ensures sharing { slice_range (identify_attached cluster_world 2 1) 24 32 ≡ replicate 6 0 ++ 0x01 ∷ 0xff ∷ [] }
    ensures blocks_of_512_bytes { slice_range (identify_attached cluster_world 2 1) 96 132
        ≡ replicate 34 0 ++ 0x09 ∷ 0x00 ∷ [] }
    ensures nothing_more { slice_range (identify_attached cluster_world 2 1) 132 4096 ≡ replicate 3964 0 }
    ensures protected { slice_range
        (identify_attached (with_protection cluster_world 1 Protection.Protected) 2 1) 96 100
        ≡ 0 ∷ 0 ∷ 0 ∷ 1 ∷ [] }
    ensures until_cycle { slice_range
        (identify_attached (with_protection cluster_world 1 Protection.UntilCycle) 2 1) 96 100
        ≡ 0 ∷ 0 ∷ 0 ∷ 1 ∷ [] }
    ensures private { slice_range (identify_attached cluster_world 1 2) 24 32 ≡ replicate 6 0 ++ 0x00 ∷ 0xff ∷ [] }
    ensures unattached { identify_attached cluster_world 2 2 ≡ no_fields }
    ensures unknown { identify_attached cluster_world 1 3 ≡ no_fields }
{}

/// The lists of a controller's attached namespaces.
fn namespace_lists()
    ensures both { attached_above cluster_world 1 0 ≡ 1 ∷ 2 ∷ [] }
    ensures second { attached_above cluster_world 1 1 ≡ 2 ∷ [] }
    ensures no_more { attached_above cluster_world 1 2 ≡ [] }
    ensures shared_alone { attached_above cluster_world 2 0 ≡ 1 ∷ [] }
    ensures bytes { namespace_list (1 ∷ 2 ∷ []) ≡ 1 ∷ 0 ∷ 0 ∷ 0 ∷ 2 ∷ 0 ∷ 0 ∷ 0 ∷ replicate 4088 0 }
{}

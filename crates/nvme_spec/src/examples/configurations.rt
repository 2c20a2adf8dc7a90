//! Accepted configurations, and each fault alone and before another.

ghost use Rattle.std.specs.Prelude.{◌≡◌, ◌+◌, ◌-◌, ◌^◌, ◌/◌, ◌%◌, ℕ, [], ◌∷◌, map, None, Some, true, false};
ghost use Rattle.std.specs.List.{range_with_len};
ghost use Rattle.nvme_spec.specs.Configuration.{capacity, config_fault, empty_configuration, first_config_fault};
ghost use Rattle.nvme_spec.specs.Examples.{controller, namespace, single, cluster};
ghost use Rattle.nvme_spec.specs.World.{opening_world, laid_out};
ghost use Rattle.nvme_spec.specs.Reservation.{unreserved};
ghost use Rattle.nvme_spec.specs.declared.config.ConfigFault.TheVariants.{BadId, BadSize, TooMany, DoesNotFit};

use crate::access::Protection;

/// Four controllers of three hosts and two namespaces of 72 blocks together.
fn cluster_fits()
    ensures accepted { first_config_fault cluster 72 ≡ None }
    ensures one_block_short { first_config_fault cluster 71 ≡ Some DoesNotFit }
    ensures empty { first_config_fault empty_configuration 0 ≡ None }
    ensures laid_out { (opening_world cluster).namespaces ≡
        record {
          nsid = 1;
          first = 0;
          blocks = 64;
          shared = true;
          protection = Protection.Open;
          reservation = unreserved;
        }
        ∷ record {
          nsid = 2;
          first = 64;
          blocks = 8;
          shared = false;
          protection = Protection.Open;
          reservation = unreserved;
        } ∷ [] }
{}

/// Identifiers.
fn bad_ids()
    ensures gap { first_config_fault (record single { controllers = controller 1 0xa1 ∷ controller 3 0xa1 ∷ [] }) 64
        ≡ Some BadId }
    ensures from_two { first_config_fault (record single { controllers = controller 2 0xa1 ∷ [] }) 64 ≡ Some BadId }
    ensures no_host { first_config_fault (record single { controllers = controller 1 0 ∷ [] }) 64 ≡ Some BadId }
    ensures nsid_zero { first_config_fault (record single { namespaces = namespace 0 64 true ∷ []; attached = [] }) 64
        ≡ Some BadId }
    ensures nsid_nine { first_config_fault (record single { namespaces = namespace 9 64 true ∷ []; attached = [] }) 64
        ≡ Some BadId }
    ensures nsid_twice { first_config_fault
        (record single { namespaces = namespace 1 8 true ∷ namespace 1 8 true ∷ [] }) 64 ≡ Some BadId }
    ensures attached_twice { first_config_fault (record single { attached = (1, 1) ∷ (1, 1) ∷ [] }) 64 ≡ Some BadId }
    ensures unknown_controller { first_config_fault (record single { attached = (2, 1) ∷ [] }) 64 ≡ Some BadId }
    ensures unknown_namespace { first_config_fault (record single { attached = (1, 2) ∷ [] }) 64 ≡ Some BadId }
    ensures private_twice { first_config_fault (record cluster { attached = (1, 2) ∷ (2, 2) ∷ [] }) 72 ≡ Some BadId }
    ensures shared_twice { first_config_fault (record cluster { attached = (1, 1) ∷ (2, 1) ∷ [] }) 72 ≡ None }
{}

/// Sizes and counts.
fn bad_sizes_and_counts()
    ensures no_blocks { first_config_fault (record single { namespaces = namespace 1 0 true ∷ [] }) 64 ≡ Some BadSize }
    ensures largest { first_config_fault (record single { namespaces = namespace 1 65536 true ∷ [] }) 65536 ≡ None }
    ensures too_large { first_config_fault (record single { namespaces = namespace 1 65537 true ∷ [] }) 65537
        ≡ Some BadSize }
    ensures nine_namespaces { first_config_fault
        (record single { namespaces = map (λ (k : ℕ). namespace (k + 1) 1 true) (range_with_len 0 9) }) 64
        ≡ Some TooMany }
    ensures sixteen_controllers { first_config_fault
        (record single { controllers = map (λ (k : ℕ). controller (k + 1) 0xa1) (range_with_len 0 16) }) 64 ≡ None }
    ensures seventeen_controllers { first_config_fault
        (record single { controllers = map (λ (k : ℕ). controller (k + 1) 0xa1) (range_with_len 0 17) }) 64
        ≡ Some TooMany }
    ensures most_attachments { first_config_fault
        (record single { attached = map (λ (k : ℕ). (k, 1)) (range_with_len 0 129) }) 64 ≡ Some TooMany }
{}

/// Of two faults, the result is the first in the order of the tests.
fn two_faults()
    ensures count_before_id { first_config_fault
        (record single { namespaces = map (λ (k : ℕ). namespace k 1 true) (range_with_len 0 9) }) 64
        ≡ Some TooMany }
    ensures id_before_size { first_config_fault (record single { namespaces = namespace 9 0 true ∷ [] }) 64
        ≡ Some BadId }
    ensures size_before_fit { first_config_fault (record single { namespaces = namespace 1 65537 true ∷ [] }) 0
        ≡ Some BadSize }
{}

/// With a limit other than that of scripts: a namespace of 2^64 - 1 blocks, one above its limit, and two that have more
/// blocks together than 64 bits can count.
fn other_limits()
    ensures largest { config_fault (record single { namespaces = namespace 1 (2 ^ 64 - 1) true ∷ [] })
        (capacity (2 ^ 64 - 1) (2 ^ 64 - 1)) ≡ None }
    ensures too_large { config_fault (record single { namespaces = namespace 1 70000 true ∷ [] }) (capacity 69999 70000)
        ≡ Some BadSize }
    ensures too_many_blocks { config_fault
        (record single { namespaces = namespace 1 (2 ^ 64 - 1) true ∷ namespace 2 (2 ^ 64 - 1) true ∷ [] })
        (capacity (2 ^ 64 - 1) (2 ^ 64 - 1)) ≡ Some DoesNotFit }
{}

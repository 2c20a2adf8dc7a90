//! The values that other worked examples begin with.
#![tactic(auto, unfolding(nvme_spec::specs::AdminExamples::reserved_world, nvme_spec::specs::Entries::command_entry, nvme_spec::specs::Layout::reservation_of, nvme_spec::specs::World::namespace_of, nvme_spec::specs::World::opening_world))]

ghost use Rattle.std.specs.Prelude.{◌≡◌, ◌++◌, ◌+◌, ◌^◌, [], ◌∷◌, Some, replicate, false};
ghost use Rattle.nvme_spec.specs.AdminExamples.{reserved_world};
ghost use Rattle.nvme_spec.specs.Layout.{reservation_of};
ghost use Rattle.nvme_spec.specs.ClusterExamples.{registers, acquires, releases};
ghost use Rattle.nvme_spec.specs.ReservationExamples.{four_controllers, wide_controllers};

use nvme_spec::Hold;

/// Host a1h holds namespace 1 by its key 11h, with Write Exclusive, after one registration.
fn spec_reserved_world()
    ensures reservation { reservation_of reserved_world 1 ≡ Some (record {
      registrants = record { host = 0xa1; key = 0x11 } ∷ [];
      hold = Hold.One 1 0xa1;
      generation = 1;
      ptpl = false;
    }) }
{}

/// The entries of reservation commands: the opcode in byte 0, the namespace from byte 4, double word 10 from byte 40.
fn spec_reservation_commands()
    ensures registered { registers 2 1 0x11 0x22 ≡ record {
      cntlid = 2;
      entry = 0x0d ∷ 0 ∷ 0 ∷ 0 ∷ 1 ∷ replicate 35 0 ++ 1 ∷ replicate 23 0;
      window = 0x11 ∷ replicate 7 0 ++ 0x22 ∷ replicate 7 0;
    } }
    ensures acquired { acquires 2 1 3 0x11 0x22 ≡ record {
      cntlid = 2;
      entry = 0x11 ∷ 0 ∷ 0 ∷ 0 ∷ 1 ∷ replicate 35 0 ++ 1 ∷ 3 ∷ replicate 22 0;
      window = 0x11 ∷ replicate 7 0 ++ 0x22 ∷ replicate 7 0;
    } }
    ensures released { releases 2 1 3 0x11 ≡ record {
      cntlid = 2;
      entry = 0x15 ∷ 0 ∷ 0 ∷ 0 ∷ 1 ∷ replicate 35 0 ++ 1 ∷ 3 ∷ replicate 22 0;
      window = 0x11 ∷ replicate 15 0;
    } }
{}

/// Controllers and their hosts.
fn spec_controllers_of_hosts()
    ensures four { four_controllers ≡ (1, 0xa1) ∷ (2, 0xb2) ∷ (3, 0xa1) ∷ (4, 0xc3) ∷ [] }
    ensures wide { wide_controllers ≡ (1, 2 ^ 64 + 0xa1) ∷ (2, 0xa1) ∷ (3, 0xa1) ∷ [] }
{}

//! Reservations: who holds one, its type, and what a report says of a registrant.

ghost use Rattle.std.specs.Prelude.{◌≡◌, ◌++◌, [], ◌∷◌, replicate, true, false, Err};
ghost use Rattle.nvme_spec.specs.Access.{is_permitted};
ghost use Rattle.nvme_spec.specs.Report.{entry_of};
ghost use Rattle.nvme_spec.specs.Reservation.{is_holder, is_of_type, is_free, ptpl_after, Reservation};
ghost use Rattle.nvme_spec.specs.ReservationLaws.{Gives};
ghost use Rattle.nvme_spec.specs.Sound.{IsTyped};

use nvme_spec::{Group, Hold, Role};

/// Under Write Exclusive - All Registrants a host that is not registered reads, and does not write.
fn spec_outsiders()
    ensures reads { is_permitted (Hold.All 5) Role.Outsider Group.Read ≡ true }
    ensures writes { is_permitted (Hold.All 5) Role.Outsider Group.Write ≡ false }
    ensures reads_nothing { is_permitted (Hold.All 6) Role.Outsider Group.Read ≡ false }
{}

/// The type of a reservation, and whether there is one.
fn spec_types_of_reservations()
    ensures none { is_of_type Hold.Free 0 ≡ false }
    ensures one { is_of_type (Hold.One 3 0xa1) 3 ≡ true }
    ensures another { is_of_type (Hold.One 3 0xa1) 4 ≡ false }
    ensures all { is_of_type (Hold.All 5) 5 ≡ true }
    ensures all_of_another { is_of_type (Hold.All 5) 6 ≡ false }
    ensures free { is_free Hold.Free ≡ true }
    ensures held { is_free (Hold.One 3 0xa1) ≡ false }
    ensures held_by_all { is_free (Hold.All 5) ≡ false }
{}

/// All registrants hold a reservation of type 5, and no other host does.
fn spec_holders()
    ensures registrant { is_holder (record {
      registrants = record { host = 0xb2; key = 0x22 } ∷ [];
      hold = Hold.All 5;
      generation = 1;
      ptpl = false;
    }) 0xb2 ≡ true }
    ensures outsider { is_holder (record {
      registrants = record { host = 0xb2; key = 0x22 } ∷ [];
      hold = Hold.All 5;
      generation = 1;
      ptpl = false;
    }) 0xa1 ≡ false }
{}

/// CPTPL: 00b is no change, 01b reserved, 10b clears PTPL and 11b sets it.
fn spec_persistence()
    ensures unchanged { ptpl_after 0 true ≡ true }
    ensures reserved { ptpl_after 1 true ≡ true }
    ensures cleared { ptpl_after 2 true ≡ false }
    ensures set { ptpl_after 3 false ≡ true }
    ensures unchanged_too { ptpl_after 0 false ≡ false }
{}

/// A registered controller in a report, of 64 bytes: CNTLID, RCSTS, RKEY from byte 8 and HOSTID from byte 16.
#[tactic(auto, unfolding(nvme_spec::specs::Report::entry_of))]
fn spec_reported_controllers()
    ensures holder { entry_of 0x0403 true 0xa1 0x11
        ≡ 3 ∷ 4 ∷ 1 ∷ replicate 5 0 ++ 0x11 ∷ replicate 7 0 ++ 0xa1 ∷ replicate 47 0 }
    ensures registrant { entry_of 3 false 0xb2 0x22
        ≡ 3 ∷ 0 ∷ 0 ∷ replicate 5 0 ++ 0x22 ∷ replicate 7 0 ++ 0xb2 ∷ replicate 47 0 }
{}

/// A denied action has no next state. A reservation that all registrants hold is of type 5 or 6.
fn spec_denied_actions()
    ensures denied { Gives (Err (record { sct = 0; sc = 0x83 })) (λ (r : Reservation). r.generation ≡ r.generation)
        → ⊥ }
    ensures type_4 { IsTyped (Hold.All 4) → ⊥ }
    ensures type_5 { IsTyped (Hold.All 5) }
    ensures type_6 { IsTyped (Hold.All 6) }
    ensures type_7 { IsTyped (Hold.All 7) → ⊥ }
{}

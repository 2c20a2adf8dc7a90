//! Reservations of a namespace whose hosts have the identifiers a1h, b2h and c3h.

ghost use Rattle.std.specs.Prelude.{◌≡◌, ◌+◌, ◌^◌, true, false, [], ◌∷◌, ◌++◌, Err, replicate};
ghost use Rattle.nvme_spec.specs.Reservation.{
  unreserved,
  becomes,
  role_of,
  register,
  unregister,
  replace,
  acquire,
  preempt,
  release,
  clear,
};
ghost use Rattle.nvme_spec.specs.Statuses as status;
ghost use Rattle.nvme_spec.specs.Access.{is_permitted};
ghost use Rattle.nvme_spec.specs.Report.{reported_controllers, report_data};
ghost use Rattle.nvme_spec.specs.ReservationExamples.{
  preempting,
  steps,
  permissions,
  state,
  a1,
  b2,
  c3,
  wide,
  four_controllers,
  wide_controllers,
};

use crate::access::{Group, Hold, Role};

/// The table of reservation types: what a host that is not registered, a registrant and a holder may read and write.
fn reservation_types()
    ensures write_exclusive { permissions 1 ≡ (true, false) ∷ (true, false) ∷ (true, true) ∷ [] }
    ensures exclusive_access { permissions 2 ≡ (false, false) ∷ (false, false) ∷ (true, true) ∷ [] }
    ensures write_exclusive_registrants_only { permissions 3 ≡ (true, false) ∷ (true, true) ∷ (true, true) ∷ [] }
    ensures exclusive_access_registrants_only { permissions 4 ≡ (false, false) ∷ (true, true) ∷ (true, true) ∷ [] }
    ensures write_exclusive_all_registrants { permissions 5 ≡ (true, false) ∷ (true, true) ∷ (true, true) ∷ [] }
    ensures exclusive_access_all_registrants { permissions 6 ≡ (false, false) ∷ (true, true) ∷ (true, true) ∷ [] }
{}

/// One host reserves the namespace with type 1; the others may read it, but not write it.
fn write_exclusive()
    ensures reserved { steps unreserved ((λ r. register r 0xa1 0x11) ∷ (λ r. acquire r 0xa1 1 0x11) ∷ [])
        ≡ becomes (state (a1 0x11 ∷ []) (Hold.One 1 0xa1) 1) }
    ensures outsider { role_of (state (a1 0x11 ∷ []) (Hold.One 1 0xa1) 1) 0xb2 ≡ Role.Outsider }
    ensures writes { is_permitted (Hold.One 1 0xa1) Role.Outsider Group.Write ≡ false }
    ensures reads { is_permitted (Hold.One 1 0xa1) Role.Outsider Group.Read ≡ true }
    ensures wrong_type { release (state (a1 0x11 ∷ []) (Hold.One 1 0xa1) 1) 0xa1 3 0x11
        ≡ Err status.invalid_field_in_command }
    ensures released { release (state (a1 0x11 ∷ []) (Hold.One 1 0xa1) 1) 0xa1 1 0x11
        ≡ becomes (state (a1 0x11 ∷ []) Hold.Free 1) }
    ensures free { is_permitted Hold.Free Role.Outsider Group.Write ≡ true }
{}

/// One host reserves the namespace with type 4: each of its controllers has the holder's role.
fn roles_are_by_host()
    ensures reserved { steps unreserved ((λ r. register r 0xa1 0x11) ∷ (λ r. acquire r 0xa1 4 0x11) ∷ [])
        ≡ becomes (state (a1 0x11 ∷ []) (Hold.One 4 0xa1) 1) }
    ensures same_host { role_of (state (a1 0x11 ∷ []) (Hold.One 4 0xa1) 1) 0xa1 ≡ Role.Holder }
    ensures same_host_reads { is_permitted (Hold.One 4 0xa1) Role.Holder Group.Read ≡ true }
    ensures both_reported { reported_controllers (state (a1 0x11 ∷ []) (Hold.One 4 0xa1) 1) four_controllers
        ≡ (1, 0xa1) ∷ (3, 0xa1) ∷ [] }
    ensures other_host { role_of (state (a1 0x11 ∷ []) (Hold.One 4 0xa1) 1) 0xb2 ≡ Role.Outsider }
    ensures other_host_reads { is_permitted (Hold.One 4 0xa1) Role.Outsider Group.Read ≡ false }
{}

/// A registrant preempts all others of a type 6 reservation, and then holds it alone with type 1.
#[tactic(auto, unfolding(crate::specs::Report::report_data, crate::specs::Report::header, crate::specs::Report::entry_of))]
fn preempt_of_all_registrants()
    ensures before { steps unreserved ((λ r. register r 0xa1 0x11) ∷ (λ r. register r 0xb2 0x22)
        ∷ (λ r. acquire r 0xa1 6 0x11) ∷ []) ≡ becomes (state (a1 0x11 ∷ b2 0x22 ∷ []) (Hold.All 6) 2) }
    ensures preempted { preempt (state (a1 0x11 ∷ b2 0x22 ∷ []) (Hold.All 6) 2) 0xb2 1 0x22 0
        ≡ preempting (state (b2 0x22 ∷ []) (Hold.One 1 0xb2) 3) (0xa1 ∷ []) }
    ensures reported { report_data (state (b2 0x22 ∷ []) (Hold.One 1 0xb2) 3) four_controllers 128
        ≡ (3 ∷ 0 ∷ 0 ∷ 0 ∷ 1 ∷ 1 ∷ []) ++ replicate 58 0 ++ (2 ∷ 0 ∷ 1 ∷ []) ++ replicate 5 0 ++ (0x22 ∷ [])
        ++ replicate 7 0 ++ (0xb2 ∷ []) ++ replicate 47 0 }
    ensures cut { report_data (state (b2 0x22 ∷ []) (Hold.One 1 0xb2) 3) four_controllers 8
        ≡ 3 ∷ 0 ∷ 0 ∷ 0 ∷ 1 ∷ 1 ∷ 0 ∷ 0 ∷ [] }
    ensures filled { report_data (state (b2 0x22 ∷ []) (Hold.One 1 0xb2) 3) four_controllers 132
        ≡ report_data (state (b2 0x22 ∷ []) (Hold.One 1 0xb2) 3) four_controllers 128 ++ replicate 4 0 }
    ensures again_with_type_3 { preempt (state (b2 0x22 ∷ []) (Hold.One 1 0xb2) 3) 0xb2 3 0x22 0
        ≡ Err status.invalid_field_in_command }
    ensures again { preempt (state (b2 0x22 ∷ []) (Hold.One 1 0xb2) 3) 0xb2 1 0x22 0
        ≡ Err status.invalid_field_in_command }
{}

/// Hosts that differ only in their upper 64 bits are two hosts. One holds the reservation; the other is not a
/// registrant, has no key, and is not reported.
#[tactic(auto, unfolding(crate::specs::Report::report_data, crate::specs::Report::header, crate::specs::Report::entry_of))]
fn hosts_of_128_bits()
    ensures reserved { steps unreserved ((λ r. register r (2 ^ 64 + 0xa1) 0x11)
        ∷ (λ r. acquire r (2 ^ 64 + 0xa1) 2 0x11) ∷ [])
        ≡ becomes (state (wide 0x11 ∷ []) (Hold.One 2 (2 ^ 64 + 0xa1)) 1) }
    ensures holder { role_of (state (wide 0x11 ∷ []) (Hold.One 2 (2 ^ 64 + 0xa1)) 1) (2 ^ 64 + 0xa1) ≡ Role.Holder }
    ensures outsider { role_of (state (wide 0x11 ∷ []) (Hold.One 2 (2 ^ 64 + 0xa1)) 1) 0xa1 ≡ Role.Outsider }
    ensures registrant { role_of (state (a1 0x11 ∷ wide 0x12 ∷ []) (Hold.One 2 (2 ^ 64 + 0xa1)) 1) 0xa1
        ≡ Role.Registrant }
    ensures other_key { acquire (state (a1 0x11 ∷ wide 0x12 ∷ []) Hold.Free 1) 0xa1 2 0x12
        ≡ Err status.reservation_conflict }
    ensures reported { report_data (state (wide 0x11 ∷ []) (Hold.One 2 (2 ^ 64 + 0xa1)) 1) wide_controllers 128
        ≡ (1 ∷ 0 ∷ 0 ∷ 0 ∷ 2 ∷ 1 ∷ []) ++ replicate 58 0 ++ (1 ∷ 0 ∷ 1 ∷ []) ++ replicate 5 0 ++ (0x11 ∷ [])
        ++ replicate 7 0 ++ (0xa1 ∷ []) ++ replicate 7 0 ++ (1 ∷ []) ++ replicate 39 0 }
    ensures own_keys { report_data (state (a1 0x11 ∷ wide 0x12 ∷ []) Hold.Free 2) ((1, 2 ^ 64 + 0xa1) ∷ []) 128
        ≡ (2 ∷ 0 ∷ 0 ∷ 0 ∷ 0 ∷ 1 ∷ []) ++ replicate 58 0 ++ (1 ∷ []) ++ replicate 7 0 ++ (0x12 ∷ [])
        ++ replicate 7 0 ++ (0xa1 ∷ []) ++ replicate 7 0 ++ (1 ∷ []) ++ replicate 39 0 }
{}

/// Registrants leave a type 5 reservation: it stays until the last one leaves.
#[tactic(auto, unfolding(crate::specs::Report::report_data, crate::specs::Report::header, crate::specs::Report::entry_of))]
fn registrants_leave()
    ensures two_left { steps unreserved ((λ r. register r 0xa1 0x11) ∷ (λ r. register r 0xb2 0x22)
        ∷ (λ r. register r 0xc3 0x33) ∷ (λ r. acquire r 0xa1 5 0x11) ∷ (λ r. unregister r 0xa1 false 0x11)
        ∷ (λ r. unregister r 0xb2 false 0x22) ∷ []) ≡ becomes (state (c3 0x33 ∷ []) (Hold.All 5) 5) }
    ensures writes { is_permitted (Hold.All 5) Role.Outsider Group.Write ≡ false }
    ensures last_left { unregister (state (c3 0x33 ∷ []) (Hold.All 5) 5) 0xc3 false 0x33
        ≡ becomes (state [] Hold.Free 6) }
    ensures reported { report_data (state [] Hold.Free 6) four_controllers 64 ≡ 6 ∷ replicate 63 0 }
{}

/// Key 0 is a key like any other, but Preempt never finds it.
fn key_zero()
    ensures unregistered { acquire unreserved 0xa1 1 0 ≡ Err status.reservation_conflict }
    ensures twice { steps unreserved ((λ r. register r 0xa1 0) ∷ (λ r. register r 0xa1 0) ∷ [])
        ≡ becomes (state (a1 0 ∷ []) Hold.Free 2) }
    ensures other_key { register (state (a1 0 ∷ []) Hold.Free 2) 0xa1 1 ≡ Err status.reservation_conflict }
    ensures nobody { preempt (state (a1 0 ∷ []) Hold.Free 2) 0xa1 1 0 5 ≡ Err status.reservation_conflict }
    ensures nothing_held { release (state (a1 0 ∷ []) Hold.Free 2) 0xa1 1 0 ≡ becomes (state (a1 0 ∷ []) Hold.Free 2) }
    ensures acquired { acquire (state (a1 0 ∷ []) Hold.Free 2) 0xa1 1 0
        ≡ becomes (state (a1 0 ∷ []) (Hold.One 1 0xa1) 2) }
    ensures own_key { preempt (state (a1 0 ∷ []) (Hold.One 1 0xa1) 2) 0xa1 1 0 0 ≡ Err status.invalid_field_in_command }
{}

/// Two hosts have the same key, and one preempts the other, which holds the reservation: the issuer stays.
fn preempt_of_the_holder()
    ensures preempted { steps unreserved ((λ r. register r 0xa1 0x11) ∷ (λ r. register r 0xb2 0x11)
        ∷ (λ r. acquire r 0xa1 1 0x11) ∷ (λ r. preempt r 0xb2 3 0x11 0x11) ∷ [])
        ≡ preempting (state (b2 0x11 ∷ []) (Hold.One 3 0xb2) 3) (0xa1 ∷ []) }
{}

/// A key that is not that of a single holder removes each registrant that has it, the issuer too.
fn preempt_by_key()
    ensures free { preempt (state (a1 0x11 ∷ b2 0x11 ∷ c3 0x33 ∷ []) Hold.Free 3) 0xa1 1 0x11 0x11
        ≡ preempting (state (c3 0x33 ∷ []) Hold.Free 4) (0xa1 ∷ 0xb2 ∷ []) }
    ensures held_by_other { preempt (state (a1 0x11 ∷ b2 0x22 ∷ c3 0x33 ∷ []) (Hold.One 2 0xc3) 3) 0xa1 1 0x11 0x22
        ≡ preempting (state (a1 0x11 ∷ c3 0x33 ∷ []) (Hold.One 2 0xc3) 4) (0xb2 ∷ []) }
    ensures held_by_all { preempt (state (a1 0x11 ∷ b2 0x11 ∷ []) (Hold.All 5) 2) 0xa1 1 0x11 0x11
        ≡ preempting (state [] Hold.Free 3) (0xa1 ∷ 0xb2 ∷ []) }
{}

/// Replace with IEKEY registers a new host, and Clear removes all.
fn replace_and_clear()
    ensures newcomer { replace unreserved 0xa1 true 0 0x11 ≡ becomes (state (a1 0x11 ∷ []) Hold.Free 1) }
    ensures denied { replace unreserved 0xa1 false 0 0x11 ≡ Err status.reservation_conflict }
    ensures replaced { replace (state (a1 0x11 ∷ b2 0x22 ∷ []) (Hold.One 1 0xa1) 2) 0xb2 false 0x22 0x44
        ≡ becomes (state (a1 0x11 ∷ b2 0x44 ∷ []) (Hold.One 1 0xa1) 3) }
    ensures cleared { clear (state (a1 0x11 ∷ b2 0x22 ∷ []) (Hold.One 1 0xa1) 2) 0xb2 0x22
        ≡ becomes (state [] Hold.Free 3) }
    ensures counter_wraps { clear (state (a1 0x11 ∷ []) Hold.Free 4294967295) 0xa1 0x11
        ≡ becomes (state [] Hold.Free 0) }
{}

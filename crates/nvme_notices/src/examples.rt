//! Worked examples of the definitions. Each is the contract of an empty function, proved by computing. The hosts have
//! the identifiers a1h, b2h, c3h and d4h; d4h is never registered.
#![tactic(auto, unfolding(crate::specs::Keeping::page_of_notice))]

ghost use Rattle.std.specs.Prelude.{◌≡◌, ℕ, true, false, [], ◌∷◌, ◌++◌, None, Some, replicate, length};
ghost use Rattle.nvme_spec.specs.ReservationExamples.{state, a1, b2, c3};
ghost use Rattle.nvme_notices.specs.Examples.{heard, filled, counts, read_up_to};
ghost use Rattle.nvme_notices.specs.Keeping.{
  no_notices,
  added,
  taken,
  with_mask,
  mask_of,
  count_after,
  page,
};

use crate::hearing::Action;
use crate::notice::NoticeType;
use nvme_spec::Hold;

/// A reservation is released. Under types 1 and 2 nobody hears of it; under the other types each other registrant does.
fn release()
    ensures write_exclusive { heard Action.Release 0xa1
        (state (a1 0x11 ∷ b2 0x22 ∷ []) (Hold.One 1 0xa1) 2) (state (a1 0x11 ∷ b2 0x22 ∷ []) Hold.Free 2)
        ≡ None ∷ None ∷ None ∷ None ∷ [] }
    ensures registrants_only { heard Action.Release 0xa1
        (state (a1 0x11 ∷ b2 0x22 ∷ []) (Hold.One 3 0xa1) 2) (state (a1 0x11 ∷ b2 0x22 ∷ []) Hold.Free 2)
        ≡ None ∷ Some NoticeType.ReservationReleased ∷ None ∷ None ∷ [] }
    ensures all_registrants { heard Action.Release 0xb2
        (state (a1 0x11 ∷ b2 0x22 ∷ c3 0x33 ∷ []) (Hold.All 6) 3)
        (state (a1 0x11 ∷ b2 0x22 ∷ c3 0x33 ∷ []) Hold.Free 3)
        ≡ Some NoticeType.ReservationReleased ∷ None ∷ Some NoticeType.ReservationReleased ∷ None ∷ [] }
    ensures not_held { heard Action.Release 0xb2
        (state (a1 0x11 ∷ b2 0x22 ∷ []) (Hold.One 3 0xa1) 2) (state (a1 0x11 ∷ b2 0x22 ∷ []) (Hold.One 3 0xa1) 2)
        ≡ None ∷ None ∷ None ∷ None ∷ [] }
{}

/// A holder unregisters. Its reservation of type 4 ends, and the others hear of it. One of type 5 stays with them.
fn unregister()
    ensures registrants_only { heard Action.Register 0xa1
        (state (a1 0x11 ∷ b2 0x22 ∷ []) (Hold.One 4 0xa1) 2) (state (b2 0x22 ∷ []) Hold.Free 3)
        ≡ None ∷ Some NoticeType.ReservationReleased ∷ None ∷ None ∷ [] }
    ensures exclusive_access { heard Action.Register 0xa1
        (state (a1 0x11 ∷ b2 0x22 ∷ []) (Hold.One 2 0xa1) 2) (state (b2 0x22 ∷ []) Hold.Free 3)
        ≡ None ∷ None ∷ None ∷ None ∷ [] }
    ensures all_registrants { heard Action.Register 0xa1
        (state (a1 0x11 ∷ b2 0x22 ∷ []) (Hold.All 5) 2) (state (b2 0x22 ∷ []) (Hold.All 5) 3)
        ≡ None ∷ None ∷ None ∷ None ∷ [] }
{}

/// Host b2h preempts host a1h, which holds the reservation. Host c3h hears of it only if the type changes.
fn preempt()
    ensures same_type { heard Action.Preempt 0xb2
        (state (a1 0x11 ∷ b2 0x22 ∷ c3 0x33 ∷ []) (Hold.One 1 0xa1) 3)
        (state (b2 0x22 ∷ c3 0x33 ∷ []) (Hold.One 1 0xb2) 4)
        ≡ Some NoticeType.RegistrationPreempted ∷ None ∷ None ∷ None ∷ [] }
    ensures other_type { heard Action.Preempt 0xb2
        (state (a1 0x11 ∷ b2 0x22 ∷ c3 0x33 ∷ []) (Hold.One 1 0xa1) 3)
        (state (b2 0x22 ∷ c3 0x33 ∷ []) (Hold.One 3 0xb2) 4)
        ≡ Some NoticeType.RegistrationPreempted ∷ None ∷ Some NoticeType.ReservationReleased ∷ None ∷ [] }
    ensures all_registrants { heard Action.Preempt 0xb2
        (state (a1 0x11 ∷ b2 0x22 ∷ c3 0x33 ∷ []) (Hold.All 6) 3) (state (b2 0x22 ∷ []) (Hold.One 1 0xb2) 4)
        ≡ Some NoticeType.RegistrationPreempted ∷ None ∷ Some NoticeType.RegistrationPreempted ∷ None ∷ [] }
    ensures itself { heard Action.Preempt 0xa1
        (state (a1 0x11 ∷ b2 0x11 ∷ c3 0x33 ∷ []) Hold.Free 3) (state (c3 0x33 ∷ []) Hold.Free 4)
        ≡ None ∷ Some NoticeType.RegistrationPreempted ∷ None ∷ None ∷ [] }
{}

/// Host c3h clears a reservation: the others hear that it was preempted, its holder or not. An Acquire and a
/// registration are heard by nobody.
fn clear_and_others()
    ensures clear { heard Action.Clear 0xc3
        (state (a1 0x11 ∷ b2 0x22 ∷ c3 0x33 ∷ []) (Hold.One 1 0xa1) 3) (state [] Hold.Free 4)
        ≡ Some NoticeType.ReservationPreempted ∷ Some NoticeType.ReservationPreempted ∷ None ∷ None ∷ [] }
    ensures acquire { heard Action.Acquire 0xa1
        (state (a1 0x11 ∷ b2 0x22 ∷ []) Hold.Free 2) (state (a1 0x11 ∷ b2 0x22 ∷ []) (Hold.One 3 0xa1) 2)
        ≡ None ∷ None ∷ None ∷ None ∷ [] }
    ensures register { heard Action.Register 0xb2
        (state (a1 0x11 ∷ []) (Hold.One 3 0xa1) 1) (state (a1 0x11 ∷ b2 0x22 ∷ []) (Hold.One 3 0xa1) 2)
        ≡ None ∷ None ∷ None ∷ None ∷ [] }
{}

/// The pages of two notices, and then an empty one.
fn pages()
    ensures first { page (added (added no_notices 1 NoticeType.RegistrationPreempted) 3
        NoticeType.ReservationReleased).kept
        ≡ (1 ∷ []) ++ replicate 7 0 ++ (1 ∷ 1 ∷ 0 ∷ 0 ∷ 1 ∷ []) ++ replicate 51 0 }
    ensures second { page (taken (added (added no_notices 1 NoticeType.RegistrationPreempted) 3
        NoticeType.ReservationReleased)).kept
        ≡ (2 ∷ []) ++ replicate 7 0 ++ (2 ∷ 0 ∷ 0 ∷ 0 ∷ 3 ∷ []) ++ replicate 51 0 }
    ensures empty { page no_notices.kept ≡ replicate 64 0 }
{}

/// A mask applies to one namespace and one type. Reserved bits of double word 11 are ignored.
fn masks()
    ensures kept { mask_of (with_mask no_notices 2 0xffffffff) 2 ≡ 14 }
    ensures other_namespace { mask_of (with_mask no_notices 2 0xffffffff) 1 ≡ 0 }
    ensures masked { added (with_mask no_notices 2 4) 2 NoticeType.ReservationReleased ≡ with_mask no_notices 2 4 }
    ensures other_type { counts (added (with_mask no_notices 2 4) 2 NoticeType.ReservationPreempted) ≡ 1 ∷ [] }
    ensures other { counts (added (with_mask no_notices 2 4) 1 NoticeType.ReservationReleased) ≡ 1 ∷ [] }
{}

/// 66 notices: the last two are lost, and the 64th gets the count of the last one. The count never is 0 again.
fn overflow()
    ensures kept { length (filled NoticeType.ReservationReleased 66).kept ≡ 64 }
    ensures lost { counts (filled NoticeType.ReservationReleased 66) ≡ counts (filled NoticeType.ReservationReleased 63)
        ++ (66 ∷ []) }
    ensures wrapped { counts (added (read_up_to 18446744073709551615) 1 NoticeType.ReservationReleased) ≡ 1 ∷ [] }
{}

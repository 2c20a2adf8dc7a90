//! Notices that a controller keeps for its host.

ghost use Rattle.std.specs.Prelude.{[], ◌∷◌, ◌≡◌, true, false, take};
ghost use Rattle.nvme_notices.specs.declared.notice.NoticeType.TheVariants.{
  RegistrationPreempted,
  ReservationReleased,
  ReservationPreempted,
};
ghost use Rattle.nvme_notices.specs.declared.notice.Notice.{Notice};
ghost use Rattle.nvme_notices.specs.declared.raw.RawNotices.{RawNotices};
ghost use Rattle.nvme_notices.specs.Keeping.{notices_of, no_notices, is_in_mask};
ghost use Rattle.nvme_notices.specs.Runs.{CountsRise};

/// At most 64 notices are kept, and none after a reset, which removes the masks of all 8 namespaces.
fn core_kept_notices()
    ensures most { (raw : RawNotices) → raw.kept ≡ 70 → (notices_of raw).kept ≡ take 64 raw.places }
    ensures fewer { (raw : RawNotices) → raw.kept ≡ 3 → (notices_of raw).kept ≡ take 3 raw.places }
    ensures reset { no_notices ≡ record { masks = 0 ∷ 0 ∷ 0 ∷ 0 ∷ 0 ∷ 0 ∷ 0 ∷ 0 ∷ []; kept = []; count = 0 } }
{}

/// REGPRE is bit 1 of a mask, RESREL bit 2, RESPRE bit 3.
fn core_notice_masks()
    ensures registration { is_in_mask 2 RegistrationPreempted ≡ true }
    ensures other { is_in_mask 2 ReservationReleased ≡ false }
    ensures released { is_in_mask 4 ReservationReleased ≡ true }
    ensures preempted { is_in_mask 8 ReservationPreempted ≡ true }
{}

/// Each Log Page Count is above the one before.
fn core_notice_counts()
    ensures rise { (n : Notice) → n.count ≡ 6 → CountsRise 5 (n ∷ []) 7 }
    ensures equal { (n : Notice) → n.count ≡ 5 → CountsRise 5 (n ∷ []) 7 → ⊥ }
    ensures above_last { (n : Notice) → n.count ≡ 8 → CountsRise 5 (n ∷ []) 7 → ⊥ }
{}

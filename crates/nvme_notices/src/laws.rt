//! Laws that follow from the definitions. Each is the contract of an empty function.

ghost use Rattle.std.specs.Prelude.{
  ◌≡◌,
  ℕ,
  ◌<◌,
  ◌≤◌,
  ◌==◌,
  true,
  false,
  List,
  length,
  map,
  ◌++◌,
  None,
  Some,
  Ok,
};
ghost use Rattle.std.specs.List.{list_any};
ghost use Rattle.nvme_spec.specs.Reservation.{Reservation, Transition, is_registered, preempt};
ghost use Rattle.nvme_notices.specs.declared.notice.NoticeType.{NoticeType as Kind};
ghost use Rattle.nvme_notices.specs.declared.hearing.Action.{Action as Act};
ghost use Rattle.nvme_notices.specs.Hearing.{heard_by};
ghost use Rattle.nvme_notices.specs.Keeping.{Notices, added, taken, with_mask, is_masked, no_notices};
ghost use Rattle.nvme_notices.specs.Runs.{
  Step,
  content,
  after_run,
  read_in,
  kept_in,
  IsCounted,
};

use crate::hearing::Action;
use crate::notice::NoticeType;

/// Who hears nothing: the host that issued the command, a host that is registered neither before nor after it, and
/// every host after an Acquire.
fn silence()
    ensures issuer { (action : Act) → (issuer : ℕ) → (before after : Reservation)
        → heard_by action issuer before after issuer ≡ None }
    ensures stranger { (action : Act) → (issuer host : ℕ) → (before after : Reservation)
        → is_registered before.registrants host ≡ false → is_registered after.registrants host ≡ false
        → heard_by action issuer before after host ≡ None }
    ensures acquire { (issuer host : ℕ) → (before after : Reservation)
        → heard_by Action.Acquire issuer before after host ≡ None }
{}

/// Each host that a Preempt has removed, except its issuer, hears that its registration was preempted.
fn removed_hosts_hear()
    ensures { (r : Reservation) → (issuer rtype crkey prkey host : ℕ) → (t : Transition)
        → preempt r issuer rtype crkey prkey ≡ Ok t → list_any (λ h. h == host) t.removed ≡ true
        → (host == issuer) ≡ false
        → heard_by Action.Preempt issuer r t.next host ≡ Some NoticeType.RegistrationPreempted }
{}

/// A masked notice changes nothing.
fn masked()
    ensures { (n : Notices) → (nsid : ℕ) → (kind : Kind) → is_masked n nsid kind ≡ true → added n nsid kind ≡ n }
{}

/// What a host has read, and then what its controller still keeps, is what was kept at first and since, in order: each
/// notice is read once.
fn in_order()
    ensures { (n : Notices) → (steps : List Step) → read_in n steps ++ map content (after_run n steps).kept
        ≡ map content n.kept ++ kept_in n steps }
{}

/// At most 64 notices are kept.
fn bounded()
    ensures { (n : Notices) → (steps : List Step) → length n.kept ≤ 64 → length (after_run n steps).kept ≤ 64 }
{}

/// The counts of the notices that are kept rise, as long as the count has not reached its end.
fn counted()
    ensures first { IsCounted no_notices }
    ensures adds { (n : Notices) → (nsid : ℕ) → (kind : Kind) → n.count < 18446744073709551615 → IsCounted n
        → IsCounted (added n nsid kind) }
    ensures reads { (n : Notices) → IsCounted n → IsCounted (taken n) }
    ensures masks { (n : Notices) → (nsid dw11 : ℕ) → IsCounted n → IsCounted (with_mask n nsid dw11) }
{}

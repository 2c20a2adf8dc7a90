//! Laws of reservations. No law says that a denied action changes nothing, since its outcome has no state.

ghost use Rattle.std.specs.Prelude.{◌≡◌, ℕ, Bool, true, false, List, length};
ghost use Rattle.nvme_spec.specs.Reservation.{
  Reservation,
  IsRising,
  unreserved,
  is_registered,
  is_of_all,
  role_of,
  register,
  unregister,
  replace,
  acquire,
  preempt,
  release,
  clear,
};
ghost use Rattle.nvme_spec.specs.Access.{is_permitted};
ghost use Rattle.nvme_spec.specs.Report.{ControllerHost, HasRisingIds, reported_controllers, report_data};
ghost use Rattle.nvme_spec.specs.ReservationLaws.{Gives, Keeps, IsHeldByRegistrants};

use crate::access::{Group, Hold, Role};

/// A host that registers and unregisters with its key leaves the registrants unchanged.
fn unregister_undoes_register()
    ensures { (r : Reservation) → (host key : ℕ) → IsRising r.registrants → is_registered r.registrants host ≡ false
        → Gives (register r host key) (λ next. Gives (unregister next host false key) (λ last. last.registrants
        ≡ r.registrants)) }
{}

/// Each registrant holds a reservation of all registrants; only its holder holds one of a single host.
fn holders()
    ensures all { (r : Reservation) → (host : ℕ) → is_of_all r.hold ≡ true → is_registered r.registrants host ≡ true
        → role_of r host ≡ Role.Holder }
    ensures one { (r : Reservation) → (type holder host : ℕ) → r.hold ≡ Hold.One type holder
        → role_of r host ≡ Role.Holder → host ≡ holder }
{}

/// A host that may write may read.
fn writers_read()
    ensures { (hold : Hold) → (role : Role) → is_permitted hold role Group.Write ≡ true
        → is_permitted hold role Group.Read ≡ true }
{}

/// A holder may read and write.
fn holders_write()
    ensures { (hold : Hold) → is_permitted hold Role.Holder Group.Write ≡ true }
{}

/// A report has the requested length, and its entries are in rising order of controllers if the controllers are.
fn reports()
    ensures size { (r : Reservation) → (controllers : List ControllerHost) → (size : ℕ)
        → length (report_data r controllers size) ≡ size }
    ensures rising { (r : Reservation) → (controllers : List ControllerHost) → HasRisingIds controllers
        → HasRisingIds (reported_controllers r controllers) }
{}

/// From a new namespace on, whatever the actions are, the holder is registered.
fn held_by_registrants()
    ensures new { IsHeldByRegistrants unreserved }
    ensures register { (r : Reservation) → (host key : ℕ) → IsHeldByRegistrants r
        → Keeps (register r host key) IsHeldByRegistrants }
    ensures unregister { (r : Reservation) → (host : ℕ) → (iekey : Bool) → (crkey : ℕ)
        → Keeps (unregister r host iekey crkey) IsHeldByRegistrants }
    ensures replace { (r : Reservation) → (host : ℕ) → (iekey : Bool) → (crkey nrkey : ℕ) → IsHeldByRegistrants r
        → Keeps (replace r host iekey crkey nrkey) IsHeldByRegistrants }
    ensures acquire { (r : Reservation) → (host rtype crkey : ℕ) → IsHeldByRegistrants r
        → Keeps (acquire r host rtype crkey) IsHeldByRegistrants }
    ensures preempt { (r : Reservation) → (host rtype crkey prkey : ℕ)
        → Keeps (preempt r host rtype crkey prkey) IsHeldByRegistrants }
    ensures release { (r : Reservation) → (host rtype crkey : ℕ) → IsHeldByRegistrants r
        → Keeps (release r host rtype crkey) IsHeldByRegistrants }
    ensures clear { (r : Reservation) → (host crkey : ℕ) → Keeps (clear r host crkey) IsHeldByRegistrants }
{}

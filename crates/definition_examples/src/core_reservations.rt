//! The results of reservation actions, and the states that they leave.

ghost use Rattle.std.specs.Prelude.{◌≡◌, Result, Ok, Err};
ghost use Rattle.nvme_wire.specs.declared.status.Status.{Status};
ghost use Rattle.nvme_spec.specs.Reservation.{Reservation, Transition};
ghost use Rattle.nvme_resv.specs.declared.change.Change.{Change};
ghost use Rattle.nvme_resv.specs.Answers.{Follows};

/// A denied action returns its status, and changes nothing.
fn core_denied_actions()
    ensures status { (why : Status) → (before after : Reservation) → (result : Result Change Status)
        → Follows (Err why) before result after → result ≡ Err why }
    ensures unchanged { (why : Status) → (before after : Reservation) → (result : Result Change Status)
        → Follows (Err why) before result after → after ≡ before }
{}

/// An allowed action returns the hosts that it removed, and leaves the next state.
fn core_allowed_actions()
    ensures removed { (t : Transition) → (before after : Reservation) → (result : Result Change Status)
        → Follows (Ok t) before result after → result ≡ Ok (record { removed = record { items = t.removed } }) }
    ensures next { (t : Transition) → (before after : Reservation) → (result : Result Change Status)
        → Follows (Ok t) before result after → after ≡ t.next }
{}

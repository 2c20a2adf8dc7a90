//! Tickets of results, and what is known of each ticket after a run.

ghost use Rattle.std.specs.Prelude.{[], ◌+◌, ◌∷◌, ◌≡◌, ◌≤◌, ℕ, List, None, Some, Ok};
ghost use Rattle.nvme_driver.specs.declared.answer.Answer.TheVariants.{Aborted};
ghost use Rattle.nvme_event.specs.declared.seen.FleetSeen.TheVariants.{Polled, Reset};
ghost use Rattle.nvme_mailbox.specs.Mailboxes.{Mailbox};
ghost use Rattle.nvme_mailbox.specs.Tickets.{
  aborted_in,
  total,
  times,
  held_tickets,
  answered_tickets,
  Balance,
  GoesOnce,
};

/// The ticket of a request that is delivered as aborted.
fn mailbox_aborted_tickets()
    ensures aborted { aborted_in (Polled (Ok (Some (Aborted (record { 0 = 7 }))))) ≡ 7 ∷ [] }
    ensures nothing { aborted_in (Polled (Ok None)) ≡ [] }
    ensures reset { aborted_in Reset ≡ [] }
{}

/// What is done was answered before, or executed in the run.
fn mailbox_balanced_tickets()
    ensures answered { (weight : ℕ → ℕ) → (before after : Mailbox) → (given executed done aborted : List ℕ)
        → Balance weight before after given executed done aborted
        → total weight (answered_tickets after) + total weight done
        ≤ total weight (answered_tickets before) + total weight executed }
{}

/// A ticket is issued, executed and delivered at most once, and is not lost.
fn mailbox_single_tickets()
    ensures given { (t : ℕ) → (m : Mailbox) → (given executed done aborted : List ℕ)
        → GoesOnce t m given executed done aborted → times t given ≤ 1 }
    ensures executed { (t : ℕ) → (m : Mailbox) → (given executed done aborted : List ℕ)
        → GoesOnce t m given executed done aborted → times t executed ≤ 1 }
    ensures delivered { (t : ℕ) → (m : Mailbox) → (given executed done aborted : List ℕ)
        → GoesOnce t m given executed done aborted → times t (held_tickets m) + times t done + times t aborted ≤ 1 }
    ensures kept { (t : ℕ) → (m : Mailbox) → (given executed done aborted : List ℕ)
        → GoesOnce t m given executed done aborted → times t given
        ≤ times t (held_tickets m) + times t done + times t aborted }
{}

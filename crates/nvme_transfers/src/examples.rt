//! Worked examples of the definitions, proved by computing.
#![tactic(auto, unfolding(crate::specs::Parts::cid_of, crate::specs::Parts::fits))]

ghost use Rattle.std.specs.Prelude.{◌≡◌, true, false, [], ◌∷◌, ◌++◌, Some, None, Ok, Err, replicate};
ghost use Rattle.nvme_transfers.specs.declared.command.Refused.TheVariants as refused;
ghost use Rattle.nvme_transfers.specs.Parts.{cid_of};
ghost use Rattle.nvme_transfers.specs.Transfers.{
  admitted,
  count,
  ended,
  free_tag,
  has,
  next_request,
  none,
  out_of_range,
  taken,
  transfer_at,
};
ghost use Rattle.nvme_transfers.specs.Storing.{after_store, room_with, stored};
ghost use Rattle.nvme_transfers.specs.Runs.{
  Begins,
  Requests,
  Takes,
  Ends,
  begun,
  complete,
  dropped,
  held,
  lost,
  parts,
  parts_at,
  requested,
  state_after,
  unasked,
};
ghost use Rattle.nvme_transfers.specs.Laws.{AreSized, Completes, CompletesBy, NoEnd, room_after};
ghost use Rattle.nvme_transfers.specs.Examples.{
  two,
  command,
  done,
  four,
  asked_for,
  last_of_7,
  many,
  next_of_7,
  of_7,
  part,
  wrong_digest,
};

/// Two commands wait, and get their R2Ts in their order.
fn requests()
    ensures cid { cid_of (command 0x0107 8) ≡ 0x0107 }
    ensures first { next_request (state_after (Begins (command 9 4) ∷ Begins (command 7 8) ∷ []))
        ≡ Some (record { cid = 7; tag = 0; length = 8 }) }
    ensures second { next_request (state_after (Requests ∷ Begins (command 9 4) ∷ Begins (command 7 8) ∷ []))
        ≡ Some (record { cid = 9; tag = 1; length = 4 }) }
    ensures no_more { next_request (state_after two) ≡ None }
    ensures none { next_request none ≡ None }
    ensures ended { next_request ended ≡ None }
    ensures both { has (state_after two) 7 ≡ true }
    ensures other { has (state_after two) 8 ≡ false }
    ensures waits { has (state_after (Begins (command 7 8) ∷ [])) 7 ≡ true }
    ensures count { count (state_after (Begins (command 5 1) ∷ two)) ≡ 3 }
{}

/// A command is refused after the end, without data, and if its identifier is in flight.
fn refused_commands()
    ensures ended { admitted (state_after (Ends ∷ two)) (command 5 8) ≡ Err refused.Ended }
    ensures no_data { admitted none (command 5 0) ≡ Err refused.NoData }
    ensures active { admitted (state_after two) (command 7 8) ≡ Err refused.InFlight }
    ensures waiting { admitted (state_after (Begins (command 5 1) ∷ [])) (command 5 2) ≡ Err refused.InFlight }
    ensures room { admitted (many 63) (command 5 1) ≡ Ok tt }
    ensures no_room { admitted (many 64) (command 5 1) ≡ Err refused.NoRoom }
    ensures again { admitted (state_after (last_of_7 ∷ of_7 0 4 ∷ two)) (command 7 8) ≡ Ok tt }
{}

/// Eight commands have an R2T. The ninth gets the tag of the first that completes.
fn tags()
    ensures ninth { next_request (state_after (Begins (command 9 4) ∷ asked_for 8)) ≡ None }
    ensures eighth { transfer_at (state_after (asked_for 8)) 7
        ≡ Some (record { command = command 108 2; count = 0; is_sound = true }) }
    ensures beyond { transfer_at (state_after (asked_for 8)) 8 ≡ None }
    ensures freed { free_tag (state_after (Takes (part 104 3 0 2 true) ∷ asked_for 8)).active ≡ Some 3 }
    ensures next { next_request (state_after (Takes (part 104 3 0 2 true) ∷ Begins (command 9 4) ∷ asked_for 8))
        ≡ Some (record { cid = 9; tag = 3; length = 4 }) }
{}

/// A command completes with its last part, in two parts or in one.
fn completions()
    ensures first { taken (state_after two) (next_of_7 0 4) ≡ Ok (record { begin = 0; completed = None }) }
    ensures last { taken (state_after (of_7 0 4 ∷ two)) (part 7 0 4 4 true)
        ≡ Ok (record { begin = 4; completed = Some (record { command = command 7 8; is_sound = true }) }) }
    ensures one { taken (state_after two) (part 9 1 0 4 true)
        ≡ Ok (record { begin = 0; completed = Some (record { command = command 9 4; is_sound = true }) }) }
    ensures wrong_digest { taken (state_after (wrong_digest ∷ two)) (part 7 0 4 4 true)
        ≡ Ok (record { begin = 4; completed = Some (record { command = command 7 8; is_sound = false }) }) }
    ensures last_wrong { taken (state_after (of_7 0 4 ∷ two)) (record (part 7 0 4 4 true) { is_sound = false })
        ≡ Ok (record { begin = 4; completed = Some (record { command = command 7 8; is_sound = false }) }) }
    ensures free { free_tag (state_after (last_of_7 ∷ of_7 0 4 ∷ two)).active ≡ Some 0 }
{}

/// Parts that break the rules.
fn breaches()
    ensures gap { taken (state_after two) (part 7 0 4 4 true) ≡ Err out_of_range }
    ensures twice { taken (state_after (of_7 0 4 ∷ two)) (next_of_7 0 4) ≡ Err out_of_range }
    ensures overlap { taken (state_after (of_7 0 4 ∷ two)) (part 7 0 3 5 true) ≡ Err out_of_range }
    ensures one_too_many { taken (state_after two) (part 7 0 0 9 true) ≡ Err out_of_range }
    ensures one_too_few { taken (state_after two) (part 7 0 0 7 true) ≡ Err out_of_range }
    ensures last_too_late { taken (state_after two) (part 7 0 0 8 false) ≡ Err out_of_range }
    ensures empty { taken (state_after two) (next_of_7 0 0) ≡ Err out_of_range }
    ensures neighbour { taken (state_after two) (part 7 1 0 4 false) ≡ Err out_of_range }
    ensures other_command { taken (state_after two) (part 9 0 0 4 false) ≡ Err out_of_range }
    ensures no_tag { taken (state_after two) (part 7 2 0 4 false) ≡ Err out_of_range }
    ensures beyond { taken (state_after two) (part 7 8 0 4 false) ≡ Err out_of_range }
    ensures unasked { taken (state_after (Begins (command 7 8) ∷ [])) (next_of_7 0 4) ≡ Err out_of_range }
    ensures late { taken (state_after (last_of_7 ∷ of_7 0 4 ∷ two)) (part 7 0 0 8 true) ≡ Err out_of_range }
    ensures after_end { taken (state_after (Ends ∷ two)) (next_of_7 0 4) ≡ Err out_of_range }
{}

/// The bytes of a part go to their place in the room. Those of a refused part go nowhere.
fn rooms()
    ensures first { room_with (stored (state_after two) (next_of_7 0 4) four (replicate 9 0)) four (replicate 9 0)
        ≡ 1 ∷ 2 ∷ 3 ∷ 4 ∷ 0 ∷ 0 ∷ 0 ∷ 0 ∷ 0 ∷ [] }
    ensures second { room_with (stored (state_after (of_7 0 4 ∷ two)) (part 7 0 4 4 true) four (replicate 9 0)) four
        (replicate 9 0) ≡ 0 ∷ 0 ∷ 0 ∷ 0 ∷ 1 ∷ 2 ∷ 3 ∷ 4 ∷ 0 ∷ [] }
    ensures gap { room_with (stored (state_after two) (part 7 0 4 4 true) four (replicate 9 0)) four (replicate 9 0)
        ≡ replicate 9 0 }
    ensures exact { stored (state_after two) (next_of_7 0 4) four (replicate 4 0)
        ≡ Ok (record { begin = 0; completed = None }) }
    ensures small_room { stored (state_after two) (next_of_7 0 4) four (replicate 3 0) ≡ Err out_of_range }
    ensures datal { stored (state_after two) (next_of_7 0 5) four (replicate 9 0) ≡ Err out_of_range }
    ensures refused { after_store (state_after two) (next_of_7 0 5) four (replicate 9 0) ≡ state_after two }
    ensures taken { after_store (state_after two) (next_of_7 0 4) four (replicate 9 0)
        ≡ state_after (of_7 0 4 ∷ two) }
{}

/// What became of commands and parts in a run, the newest call first.
fn runs()
    ensures begun { begun two ≡ command 7 8 ∷ command 9 4 ∷ [] }
    ensures requested { requested two ≡ command 7 8 ∷ command 9 4 ∷ [] }
    ensures parts_at { parts_at (of_7 0 4 ∷ two) 0 ≡ next_of_7 0 4 ∷ [] }
    ensures others { parts_at (of_7 0 4 ∷ two) 1 ≡ [] }
    ensures held { held (of_7 0 4 ∷ two) ≡ next_of_7 0 4 ∷ [] }
    ensures complete { complete (last_of_7 ∷ of_7 0 4 ∷ two) ≡ record {
      command = command 7 8;
      tag = 0;
      parts = next_of_7 0 4 ∷ part 7 0 4 4 true ∷ [];
      is_sound = true;
    } ∷ [] }
    ensures none_held { held (last_of_7 ∷ of_7 0 4 ∷ two) ≡ [] }
    ensures taken { parts (last_of_7 ∷ of_7 0 4 ∷ of_7 2 4 ∷ two) ≡ next_of_7 0 4 ∷ part 7 0 4 4 true ∷ [] }
    ensures dropped { dropped (Ends ∷ Begins (command 5 1) ∷ of_7 0 4 ∷ two)
        ≡ command 7 8 ∷ command 9 4 ∷ command 5 1 ∷ [] }
    ensures lost { lost (Ends ∷ of_7 0 4 ∷ two) ≡ next_of_7 0 4 ∷ [] }
    ensures unasked { unasked (Ends ∷ Begins (command 5 1) ∷ two) ≡ command 5 1 ∷ [] }
{}

/// Calls that complete a command, and calls that do not.
fn right_calls()
    ensures no_end { NoEnd (of_7 0 4 ∷ Begins (command 5 1) ∷ Requests ∷ last_of_7 ∷ []) }
    ensures sized { AreSized (record { part = next_of_7 0 4; bytes = four } ∷ []) }
    ensures room { room_after (record { part = next_of_7 0 4; bytes = four } ∷ []) (replicate 5 0)
        ≡ 1 ∷ 2 ∷ 3 ∷ 4 ∷ 0 ∷ [] }
    ensures right { CompletesBy (state_after (of_7 0 4 ∷ two)) 0 done last_of_7 }
    ensures none { Completes (state_after two) 0 done [] → ⊥ }
    ensures by_begins { CompletesBy (state_after two) 0 done (Begins (command 5 1)) → ⊥ }
    ensures by_requests { CompletesBy (state_after two) 0 done Requests → ⊥ }
    ensures by_ends { CompletesBy (state_after two) 0 done Ends → ⊥ }
{}

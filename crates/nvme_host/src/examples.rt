//! Worked examples of the definitions. Each is the contract of an empty function, proved by computing.

mod calls;
mod commands;
mod export_results;
mod made_calls;
mod pending_calls;
mod ports;
mod result_codes;

ghost use Rattle.std.specs.Prelude.{◌≡◌, ◌++◌, [], ◌∷◌, replicate, true, false};
ghost use Rattle.nvme_spec.specs.declared.command.Command.TheVariants as command;
ghost use Rattle.nvme_driver.specs.declared.lane.Lane.TheVariants.{Admin};
ghost use Rattle.nvme_driver.specs.declared.request.Request.TheVariants.{Flush};
ghost use Rattle.nvme_driver.specs.Drivers.{new_driver};
ghost use Rattle.nvme_driver.specs.Polls.{is_new};
ghost use Rattle.nvme_driver.specs.Snapshots.{IsFirstSeen, next_of};
ghost use Rattle.nvme_host.specs.RunExamples.{
  ResetAbortsAFlush,
  WithoutAResetItIsDone,
  WithoutIdlenessNoneGaveIt,
  AFlushExpires,
  aborted,
};
ghost use Rattle.nvme_host.specs.Runs.{Places, Polls, Resets, HasNoReset, IsAborted, no_tickets};
ghost use Rattle.nvme_host.specs.Exports.{zeroing};
ghost use Rattle.nvme_host.specs.Doorbells.{initial_doorbells, repeats_tail, register_at};
ghost use Rattle.nvme_host.specs.Health.{health};

/// Doorbells that are 4 and 8 bytes apart; other registers are where they are.
pub fn doorbells_have_places()
    ensures near { register_at 4 0x100c ≡ 0x100c }
    ensures far { register_at 8 0x100c ≡ 0x1018 }
    ensures tail { register_at 8 0x1008 ≡ 0x1010 }
    ensures first { register_at 8 0x1000 ≡ 0x1000 }
    ensures other { register_at 8 0x14 ≡ 0x14 }
{}

/// A tail that is there already is not written again; a head always is.
pub fn repeated_tails_are_left_out()
    ensures same { repeats_tail (record initial_doorbells { io_tail = 3 }) 0x1008 3 ≡ true }
    ensures other { repeats_tail (record initial_doorbells { io_tail = 3 }) 0x1008 4 ≡ false }
    ensures lane { repeats_tail (record initial_doorbells { io_tail = 3 }) 0x1000 3 ≡ false }
    ensures head { repeats_tail (record initial_doorbells { io_tail = 3 }) 0x100c 3 ≡ false }
{}

/// RDY alone; CFS as well; neither; a shutdown that was not asked for; and a device that was removed.
pub fn controllers_are_up_or_not()
    ensures up { health 1 ≡ 0 }
    ensures fatal { health 3 ≡ 49 }
    ensures fatal_alone { health 2 ≡ 49 }
    ensures reset { health 0 ≡ 23 }
    ensures shut { health 9 ≡ 0 }
    ensures removed { health 0xffffffff ≡ 48 }
    ensures nearly { health 0xfffffffd ≡ 0 }
{}

/// A run in which the premises of the laws on tickets hold; without a reset, a ticket is delivered with its answer; a
/// driver with a request left over delivers a ticket that the run did not give; and a request expires.
pub fn tickets_are_delivered()
    ensures premises { ResetAbortsAFlush }
    ensures reset { WithoutAResetItIsDone }
    ensures idle { WithoutIdlenessNoneGaveIt }
    ensures expiry { AFlushExpires }
{}

/// What the law on resets says of the first of these runs.
pub fn a_flush_is_aborted()
    ensures { IsAborted 7 (record no_tickets { given = 7 ∷ [] }) (record no_tickets { aborted = 7 ∷ [] }) aborted }
{}

/// The premises of two laws: calls without a reset, and a poll that sees the admin lane (queue pair) first.
#[tactic(auto, unfolding(nvme_wire::specs::Completion::phase))]
pub fn premises_hold()
    ensures no_calls { HasNoReset [] }
    ensures no_reset { HasNoReset (Places 1 command.Flush (zeroing 0 0) (Flush 1) ∷ Polls ∷ []) }
    ensures a_reset { HasNoReset (Polls ∷ Resets ∷ []) → ⊥ }
    ensures new { is_new (new_driver 1).admin (next_of (new_driver 1) Admin (replicate 0x1000 0 ++ replicate 16 1))
        ≡ true }
    ensures admin_first { IsFirstSeen (new_driver 1) Admin (replicate 0x1000 0 ++ replicate 16 1) }
{}

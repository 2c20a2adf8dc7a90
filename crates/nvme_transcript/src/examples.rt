//! Worked examples of the definitions. Each is the contract of an empty function, proved by computing.

ghost use Rattle.std.specs.Prelude.{◌≡◌, [], ◌∷◌, Ok, Err, Some, None, codes};
ghost use Rattle.nvme_event.specs.declared.event.FleetEvent.TheVariants as event;
ghost use Rattle.nvme_event.specs.declared.seen.FleetSeen.TheVariants as seen;
ghost use Rattle.nvme_driver.specs.declared.answer.Answer.TheVariants.{Aborted};
ghost use Rattle.nvme_machine.specs.declared.seen.Fetched.TheVariants.{Took};
ghost use Rattle.nvme_machine.specs.declared.seen.Executed.TheVariants.{NoSuch, CqFull};
ghost use Rattle.nvme_transcript.specs.Transcript.{event_text};

/// An event of one controller names it; a power cycle is one of all, and names none.
#[tactic(auto, unfolding(crate::proofs::OnLiterals::lines_on_literals))]
pub fn lines_of_events()
    ensures up { event_text (event.BringUp 1) (seen.Up (Ok tt)) [] ≡ codes "up 1 ok" }
    ensures fetch { event_text (event.Fetch 2 1) (seen.Fetched Took) [] ≡ codes "fetch 2 1 took" }
    ensures execute { event_text (event.Execute 2 0) (seen.Executed NoSuch) [] ≡ codes "execute 2 0 none" }
    ensures full { event_text (event.Execute 2 0) (seen.Executed CqFull) [] ≡ codes "execute 2 0 full" }
    ensures nothing { event_text (event.Poll 12) (seen.Polled (Ok None)) [] ≡ codes "poll 12 nothing" }
    ensures reset { event_text (event.Reset 1) seen.Reset [] ≡ codes "reset 1" }
    ensures no_controller { event_text (event.Ring 7) seen.NoController [] ≡ codes "nocontroller 7" }
    ensures power_cycle { event_text event.PowerCycle seen.Cycled [] ≡ codes "powercycle" }
{}

//! Calls of a driver whose actions are pending, one after the other, and what laws say of runs.

ghost use Rattle.std.specs.Prelude.{◌≡◌, ◌+◌, ℕ, List, [], ◌∷◌, None, Some, false};
ghost use Rattle.nvme_spec.specs.declared.command.Command.TheVariants as command;
ghost use Rattle.nvme_driver.specs.declared.lane.Lane.TheVariants.{Io};
ghost use Rattle.nvme_driver.specs.declared.request.Request.TheVariants.{Flush};
ghost use Rattle.nvme_driver.specs.Once.{borne, times};
ghost use Rattle.nvme_host.specs.declared.open_driver.OpenDriver.{OpenDriver};
ghost use Rattle.nvme_host.specs.DeviceCommands.{awaiting_event};
ghost use Rattle.nvme_host.specs.Examples.{busy};
ghost use Rattle.nvme_host.specs.Exports.{zeroing};
ghost use Rattle.nvme_host.specs.RunExamples.{idle};
ghost use Rattle.nvme_host.specs.Runs.{
  Asks,
  BringsUp,
  ChecksStatus,
  Commands,
  DeliversNoneAgain,
  Expires,
  Identifies,
  IsAborted,
  IsIdle,
  Judges,
  Places,
  Polls,
  Quietly,
  ReportsCompletion,
  Resets,
  Rings,
  ShutsDown,
  StoresCompletion,
  StoresData,
  TakesActions,
  Tickets,
  Use,
  Used,
  Uses,
  deliveries,
  live_borne,
  no_tickets,
};

/// Placings, questions, commands and polls show tickets, and so none of them is a call that shows no ticket.
fn calls_that_show_tickets()
    ensures places { Quietly (Places 1 command.Flush (zeroing 0 0) (Flush 1)) idle idle → ⊥ }
    ensures identifies { Quietly (Identifies 1 0) idle idle → ⊥ }
    ensures commands { Quietly (Commands false awaiting_event) idle idle → ⊥ }
    ensures asks { Quietly (Asks 1) idle idle → ⊥ }
    ensures polls { Quietly Polls idle idle → ⊥ }
{}

/// Calls that show no ticket change nothing while actions are pending.
fn calls_while_actions_are_pending()
    ensures rings { (after : OpenDriver) → Quietly Rings busy after → after ≡ busy }
    ensures resets { (after : OpenDriver) → Quietly Resets busy after → after ≡ busy }
    ensures shuts_down { (after : OpenDriver) → Quietly ShutsDown busy after → after ≡ busy }
    ensures expires { (after : OpenDriver) → Quietly (Expires 7) busy after → after ≡ busy }
    ensures brings_up { (after : OpenDriver) → Quietly BringsUp busy after → after ≡ busy }
    ensures stores_completion { (after : OpenDriver) → Quietly (StoresCompletion (Some Io) []) busy after
        → after ≡ busy }
    ensures stores_bytes { (after : OpenDriver) → Quietly (StoresData 0 []) busy after → after ≡ busy }
{}

/// What other calls that show no ticket leave: Controller Capabilities that do not suit are not kept, no status is
/// awaited of a driver that runs, and a report or a taking of actions changes the port alone.
fn calls_without_tickets()
    ensures judges { (after : OpenDriver) → Quietly (Judges 0) idle after → after.capabilities ≡ None }
    ensures checks_status { (after : OpenDriver) → Quietly (ChecksStatus 1 9) idle after → after ≡ idle }
    ensures reports { (after : OpenDriver) → (bytes : List ℕ) → Quietly (ReportsCompletion bytes) idle after
        → after ≡ record idle { port = after.port } }
    ensures takes { (after : OpenDriver) → Quietly TakesActions idle after → after ≡ record idle { port = after.port } }
{}

/// Calls that show tickets change nothing either while actions are pending, and show none then.
fn tickets_while_actions_are_pending()
    ensures places { (tickets : Tickets) → (after : OpenDriver)
        → Used (Places 1 command.Flush (zeroing 0 0) (Flush 1)) busy tickets after → after ≡ busy }
    ensures identifies { (tickets : Tickets) → (after : OpenDriver) → Used (Identifies 1 0) busy tickets after
        → after ≡ busy }
    ensures commands { (tickets : Tickets) → (after : OpenDriver)
        → Used (Commands false awaiting_event) busy tickets after → after ≡ busy }
    ensures asks { (tickets : Tickets) → (after : OpenDriver) → Used (Asks 65) busy tickets after → after ≡ busy }
    ensures polls { (tickets : Tickets) → (after : OpenDriver) → Used Polls busy tickets after → after ≡ busy }
    ensures rings { (tickets : Tickets) → (after : OpenDriver) → Used Rings busy tickets after → after ≡ busy }
    ensures no_ticket { (tickets : Tickets) → (after : OpenDriver) → Used Rings busy tickets after
        → tickets ≡ no_tickets }
{}

/// Runs of no call and of one.
fn short_runs()
    ensures no_call { (tickets : Tickets) → (after : OpenDriver) → Uses [] busy tickets after → after ≡ busy }
    ensures one_call { (tickets : Tickets) → (after : OpenDriver) → Uses (Rings ∷ []) busy tickets after
        → after ≡ busy }
{}

/// By its law, a ticket that was answered is not delivered as aborted; and what the law on resets says of a ticket.
fn laws_on_tickets()
    ensures answered { DeliversNoneAgain → (uses : List Use) → (tickets : Tickets) → (old after : OpenDriver)
        → IsIdle old
        → Uses uses old tickets after → tickets.done ≡ 7 ∷ [] → times 7 tickets.aborted ≡ 0 }
    ensures not_done { (before after : Tickets) → (h : OpenDriver) → IsAborted 7 before after h
        → times 7 after.done ≡ 0 }
    ensures once { (before after : Tickets) → (h : OpenDriver) → IsAborted 7 before after h
        → deliveries 7 before + times 7 after.aborted + borne 7 h.driver.slots ≡ 1 }
    ensures not_live { (before after : Tickets) → (h : OpenDriver) → IsAborted 7 before after h
        → live_borne 7 h.driver.slots ≡ 0 }
{}

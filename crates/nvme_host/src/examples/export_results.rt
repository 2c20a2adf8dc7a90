//! Exports of a handle with a driver, and of one without, which answer 16.

ghost use Rattle.std.specs.Prelude.{◌≡◌, [], None, Some, false};
ghost use Rattle.nvme_driver.specs.declared.request.Request.TheVariants.{Flush};
ghost use Rattle.nvme_spec.specs.Memory.{zeros};
ghost use Rattle.nvme_host.specs.declared.open_driver.OpenDriver.{OpenDriver};
ghost use Rattle.nvme_host.specs.Calls.{IsNew, Ringing};
ghost use Rattle.nvme_host.specs.Completions.{no_data};
ghost use Rattle.nvme_host.specs.DeviceCommands.{awaiting_event};
ghost use Rattle.nvme_host.specs.Exports.{
  Asks,
  BringsUp,
  Does,
  Judges,
  LoadsFrom,
  Opens,
  OpensInto,
  Places,
  Polls,
  Sends,
  StoresCompletion,
  TakesActions,
  controller_in,
  namespace_in,
  next_completion_of,
};
ghost use Rattle.nvme_host.specs.Outcomes.{refused, with_code};
ghost use Rattle.nvme_host.specs.RunExamples.{idle};

/// A driver is opened with code 0, or memory is refused with 18. An open driver stays, with code 17.
fn opened_handles()
    ensures no_memory { OpensInto 7 18 None }
    ensures opened { (h : OpenDriver) → IsNew zeros 7 h → OpensInto 7 0 (Some h) }
    ensures opened_code { (h : OpenDriver) → OpensInto 7 1 (Some h) → ⊥ }
    ensures open { Opens (Some idle) 7 17 (Some idle) }
    ensures not_closed { Opens (Some idle) 7 17 None → ⊥ }
{}

/// Polls, placings and commands without a driver.
fn calls_without_a_driver()
    ensures poll { Polls None [] (with_code 16) None [] }
    ensures poll_code { Polls None [] (with_code 17) None [] → ⊥ }
    ensures place { Places (λ h. None) (Flush 1) None (refused 16) None }
    ensures send { Sends (λ h. None) false (λ h. awaiting_event) None (refused 16) None }
    ensures ask { Asks 1 None (refused 16) None }
{}

/// Other calls without a driver: no actions are taken, and no bytes are copied.
fn exports_without_a_driver()
    ensures ring { Does Ringing None 16 None }
    ensures bring_up { BringsUp None (with_code 16) None }
    ensures judge { Judges 0 None (record { timeout_ms = 0; stride = 0; code = 16 }) None }
    ensures take { TakesActions None [] 0 [] None }
    ensures take_count { TakesActions None [] 1 [] None → ⊥ }
    ensures store { StoresCompletion 1 [] None (no_data 16) None }
    ensures load { LoadsFrom None 0 [] 16 [] }
    ensures load_code { LoadsFrom None 0 [] 17 [] → ⊥ }
{}

/// What is known without a driver.
fn nothing_without_a_driver()
    ensures next { next_completion_of None 1 ≡ record { at = 0; phase = 0; code = 16 } }
    ensures controller { controller_in None ≡ record { nn = 0; code = 16; cntlid = 0; oncs = 0; mdts = 0; vwc = 0 } }
    ensures namespace { namespace_in None 1 ≡ record { blocks = 0; code = 16 } }
{}

//! The two lanes of a driver and its controller.

ghost use Rattle.std.specs.Prelude.{◌≡◌, ◌≤◌, ℕ, Bool, true, false, None};
ghost use Rattle.nvme_spec.specs.Registers.{value_at};
ghost use Rattle.nvme_driver.specs.declared.state.State.TheVariants.{Down, Up, Failed};
ghost use Rattle.nvme_driver.specs.Calls.{Reads};
ghost use Rattle.nvme_machine.specs.Executing.{Setting};
ghost use Rattle.nvme_refinement.specs.Lanes.{is_failed};
ghost use Rattle.nvme_refinement.specs.Links.{LinkStep};
ghost use Rattle.nvme_refinement.specs.Views.{ticket_in, received_in, Running, Holds, Host, State};

/// Whether a driver has failed.
fn core_failed_drivers()
    ensures down { is_failed Down ≡ false }
    ensures up { is_failed Up ≡ false }
    ensures failed { is_failed Failed ≡ true }
{}

/// A read of a register returns its value, and changes nothing.
fn core_register_reads()
    ensures value { (tells : Bool) → (before after : Setting) → (offset v : ℕ)
        → LinkStep tells before (Reads offset v) after → v ≡ value_at before.controller.registers offset }
    ensures unchanged { (tells : Bool) → (before after : Setting) → (offset v : ℕ)
        → LinkStep tells before (Reads offset v) after → after ≡ before }
{}

/// A slot without a request has no ticket, and receives no data.
fn core_free_slots()
    ensures ticket { ticket_in None ≡ 0 }
    ensures received { received_in None ≡ 0 }
{}

/// A lane has its queues while its driver is up; its driver's next ticket is not below its first one.
fn core_sound_lanes()
    ensures queues { (d : Host) → (c : State) → Running d c → c.ready ≡ true }
    ensures tickets { (first : ℕ) → (d : Host) → (c : State) → Holds first d c → first ≤ d.next }
{}

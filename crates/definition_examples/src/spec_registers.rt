//! Registers of a controller: their first values, their fields, and which writes reset or shut down a controller.

ghost use Rattle.std.specs.Prelude.{◌≡◌};
ghost use Rattle.nvme_spec.specs.Registers.{
  initial_registers,
  value_at,
  command_set,
  page_size,
  arbitration,
  notification,
  submission_entry_size,
  completion_entry_size,
  admin_submission_size,
  admin_completion_size,
};
ghost use Rattle.nvme_spec.specs.RegisterLaws.{IsReset, IsToldToShutDown};

use nvme_spec::ControllerState;

/// A controller that was never enabled: CC, CSTS, AQA, ASQ and ACQ are 0.
#[tactic(auto, unfolding(nvme_spec::specs::Registers::value_at))]
fn spec_first_registers()
    ensures configuration { value_at initial_registers 0x14 ≡ 0 }
    ensures status { value_at initial_registers 0x1c ≡ 0 }
    ensures attributes { initial_registers.aqa ≡ 0 }
    ensures submissions { initial_registers.asq ≡ 0 }
    ensures completions { initial_registers.acq ≡ 0 }
{}

/// The fields of CC and AQA. The bits next to each field are 1, and do not count.
fn spec_register_fields()
    ensures command_set { command_set 0x000000df ≡ 5 }
    ensures page_size { page_size 0x00000cff ≡ 9 }
    ensures arbitration { arbitration 0x00006fff ≡ 5 }
    ensures notification { notification 0x0001bfff ≡ 2 }
    ensures submission_entry { submission_entry_size 0x0016ffff ≡ 6 }
    ensures completion_entry { completion_entry_size 0x014fffff ≡ 4 }
    ensures submissions { admin_submission_size 0xfffff007 ≡ 8 }
    ensures completions { admin_completion_size 0xf01fffff ≡ 32 }
{}

/// A controller is reset if it was enabled and is off.
fn spec_resets()
    ensures reset { IsReset (record initial_registers { state = ControllerState.Failed }) initial_registers }
    ensures was_off { IsReset initial_registers initial_registers → ⊥ }
    ensures is_on { IsReset (record initial_registers { state = ControllerState.Ready })
        (record initial_registers { state = ControllerState.ShutDown }) → ⊥ }
{}

/// A write of SHN to CC, at 14h, shuts a controller down while RDY is 1.
fn spec_shutdowns()
    ensures told { IsToldToShutDown (record initial_registers { state = ControllerState.Ready }) 0x14 0x00464001 }
    ensures other_register { IsToldToShutDown (record initial_registers { state = ControllerState.Ready })
        0x24 0x00464001 → ⊥ }
    ensures not_ready { IsToldToShutDown (record initial_registers { state = ControllerState.Failed })
        0x14 0x00464001 → ⊥ }
    ensures disabled { IsToldToShutDown (record initial_registers { state = ControllerState.Ready })
        0x14 0x00464000 → ⊥ }
    ensures no_notification { IsToldToShutDown (record initial_registers { state = ControllerState.Ready })
        0x14 0x00460001 → ⊥ }
{}

//! Laws of power cycles and of write protection.

ghost use Rattle.nvme_spec.specs.PowerLaws.{
  CycleKeepsPlaces,
  CycleKeepsPersistent,
  CycleKeepsRights,
  CycleForgetsOthers,
  CycleEndsProtection,
  CycleKeepsItSound,
  CyclesAreOne,
  ProtectedCommandsWriteNothing,
  CommandsKeepProtection,
  ProtectionOutlastsCommands,
};

/// A power cycle leaves controllers, attachments, the places of namespaces, and reservations that persist. It removes
/// other reservations, and the write protection that lasts until a power cycle.
#[tactic(auto, using(crate::proofs::Power::cycle_keeps_places, crate::proofs::Power::cycle_keeps_persistent, crate::proofs::Power::cycle_keeps_rights, crate::proofs::Power::cycle_forgets_others, crate::proofs::Power::cycle_ends_protection, crate::proofs::Power::cycle_keeps_it_sound, crate::proofs::Power::cycles_are_one))]
fn power_cycle()
    ensures places { CycleKeepsPlaces }
    ensures persistent { CycleKeepsPersistent }
    ensures rights { CycleKeepsRights }
    ensures others { CycleForgetsOthers }
    ensures protection { CycleEndsProtection }
    ensures sound { CycleKeepsItSound }
    ensures twice { CyclesAreOne }
{}

/// No command changes a byte of a namespace that is write protected, or removes a protection that lasts until a power
/// cycle.
#[tactic(auto, using(crate::proofs::Protected::protected_commands_write_nothing, crate::proofs::Protected::commands_keep_protection, crate::proofs::Protected::protection_outlasts_commands))]
fn write_protection()
    ensures bytes { ProtectedCommandsWriteNothing }
    ensures io { CommandsKeepProtection }
    ensures admin { ProtectionOutlastsCommands }
{}

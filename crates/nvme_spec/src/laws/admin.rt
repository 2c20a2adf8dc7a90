//! Laws of admin commands.

ghost use Rattle.nvme_spec.specs.AdminLaws.{
  ChangesOnlyProtection,
  KeepsReservations,
  AttachesByCommand,
  DenialsChangeNothing,
};

/// No admin command changes a block of a medium or a reservation; only an allowed Namespace Attachment changes
/// attachments; and a denied command changes nothing.
#[tactic(auto, using(crate::proofs::AdminLaws::changes_only_protection, crate::proofs::AdminLaws::keeps_reservations, crate::proofs::AdminLaws::attaches_by_command, crate::proofs::AdminLaws::denials_change_nothing))]
fn admin_commands()
    ensures namespaces { ChangesOnlyProtection }
    ensures reservations { KeepsReservations }
    ensures attachments { AttachesByCommand }
    ensures denials { DenialsChangeNothing }
{}

//! The execution of one admin command.

ghost use Rattle.std.specs.Prelude.{◌≡◌, Some, Ok, Err, OnOk, IfOk, IfErr, OnErr};
ghost use Rattle.nvme_spec.specs.AdminEffects as effects;
ghost use Rattle.nvme_spec.specs.AdminRules as rules;
ghost use Rattle.nvme_spec.specs.Rules.{judgement_by};
ghost use Rattle.nvme_spec.specs.Transfers.{addresses};
ghost use Rattle.nvme_admin.specs.Admitted.{IsAdmitted, HasPlaces};
ghost use Rattle.nvme_admin.specs.Executed.{execution_of};

use crate::attachment::change_attachments;
use crate::command::data_length;
use crate::features::{get_features, set_features};
use crate::identify::identify;
use crate::outcome::AdminOutcome;
use crate::rules::{Admitted, admit};
use nvme_mem::Window;
use nvme_ns::Spaces;
use nvme_prp::{Pieces, locate};
use nvme_spec::{AdminCommand, Denial, Queues};
use nvme_wire::Sqe;

/// Executes an admin command of a controller on the access state, the controller's queues and the host's memory.
///
/// A command that a rule denies is answered with the number and the status of the first such rule, and changes nothing.
/// One that all rules allow takes effect, and is answered with rule 0. The caller has to apply the change of the queues
/// that is returned. The whole data pointer is walked before anything changes.
pub fn execute_admin(
    spaces: &mut Spaces,
    queues: &Queues,
    window: &mut Window,
    cntlid: u16,
    sqe: &Sqe,
) -> AdminOutcome
    ensures executed { effects.admin_execution spaces.old queues.now cntlid sqe.now window.old
        ≡ execution_of result spaces.new window.new }
{
    match perform(spaces, queues, window, cntlid, sqe) {
        Ok(outcome) => outcome,
        Err(denial) => AdminOutcome::denied(denial),
    }
}

/// Judges a command, and performs it if it is allowed.
///
/// # Errors
///
/// The first rule that fails. Nothing is changed then.
fn perform(
    spaces: &mut Spaces,
    queues: &Queues,
    window: &mut Window,
    cntlid: u16,
    sqe: &Sqe,
) -> Result<AdminOutcome, Denial>
    ensures allowed { IfOk result (λ outcome. effects.admin_execution spaces.old queues.now cntlid sqe.now window.old
        ≡ execution_of outcome spaces.new window.new) }
    ensures denied { IfErr result (λ d. rules.admin_judgement spaces.old queues.now cntlid sqe.now window.old ≡ Err d) }
    ensures unchanged { OnErr result ((spaces.new ≡ spaces.old) × (window.new ≡ window.old)) }
{
    let admitted = match admit(spaces, queues, cntlid, sqe) {
        Ok(admitted) => admitted,
        Err(denial) => return Err(denial),
    };
    let mut pieces = Pieces::none();
    locate(window, sqe, data_length(admitted.command, sqe), &mut pieces)?;
    carry_out(spaces, window, cntlid, sqe, &admitted, &pieces)
}

/// Performs an admitted command, whose data are in these pieces.
///
/// # Errors
///
/// Rule 11, with the status with which a list of controllers is refused. Nothing is changed then.
fn carry_out(
    spaces: &mut Spaces,
    window: &mut Window,
    cntlid: u16,
    sqe: &Sqe,
    admitted: &Admitted,
    pieces: &Pieces,
) -> Result<AdminOutcome, Denial>
    requires admitted { IsAdmitted spaces.old sqe.now admitted.now }
    requires placed { HasPlaces window.old sqe.now admitted.now (addresses pieces.now.parts.items) }
    ensures passed { OnOk result
        (judgement_by (rules.list_rule (Some admitted.now.command) spaces.old sqe.now
        (rules.data_of window.old sqe.now))
        ≡ Ok tt) }
    ensures done { IfOk result (λ outcome. effects.performance spaces.old cntlid window.old admitted.now.command sqe.now
        ≡ execution_of outcome spaces.new window.new) }
    ensures refused { IfErr result (λ d.
        judgement_by (rules.list_rule (Some admitted.now.command) spaces.old sqe.now (rules.data_of window.old sqe.now))
        ≡ Err d) }
    ensures unchanged { OnErr result ((spaces.new ≡ spaces.old) × (window.new ≡ window.old)) }
{
    match admitted.command {
        AdminCommand::Identify => {
            identify(spaces, window, cntlid, sqe, pieces);
            Ok(AdminOutcome::completed(0, admitted.change))
        }
        AdminCommand::SetFeatures => {
            let dw0 = set_features(spaces, sqe);
            Ok(AdminOutcome::completed(dw0, admitted.change))
        }
        AdminCommand::GetFeatures => {
            let dw0 = get_features(spaces, window, cntlid, sqe, pieces);
            Ok(AdminOutcome::completed(dw0, admitted.change))
        }
        AdminCommand::NamespaceAttachment => {
            match change_attachments(spaces, window, sqe, pieces) {
                Ok(()) => Ok(AdminOutcome::completed(0, admitted.change)),
                Err(status) => Err(Denial { rule: 11, status }),
            }
        }
        _ => Ok(AdminOutcome::completed(0, admitted.change)),
    }
}

//! The rules that an admin command has to pass before those on its data, one function each.

ghost use Rattle.std.specs.Prelude.{
  ◌≡◌,
  ◌==◌,
  ◌&&◌,
  not,
  is_some,
  true,
  Ok,
  Err,
  Some,
  OnOk,
  IfOk,
  IfErr,
  IsSome,
  option_copied,
};
ghost use Rattle.nvme_wire.specs.Submission as entry;
ghost use Rattle.nvme_spec.specs.declared.command.AdminCommand.TheVariants.{SetFeatures, NamespaceAttachment};
ghost use Rattle.nvme_spec.specs.AdminCommands as commands;
ghost use Rattle.nvme_spec.specs.AdminEffects as effects;
ghost use Rattle.nvme_spec.specs.AdminRules as rules;
ghost use Rattle.nvme_spec.specs.IoRules as io;
ghost use Rattle.nvme_spec.specs.Rules.{judgement_by, first_failing};
ghost use Rattle.nvme_spec.specs.World.{namespace_of, is_attached};
ghost use Rattle.nvme_admin.specs.Admitted.{IsAdmitted};

use crate::command::command_of;
use crate::features::{check_get_features, check_set_features};
use crate::fields;
use crate::queues::{
    create_completion_queue, create_submission_queue, delete_completion_queue,
    delete_submission_queue,
};
use nvme_ns::{Namespace, Spaces};
use nvme_policy::{check_form, deny_if, is_no_nsid, permits_host};
use nvme_spec::{AdminCommand, Denial, Group, HostId, QueueChange, Queues};
use nvme_wire::{Sqe, Status};

/// The lowest identifier above which no list of namespaces can begin.
const NO_LIST: u32 = 0xffff_fffe;

/// An admin command that the rules before those on its data let pass.
#[derive(Clone, Copy, Debug)]
pub struct Admitted {
    pub command: AdminCommand,
    /// The change of the queues.
    pub change: QueueChange,
}

/// Applies the rules on the opcode, the form, the namespace identifier, the attachment, the fields and the reservation,
/// in this order.
///
/// # Errors
///
/// The first rule that fails.
pub fn admit(spaces: &Spaces, queues: &Queues, cntlid: u16, sqe: &Sqe) -> Result<Admitted, Denial>
    ensures admitted { IfOk result (IsAdmitted spaces.now sqe.now) }
    ensures allowed { OnOk result
        (first_failing (rules.admin_access_rules spaces.now queues.now cntlid sqe.now) ≡ Ok tt) }
    ensures denied { IfErr result
        (λ d. first_failing (rules.admin_access_rules spaces.now queues.now cntlid sqe.now) ≡ Err d) }
{
    let command = check_opcode(sqe)?;
    check_form(sqe)?;
    check_nsid(command, sqe)?;
    check_attachment(command, spaces, cntlid, sqe)?;
    let namespace = spaces.namespace(sqe.nsid());
    let change = check_fields(command, queues, namespace, sqe)?;
    check_reservation(command, namespace, spaces.host_of(cntlid))?;
    Ok(Admitted { command, change })
}

/// Rule 2: the opcode is that of an admin command.
#[tactic(auto, unfolding(nvme_spec::specs::IoRules::opcode_rule, nvme_spec::specs::Rules::judgement_by))]
fn check_opcode(sqe: &Sqe) -> Result<AdminCommand, Denial>
    ensures named { IfOk result (λ command. commands.command_of (entry.opcode sqe.now) ≡ Some command) }
    ensures passed { OnOk result
        (judgement_by (io.opcode_rule (commands.command_of (entry.opcode sqe.now))) ≡ Ok tt) }
    ensures denied { IfErr result
        (λ d. judgement_by (io.opcode_rule (commands.command_of (entry.opcode sqe.now))) ≡ Err d) }
{
    command_of(sqe.opcode()).ok_or(Denial {
        rule: 2,
        status: Status::INVALID_COMMAND_OPCODE,
    })
}

/// Whether the command sets or reads the write protection of a namespace.
fn is_on_protection(command: AdminCommand, sqe: &Sqe) -> bool
    ensures { result ≡ commands.names_feature (Some command) commands.write_protection sqe.now }
{
    match command {
        AdminCommand::SetFeatures | AdminCommand::GetFeatures => {
            fields::fid(sqe) == fields::WRITE_PROTECTION
        }
        _ => false,
    }
}

/// Whether the command names one namespace.
fn names_namespace(command: AdminCommand, sqe: &Sqe) -> bool
    ensures { result ≡ rules.names_namespace (Some command) sqe.now }
{
    match command {
        AdminCommand::NamespaceAttachment => true,
        AdminCommand::Identify => fields::cns(sqe) == fields::NAMESPACE_STRUCTURE,
        _ => is_on_protection(command, sqe),
    }
}

/// Whether the command is an Identify of a list of namespaces.
fn asks_for_list(command: AdminCommand, sqe: &Sqe) -> bool
    ensures { result ≡ commands.asks_for (Some command) commands.namespace_list_structure sqe.now }
{
    command == AdminCommand::Identify && fields::cns(sqe) == fields::NAMESPACE_LIST
}

/// Rule 4: the identifier is one that a namespace can have, or above which a list can begin.
#[tactic(auto, unfolding(nvme_spec::specs::AdminRules::nsid_rule, nvme_spec::specs::Rules::judgement_by))]
fn check_nsid(command: AdminCommand, sqe: &Sqe) -> Result<(), Denial>
    ensures { result ≡ judgement_by (rules.nsid_rule (Some command) sqe.now) }
{
    let nsid = sqe.nsid();
    deny_if(
        names_namespace(command, sqe) && is_no_nsid(nsid),
        4,
        Status::INVALID_NAMESPACE_OR_FORMAT,
    )?;
    deny_if(
        asks_for_list(command, sqe) && nsid >= NO_LIST,
        4,
        Status::INVALID_NAMESPACE_OR_FORMAT,
    )
}

/// Rule 5: the namespace whose write protection is set or read is attached to the controller.
#[tactic(auto, unfolding(nvme_spec::specs::AdminRules::attachment_rule))]
fn check_attachment(
    command: AdminCommand,
    spaces: &Spaces,
    cntlid: u16,
    sqe: &Sqe,
) -> Result<(), Denial>
    ensures judged { result ≡ judgement_by (rules.attachment_rule (Some command) spaces.now cntlid sqe.now) }
    ensures protects { OnOk result (command ≡ SetFeatures → (commands.fid sqe.now == commands.write_protection) ≡ true
        → IsSome (namespace_of spaces.now (entry.nsid sqe.now))) }
{
    deny_if(
        lacks_attachment(command, spaces, cntlid, sqe),
        5,
        Status::INVALID_FIELD_IN_COMMAND,
    )
}

/// Whether a namespace that must be attached is not.
fn lacks_attachment(command: AdminCommand, spaces: &Spaces, cntlid: u16, sqe: &Sqe) -> bool
    ensures { result ≡ (commands.names_feature (Some command) commands.write_protection sqe.now
        && not (is_some (namespace_of spaces.now (entry.nsid sqe.now))
        && is_attached spaces.now cntlid (entry.nsid sqe.now))) }
{
    let nsid = sqe.nsid();
    is_on_protection(command, sqe)
        && !(spaces.namespace(nsid).is_some() && spaces.is_attached(cntlid, nsid))
}

/// Rule 6: each field has a value that the command accepts. Returns the change of the queues.
#[tactic(auto, unfolding(nvme_spec::specs::AdminEffects::queue_change))]
fn check_fields(
    command: AdminCommand,
    queues: &Queues,
    namespace: Option<&Namespace>,
    sqe: &Sqe,
) -> Result<QueueChange, Denial>
    ensures passed { OnOk result
        (judgement_by (rules.field_rule (Some command) queues.now (option_copied namespace.entry) sqe.now) ≡ Ok tt) }
    ensures denied { IfErr result
        (λ d. judgement_by (rules.field_rule (Some command) queues.now (option_copied namespace.entry) sqe.now)
        ≡ Err d) }
    ensures change { IfOk result (λ change. change ≡ effects.queue_change command sqe.now) }
    ensures attaches { OnOk result (command ≡ NamespaceAttachment → IsSome (option_copied namespace.entry)) }
{
    match command {
        AdminCommand::DeleteSubmissionQueue => return delete_submission_queue(queues, sqe),
        AdminCommand::CreateSubmissionQueue => return create_submission_queue(queues, sqe),
        AdminCommand::DeleteCompletionQueue => return delete_completion_queue(queues, sqe),
        AdminCommand::CreateCompletionQueue => return create_completion_queue(queues, sqe),
        AdminCommand::Identify => check_identify(sqe)?,
        AdminCommand::SetFeatures => check_set_features(queues, namespace, sqe)?,
        AdminCommand::GetFeatures => check_get_features(sqe)?,
        AdminCommand::NamespaceAttachment => check_selection(namespace, sqe)?,
    }
    Ok(QueueChange::Keep)
}

/// Rule 6 of Identify.
#[tactic(auto, unfolding(nvme_spec::specs::AdminRules::identify_rule))]
fn check_identify(sqe: &Sqe) -> Result<(), Denial>
    ensures { result ≡ judgement_by (rules.identify_rule sqe.now) }
{
    deny_if(
        fields::cns(sqe) > fields::NAMESPACE_LIST,
        6,
        Status::INVALID_FIELD_IN_COMMAND,
    )
}

/// Rule 6 of Namespace Attachment.
#[tactic(auto, unfolding(nvme_spec::specs::AdminRules::selection_rule, nvme_spec::specs::Rules::judgement_by))]
fn check_selection(namespace: Option<&Namespace>, sqe: &Sqe) -> Result<(), Denial>
    ensures judged { result ≡ judgement_by (rules.selection_rule (option_copied namespace.entry) sqe.now) }
    ensures attaches { OnOk result (IsSome (option_copied namespace.entry)) }
{
    deny_if(fields::sel(sqe) > 1, 6, Status::INVALID_FIELD_IN_COMMAND)?;
    deny_if(namespace.is_none(), 6, Status::INVALID_FIELD_IN_COMMAND)
}

/// Rule 7: the reservation permits the command's host to write, if the command would change attachments.
#[tactic(auto, unfolding(nvme_spec::specs::AdminRules::reservation_rule))]
fn check_reservation(
    command: AdminCommand,
    namespace: Option<&Namespace>,
    host: Option<HostId>,
) -> Result<(), Denial>
    ensures { result ≡ judgement_by (rules.reservation_rule (Some command) (option_copied namespace.entry) host) }
{
    let is_permitted = match namespace {
        Some(namespace) => permits_host(namespace, host, Group::Write),
        None => true,
    };
    deny_if(
        command == AdminCommand::NamespaceAttachment && !is_permitted,
        7,
        Status::RESERVATION_CONFLICT,
    )
}

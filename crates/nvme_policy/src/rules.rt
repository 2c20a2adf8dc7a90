//! The rules, one function each: it passes, or denies with the rule's number and status.

ghost use Rattle.std.specs.Prelude.{◌≡◌, ◌+◌, ◌≤◌, IfOk, IfErr, OnOk, Ok, Err, Some};
ghost use Rattle.nvme_wire.specs.Submission as entry;
ghost use Rattle.nvme_spec.specs.World.{namespace_of};
ghost use Rattle.nvme_spec.specs.Commands as commands;
ghost use Rattle.nvme_spec.specs.Rules.{judgement_by, rule as one_test};
ghost use Rattle.nvme_spec.specs.IoRules as policy;

use crate::access::permits_host;
use crate::command::{command_of, traits_of};
use crate::fields;
use nvme_ns::{Namespace, Spaces};
use nvme_spec::{Command, Denial, HostId, MOST_BYTES};
use nvme_wire::{Sqe, Status};

/// The highest namespace identifier.
const HIGHEST_NSID: u32 = 8;

/// The most blocks that one command transfers between host and controller.
const MAX_BLOCKS: u32 = 256;

/// Denies if the rule fails.
#[tactic(auto, unfolding(nvme_spec::specs::Rules::judgement_by))]
pub fn deny_if(fails: bool, rule: u8, status: Status) -> Result<(), Denial>
    ensures { result ≡ judgement_by (one_test rule fails status) }
{
    if fails {
        Err(Denial { rule, status })
    } else {
        Ok(())
    }
}

/// Rule 1: no Preempt and Abort has marked the command.
#[tactic(auto, unfolding(nvme_spec::specs::IoRules::mark_rule))]
pub fn check_mark(marked: bool) -> Result<(), Denial>
    ensures { result ≡ judgement_by (policy.mark_rule marked) }
{
    deny_if(marked, 1, Status::COMMAND_ABORTED_DUE_TO_PREEMPT_AND_ABORT)
}

/// Rule 2: the opcode is that of an I/O command.
#[tactic(auto, unfolding(nvme_spec::specs::IoRules::opcode_rule, nvme_spec::specs::Rules::judgement_by))]
pub fn check_opcode(sqe: &Sqe) -> Result<Command, Denial>
    ensures named { IfOk result (λ command. commands.command_of (entry.opcode sqe.now) ≡ Some command) }
    ensures passed { IfOk result
        (λ _. judgement_by (policy.opcode_rule (commands.command_of (entry.opcode sqe.now))) ≡ Ok tt) }
    ensures denied { IfErr result
        (λ d. judgement_by (policy.opcode_rule (commands.command_of (entry.opcode sqe.now))) ≡ Err d) }
{
    command_of(sqe.opcode()).ok_or(Denial {
        rule: 2,
        status: Status::INVALID_COMMAND_OPCODE,
    })
}

/// Rule 3: the command is not fused, and its data pointer is PRP entries.
#[tactic(auto, unfolding(nvme_spec::specs::IoRules::form_rule))]
pub fn check_form(sqe: &Sqe) -> Result<(), Denial>
    ensures { result ≡ judgement_by (policy.form_rule sqe.now) }
{
    deny_if(
        sqe.fuse() != 0 || sqe.psdt() != 0,
        3,
        Status::INVALID_FIELD_IN_COMMAND,
    )
}

/// Rule 4: the identifier is one that a namespace can have.
#[tactic(auto, unfolding(nvme_spec::specs::IoRules::nsid_rule))]
pub fn check_nsid(nsid: u32) -> Result<(), Denial>
    ensures { result ≡ judgement_by (policy.nsid_rule nsid) }
{
    deny_if(is_no_nsid(nsid), 4, Status::INVALID_NAMESPACE_OR_FORMAT)
}

/// Whether no namespace can have this identifier.
pub fn is_no_nsid(nsid: u32) -> bool
    ensures { result ≡ policy.is_no_nsid nsid }
{
    nsid == 0 || nsid > HIGHEST_NSID
}

/// Rule 5: the namespace is attached to the controller.
#[tactic(auto, unfolding(nvme_spec::specs::IoRules::attachment_rule, nvme_spec::specs::Rules::judgement_by))]
pub fn check_attachment(spaces: &Spaces, cntlid: u16, nsid: u32) -> Result<&Namespace, Denial>
    ensures found { IfOk result (λ namespace. namespace_of spaces.now nsid ≡ Some namespace.now) }
    ensures passed { IfOk result (λ _. judgement_by (policy.attachment_rule spaces.now cntlid nsid) ≡ Ok tt) }
    ensures denied { IfErr result (λ d. judgement_by (policy.attachment_rule spaces.now cntlid nsid) ≡ Err d) }
{
    match spaces.namespace(nsid) {
        Some(namespace) if spaces.is_attached(cntlid, nsid) => Ok(namespace),
        _ => Err(Denial {
            rule: 5,
            status: Status::INVALID_FIELD_IN_COMMAND,
        }),
    }
}

/// Rule 6: each field has a value that the command accepts.
#[tactic(auto, unfolding(nvme_spec::specs::IoRules::field_rule, nvme_spec::specs::Rules::judgement_by))]
pub fn check_fields(command: Command, sqe: &Sqe) -> Result<(), Denial>
    ensures { result ≡ judgement_by (policy.field_rule (Some command) sqe.now) }
{
    match command {
        Command::ReservationRegister => deny_if(
            fields::action(sqe) > 2 || fields::cptpl(sqe) == 1,
            6,
            Status::INVALID_FIELD_IN_COMMAND,
        ),
        Command::ReservationAcquire => deny_if(
            fields::action(sqe) > 2 || fields::iekey(sqe) || !(1..=6).contains(&fields::rtype(sqe)),
            6,
            Status::INVALID_FIELD_IN_COMMAND,
        ),
        Command::ReservationRelease => deny_if(
            fields::action(sqe) > 1 || fields::iekey(sqe),
            6,
            Status::INVALID_FIELD_IN_COMMAND,
        ),
        Command::ReservationReport => {
            deny_if(
                !fields::eds(sqe),
                6,
                Status::HOST_IDENTIFIER_INCONSISTENT_FORMAT,
            )?;
            deny_if(
                fields::report_length(sqe) > MOST_BYTES as u64,
                6,
                Status::INVALID_FIELD_IN_COMMAND,
            )
        }
        _ => deny_if(
            traits_of(command).moves_blocks && fields::block_count(sqe) > MAX_BLOCKS,
            6,
            Status::INVALID_FIELD_IN_COMMAND,
        ),
    }
}

/// Rule 7: the reservation permits the command to the host.
#[tactic(auto, unfolding(nvme_spec::specs::IoRules::reservation_rule))]
pub fn check_reservation(
    command: Command,
    namespace: &Namespace,
    host: Option<HostId>,
) -> Result<(), Denial>
    ensures { result ≡ judgement_by (policy.reservation_rule (Some command) (Some namespace.now) host) }
{
    let is_permitted = match traits_of(command).group {
        Some(group) => permits_host(namespace, host, group),
        None => true,
    };
    deny_if(!is_permitted, 7, Status::RESERVATION_CONFLICT)
}

/// Rule 8: a command that changes blocks is denied if the namespace is write protected.
#[tactic(auto, unfolding(nvme_spec::specs::IoRules::protection_rule))]
pub fn check_protection(command: Command, namespace: &Namespace) -> Result<(), Denial>
    ensures { result ≡ judgement_by (policy.protection_rule (Some command) (Some namespace.now)) }
{
    deny_if(
        traits_of(command).alters && namespace.is_protected(),
        8,
        Status::NAMESPACE_IS_WRITE_PROTECTED,
    )
}

/// Rule 9: the range is within the namespace.
#[tactic(auto, unfolding(nvme_spec::specs::IoRules::range_rule))]
pub fn check_range(command: Command, namespace: &Namespace, sqe: &Sqe) -> Result<(), Denial>
    ensures judged { result ≡ judgement_by (policy.range_rule (Some command) (Some namespace.now) sqe.now) }
    ensures in_range { OnOk result ((commands.plan_of command sqe.now).first + (commands.plan_of command sqe.now).blocks
        ≤ namespace.now.blocks) }
{
    let end = u128::from(fields::starting_lba(sqe)) + u128::from(fields::block_count(sqe));
    deny_if(
        traits_of(command).is_ranged && end > u128::from(namespace.blocks()),
        9,
        Status::LBA_OUT_OF_RANGE,
    )
}

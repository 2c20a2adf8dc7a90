//! Set Features and Get Features: Number of Queues, Host Identifier, Namespace Write Protection Config.

ghost use Rattle.std.specs.Prelude.{◌≡◌, ◌==◌, true, [], length, IsSome, option_copied};
ghost use Rattle.nvme_wire.specs.Submission.{nsid};
ghost use Rattle.nvme_spec.specs.declared.command.AdminCommand.TheVariants.{SetFeatures, GetFeatures};
ghost use Rattle.nvme_spec.specs.AdminCommands as commands;
ghost use Rattle.nvme_spec.specs.AdminEffects as effects;
ghost use Rattle.nvme_spec.specs.AdminRules as rules;
ghost use Rattle.nvme_spec.specs.Rules.{judgement_by};
ghost use Rattle.nvme_spec.specs.Transfers.{addresses, with_scattered};
ghost use Rattle.nvme_spec.specs.World.{namespace_of};

use crate::fields;
use crate::queues::has_io_queue;
use nvme_mem::Window;
use nvme_ns::{Namespace, Spaces};
use nvme_policy::deny_if;
use nvme_prp::{Pieces, scatter};
use nvme_spec::{Denial, Protection, Queues};
use nvme_wire::{Sqe, Status};

/// The value of Number of Queues: 4 I/O completion queues and 4 I/O submission queues, both as 0-based numbers.
const ALLOCATED_QUEUES: u32 = 0x0003_0003;

/// Rule 6 of Set Features.
#[tactic(auto, unfolding(nvme_spec::specs::AdminRules::set_features_rule, nvme_spec::specs::Rules::judgement_by))]
pub fn check_set_features(
    queues: &Queues,
    namespace: Option<&Namespace>,
    sqe: &Sqe,
) -> Result<(), Denial>
    ensures { result ≡ judgement_by (rules.set_features_rule queues.now (option_copied namespace.entry) sqe.now) }
{
    let sets_queues = fields::fid(sqe) == fields::NUMBER_OF_QUEUES;
    let sets_protection = fields::fid(sqe) == fields::WRITE_PROTECTION;
    deny_if(
        !(sets_queues || sets_protection),
        6,
        Status::INVALID_FIELD_IN_COMMAND,
    )?;
    deny_if(fields::sv(sqe), 6, Status::FEATURE_IDENTIFIER_NOT_SAVEABLE)?;
    deny_if(
        sets_queues && (fields::nsqr(sqe) == 0xffff || fields::ncqr(sqe) == 0xffff),
        6,
        Status::INVALID_FIELD_IN_COMMAND,
    )?;
    deny_if(
        sets_queues && has_io_queue(queues),
        6,
        Status::COMMAND_SEQUENCE_ERROR,
    )?;
    deny_if(
        sets_protection && fields::wps(sqe) > 2,
        6,
        Status::INVALID_FIELD_IN_COMMAND,
    )?;
    deny_if(
        sets_protection && is_protected_until_cycle(namespace),
        6,
        Status::FEATURE_NOT_CHANGEABLE,
    )
}

/// Whether the namespace is write protected until a power cycle.
fn is_protected_until_cycle(namespace: Option<&Namespace>) -> bool
    ensures { result ≡ rules.is_protected_until_cycle (option_copied namespace.entry) }
{
    match namespace {
        Some(namespace) => matches!(namespace.protection(), Protection::UntilCycle),
        None => false,
    }
}

/// The write protection of a state: 0 none, 1 write protected, 2 write protected until a power cycle.
fn protection_of(state: u32) -> Protection
    ensures { result ≡ commands.protection_of state }
{
    match state {
        0 => Protection::Open,
        1 => Protection::Protected,
        _ => Protection::UntilCycle,
    }
}

/// The state of a namespace's write protection, 0 if there is no namespace.
fn state_of(namespace: Option<&Namespace>) -> u32
    ensures { result ≡ effects.protection_value (option_copied namespace.entry) }
{
    match namespace {
        Some(namespace) => namespace.protection_state(),
        None => 0,
    }
}

/// Rule 6 of Get Features.
#[tactic(auto, unfolding(nvme_spec::specs::AdminRules::get_features_rule, nvme_spec::specs::Rules::judgement_by))]
pub fn check_get_features(sqe: &Sqe) -> Result<(), Denial>
    ensures { result ≡ judgement_by (rules.get_features_rule sqe.now) }
{
    let fid = fields::fid(sqe);
    let is_known = fid == fields::NUMBER_OF_QUEUES
        || fid == fields::WRITE_PROTECTION
        || fid == fields::HOST_IDENTIFIER;
    deny_if(!is_known, 6, Status::INVALID_FIELD_IN_COMMAND)?;
    deny_if(
        fid == fields::HOST_IDENTIFIER && !fields::exhid(sqe),
        6,
        Status::INVALID_FIELD_IN_COMMAND,
    )
}

/// Sets a feature, and returns double word 0. A namespace whose write protection is set must be configured.
#[tactic(auto, unfolding(nvme_spec::specs::AdminEffects::double_word_0, nvme_spec::specs::AdminEffects::world_after))]
pub fn set_features(spaces: &mut Spaces, sqe: &Sqe) -> u32
    requires named { (commands.fid sqe.now == commands.write_protection) ≡ true
        → IsSome (namespace_of spaces.old (nsid sqe.now)) }
    ensures dw0 { result ≡ effects.double_word_0 spaces.old SetFeatures sqe.now }
    ensures world { spaces.new ≡ effects.world_after spaces.old SetFeatures sqe.now [] }
{
    match fields::fid(sqe) {
        fields::NUMBER_OF_QUEUES => ALLOCATED_QUEUES,
        fields::WRITE_PROTECTION => {
            spaces.set_protection(sqe.nsid(), protection_of(fields::wps(sqe)));
            0
        }
        _ => 0,
    }
}

/// Returns a feature in double word 0, or the host identifier in the data's pieces.
#[tactic(auto, unfolding(nvme_spec::specs::AdminEffects::double_word_0, nvme_spec::specs::AdminEffects::data_out, nvme_spec::specs::Transfers::with_scattered))]
pub fn get_features(
    spaces: &Spaces,
    window: &mut Window,
    cntlid: u16,
    sqe: &Sqe,
    pieces: &Pieces,
) -> u32
    requires size { length (addresses pieces.now.parts.items) ≡ commands.data_length GetFeatures sqe.now }
    ensures dw0 { result ≡ effects.double_word_0 spaces.now GetFeatures sqe.now }
    ensures stored { window.new ≡ with_scattered window.old (addresses pieces.now.parts.items)
        (effects.data_out spaces.now cntlid GetFeatures sqe.now) }
{
    match fields::fid(sqe) {
        fields::NUMBER_OF_QUEUES => ALLOCATED_QUEUES,
        fields::WRITE_PROTECTION => state_of(spaces.namespace(sqe.nsid())),
        fields::HOST_IDENTIFIER => {
            let host = spaces.host_of(cntlid).unwrap_or(0);
            scatter(window, pieces, &host.to_le_bytes());
            0
        }
        _ => 0,
    }
}

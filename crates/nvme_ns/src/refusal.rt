//! Why a configuration is refused: the rule that it breaks, and the line that breaks it. All checks of configurations
//! are here.

ghost use Rattle.std.specs.Prelude.{◌≡◌, ◌==◌, ◌&&◌, [], Some};
ghost use Rattle.std.specs.List.{list_any};
ghost use Rattle.nvme_spec.specs.Configuration.{capacity, is_private};
ghost use Rattle.nvme_ns.specs.Configured.{configuration};
ghost use Rattle.nvme_ns.specs.Refusals as spec;
ghost use Rattle.nvme_ns.specs.declared.refusal.SetupLine.TheVariants as line_of;

use nvme_spec::{Config, ConfigFault, ControllerConfig, NsConfig};

/// The most controllers that a configuration may have.
pub const MAX_CONTROLLERS: usize = 16;

/// The most namespaces.
pub const MAX_NAMESPACES: usize = 8;

/// The most attachments.
pub const MAX_ATTACHMENTS: usize = 128;

/// The highest identifier that a namespace may have.
const MAX_NSID: u32 = 8;

/// The most blocks that a namespace of a script may have.
pub const MAX_BLOCKS: u64 = 65_536;

/// A line before `start`, by its kind, and by its place among the lines of that kind, from 0.
#[derive(Clone, Copy, Debug, PartialEq, Eq)]
pub enum SetupLine {
    Controller(usize),
    Namespace(usize),
    Attached(usize),
}

/// A rule of configurations, with the values that break it.
#[derive(Clone, Copy, Debug, PartialEq, Eq)]
pub enum BrokenRule {
    TooManyControllers,
    TooManyNamespaces,
    TooManyAttachments,
    /// The k-th controller, from 1, and its identifier.
    Misnumbered(usize, u16),
    /// The controller that has no host.
    NoHost(u16),
    ForeignNsid(u32),
    RepeatedNsid(u32),
    UnknownController(u16),
    UnknownNamespace(u32),
    /// The controller and the namespace that are attached twice.
    RepeatedAttachment(u16, u32),
    /// The second controller of a private namespace, and that.
    NotShared(u16, u32),
    NoBlocks(u32),
    /// The namespace, its blocks, and the limit.
    TooLarge(u32, u64, u64),
    /// The namespace that does not fit, and the blocks of the medium.
    DoesNotFit(u32, u64),
}

impl BrokenRule {
    /// The fault of a configuration that breaks the rule.
    pub fn fault(self) -> ConfigFault
        ensures { result ≡ spec.fault_of self }
    {
        match self {
            BrokenRule::TooManyControllers
            | BrokenRule::TooManyNamespaces
            | BrokenRule::TooManyAttachments => ConfigFault::TooMany,
            BrokenRule::Misnumbered(_, _)
            | BrokenRule::NoHost(_)
            | BrokenRule::ForeignNsid(_)
            | BrokenRule::RepeatedNsid(_)
            | BrokenRule::UnknownController(_)
            | BrokenRule::UnknownNamespace(_)
            | BrokenRule::RepeatedAttachment(_, _)
            | BrokenRule::NotShared(_, _) => ConfigFault::BadId,
            BrokenRule::NoBlocks(_) | BrokenRule::TooLarge(_, _, _) => ConfigFault::BadSize,
            BrokenRule::DoesNotFit(_, _) => ConfigFault::DoesNotFit,
        }
    }
}

/// The rule that a refused configuration breaks, and the line.
#[derive(Clone, Copy, Debug, PartialEq, Eq)]
pub struct ConfigReason {
    pub line: SetupLine,
    pub rule: BrokenRule,
}

/// A reason at a line.
fn at(line: SetupLine, rule: BrokenRule) -> Option<ConfigReason>
    ensures { result ≡ spec.reason_at line (Some rule) }
{
    Some(ConfigReason { line, rule })
}

/// The first line that exceeds a limit.
fn one_too_many(config: &Config) -> Option<ConfigReason>
    ensures { result ≡ spec.one_too_many (configuration config.now) }
{
    if config.controllers.len() > MAX_CONTROLLERS {
        return at(
            SetupLine::Controller(MAX_CONTROLLERS),
            BrokenRule::TooManyControllers,
        );
    }
    if config.namespaces.len() > MAX_NAMESPACES {
        return at(
            SetupLine::Namespace(MAX_NAMESPACES),
            BrokenRule::TooManyNamespaces,
        );
    }
    if config.attached.len() > MAX_ATTACHMENTS {
        return at(
            SetupLine::Attached(MAX_ATTACHMENTS),
            BrokenRule::TooManyAttachments,
        );
    }
    None
}

/// The rule that a controller after others breaks: its identifier is not its number, or it has no host.
fn controller_breaks(
    before: &[ControllerConfig],
    controller: ControllerConfig,
) -> Option<BrokenRule>
    ensures { result ≡ spec.controller_breaks before.now controller }
{
    let number = before.len() + 1;
    let cntlid = controller.cntlid;
    if usize::from(cntlid) != number {
        return Some(BrokenRule::Misnumbered(number, cntlid));
    }
    if controller.host == 0 {
        return Some(BrokenRule::NoHost(cntlid));
    }
    None
}

/// The first controller that breaks a rule.
fn bad_controller(controllers: &[ControllerConfig]) -> Option<ConfigReason>
    ensures { result ≡ spec.first_line line_of.Controller spec.controller_breaks [] controllers.now }
{
    for (i, controller) in controllers.iter().enumerate() {
        if let Some(rule) = controller_breaks(&controllers[..i], *controller) {
            return at(SetupLine::Controller(i), rule);
        }
    }
    None
}

/// Whether a namespace has this identifier.
fn is_named(namespaces: &[NsConfig], nsid: u32) -> bool
    ensures { result ≡ list_any (λ n. n.nsid == nsid) namespaces.now }
{
    namespaces.iter().any(|n| n.nsid == nsid)
}

/// The rule that the identifier of a namespace after others breaks: it is not 1 to 8, or is one of theirs.
fn namespace_breaks(before: &[NsConfig], namespace: NsConfig) -> Option<BrokenRule>
    ensures { result ≡ spec.namespace_breaks before.now namespace }
{
    let nsid = namespace.nsid;
    if nsid == 0 || nsid > MAX_NSID {
        return Some(BrokenRule::ForeignNsid(nsid));
    }
    if is_named(before, nsid) {
        return Some(BrokenRule::RepeatedNsid(nsid));
    }
    None
}

/// The first namespace whose identifier breaks a rule.
fn bad_namespace(namespaces: &[NsConfig]) -> Option<ConfigReason>
    ensures { result ≡ spec.first_line line_of.Namespace spec.namespace_breaks [] namespaces.now }
{
    for (i, namespace) in namespaces.iter().enumerate() {
        if let Some(rule) = namespace_breaks(&namespaces[..i], *namespace) {
            return at(SetupLine::Namespace(i), rule);
        }
    }
    None
}

/// Whether a controller has this identifier.
fn has_controller(controllers: &[ControllerConfig], cntlid: u16) -> bool
    ensures { result ≡ list_any (λ k. k.cntlid == cntlid) controllers.now }
{
    controllers.iter().any(|k| k.cntlid == cntlid)
}

/// Whether the namespace with this identifier is private.
fn has_private(config: &Config, nsid: u32) -> bool
    ensures { result ≡ is_private (configuration config.now) nsid }
{
    config
        .namespaces
        .iter()
        .any(|n| n.nsid == nsid && !n.shared)
}

/// Whether a pair is one of these.
fn is_attached(pairs: &[(u16, u32)], cntlid: u16, nsid: u32) -> bool
    ensures { result ≡ list_any (λ pair. (pair.0 == cntlid) && (pair.1 == nsid)) pairs.now }
{
    pairs.iter().any(|pair| pair.0 == cntlid && pair.1 == nsid)
}

/// Whether a controller is attached to the namespace.
fn is_taken(pairs: &[(u16, u32)], nsid: u32) -> bool
    ensures { result ≡ list_any (λ pair. pair.1 == nsid) pairs.now }
{
    pairs.iter().any(|pair| pair.1 == nsid)
}

/// The rule that an attachment after others breaks: its controller or namespace is not configured, it is repeated, or
/// it is the second of a private namespace.
fn attachment_breaks(config: &Config, before: &[(u16, u32)], pair: (u16, u32)) -> Option<BrokenRule>
    ensures { result ≡ spec.attachment_breaks (configuration config.now) before.now pair }
{
    let (cntlid, nsid) = pair;
    if !has_controller(&config.controllers, cntlid) {
        return Some(BrokenRule::UnknownController(cntlid));
    }
    if !is_named(&config.namespaces, nsid) {
        return Some(BrokenRule::UnknownNamespace(nsid));
    }
    if is_attached(before, cntlid, nsid) {
        return Some(BrokenRule::RepeatedAttachment(cntlid, nsid));
    }
    if has_private(config, nsid) && is_taken(before, nsid) {
        return Some(BrokenRule::NotShared(cntlid, nsid));
    }
    None
}

/// The first attachment that breaks a rule.
fn bad_attachment(config: &Config) -> Option<ConfigReason>
    ensures { result ≡ spec.first_line line_of.Attached (spec.attachment_breaks (configuration config.now)) []
        config.now.attached.items }
{
    let attached = config.attached.as_slice();
    for (i, pair) in attached.iter().enumerate() {
        if let Some(rule) = attachment_breaks(config, &attached[..i], *pair) {
            return at(SetupLine::Attached(i), rule);
        }
    }
    None
}

/// The first line whose identifiers break a rule.
fn bad_id(config: &Config) -> Option<ConfigReason>
    ensures { result ≡ spec.first_bad_id (configuration config.now) }
{
    bad_controller(&config.controllers)
        .or_else(|| bad_namespace(&config.namespaces))
        .or_else(|| bad_attachment(config))
}

/// The rule that the size of a namespace breaks: it has no blocks, or more than `max_blocks`.
fn size_breaks(max_blocks: u64, namespace: NsConfig) -> Option<BrokenRule>
    ensures { result ≡ spec.size_breaks max_blocks [] namespace }
{
    let NsConfig { nsid, blocks, .. } = namespace;
    if blocks == 0 {
        return Some(BrokenRule::NoBlocks(nsid));
    }
    if blocks > max_blocks {
        return Some(BrokenRule::TooLarge(nsid, blocks, max_blocks));
    }
    None
}

/// The first namespace without blocks, or with too many.
fn bad_size(max_blocks: u64, namespaces: &[NsConfig]) -> Option<ConfigReason>
    ensures { result ≡ spec.first_line line_of.Namespace (spec.size_breaks max_blocks) [] namespaces.now }
{
    for (i, namespace) in namespaces.iter().enumerate() {
        if let Some(rule) = size_breaks(max_blocks, *namespace) {
            return at(SetupLine::Namespace(i), rule);
        }
    }
    None
}

/// The first namespace that does not fit on the medium after those before it.
fn does_not_fit(namespaces: &[NsConfig], medium_blocks: u64) -> Option<ConfigReason>
    ensures { result ≡ spec.first_line line_of.Namespace (spec.room_breaks medium_blocks) [] namespaces.now }
{
    let mut room = medium_blocks;
    for (i, namespace) in namespaces.iter().enumerate() {
        if namespace.blocks > room {
            let rule = BrokenRule::DoesNotFit(namespace.nsid, medium_blocks);
            return at(SetupLine::Namespace(i), rule);
        }
        room -= namespace.blocks;
    }
    None
}

/// Why a configuration is refused over a medium of `medium_blocks` blocks, if it is, when a namespace may have at most
/// `max_blocks` blocks: the first rule that it breaks, in the order of the faults `TooMany`, `BadId`, `BadSize`,
/// `DoesNotFit`, and the first line that breaks it.
#[tactic(auto, unfolding(crate::specs::Refusals::refusal_of))]
pub fn refusal_of(config: &Config, max_blocks: u64, medium_blocks: u64) -> Option<ConfigReason>
    ensures { result ≡ spec.refusal_of (configuration config.now) (capacity max_blocks medium_blocks) }
{
    one_too_many(config)
        .or_else(|| bad_id(config))
        .or_else(|| bad_size(max_blocks, &config.namespaces))
        .or_else(|| does_not_fit(&config.namespaces, medium_blocks))
}

//! The numbers of the lines of a configuration, and which of them is at fault if it is refused.

ghost use Rattle.std.specs.Prelude.{◌≡◌, OnErr, OnOk};
ghost use Rattle.nvme_spec.specs.Configuration.{capacity};
ghost use Rattle.nvme_grammar.specs.Lent.{line_by_value};
ghost use Rattle.nvme_live.specs.SetUps as spec;

use nvme_grammar::Line;
use nvme_ns::{BrokenRule, SetupLine, refusal_of};
use nvme_spec::Config;
use std::alloc::{AllocError, Global};

/// The most controllers of a configuration.
const MOST_CONTROLLERS: usize = 16;

/// The most namespaces.
const MOST_NAMESPACES: usize = 8;

/// The most attachments.
const MOST_ATTACHMENTS: usize = 128;

/// The numbers of a session's setup lines, in the order of the configuration's lists.
#[derive(Drop)]
pub struct LineNumbers {
    pub controllers: Vec<u64>,
    pub namespaces: Vec<u64>,
    pub attached: Vec<u64>,
}

impl LineNumbers {
    /// No numbers.
    pub(crate) fn new(alloc: Global) -> LineNumbers
        ensures { spec.numbers_in result ≡ spec.no_numbers }
    {
        LineNumbers {
            controllers: Vec::new(alloc),
            namespaces: Vec::new(alloc),
            attached: Vec::new(alloc),
        }
    }

    /// The number of a line.
    fn of(&self, line: SetupLine) -> Option<u64>
        ensures { result ≡ spec.number_of (spec.numbers_in self.now) line }
    {
        match line {
            SetupLine::Controller(i) => self.controllers.get(i).copied(),
            SetupLine::Namespace(i) => self.namespaces.get(i).copied(),
            SetupLine::Attached(i) => self.attached.get(i).copied(),
        }
    }
}

/// Takes memory for one more line of each kind than a configuration may have, so that these lines take none.
pub(crate) fn make_room(config: &mut Config, numbers: &mut LineNumbers) -> Result<(), AllocError>
    ensures kept { spec.set_up_of config.new numbers.new ≡ spec.set_up_of config.old numbers.old }
    ensures room { OnOk result (spec.HasSetUpRoom config.new numbers.new) }
{
    config.controllers.reserve(MOST_CONTROLLERS + 1)?;
    config.namespaces.reserve(MOST_NAMESPACES + 1)?;
    config.attached.reserve(MOST_ATTACHMENTS + 1)?;
    numbers.controllers.reserve(MOST_CONTROLLERS + 1)?;
    numbers.namespaces.reserve(MOST_NAMESPACES + 1)?;
    numbers.attached.reserve(MOST_ATTACHMENTS + 1)
}

/// Adds a setup line to a configuration, and its number to those of its kind. It takes memory only beyond what
/// `make_room` has taken; if it is refused, nothing is added to either.
pub fn set(
    number: u64,
    config: &mut Config,
    numbers: &mut LineNumbers,
    line: Line<'_>,
) -> Result<(), AllocError>
    requires room { spec.HasSetUpRoom config.old numbers.old }
    ensures room { spec.HasSetUpRoom config.new numbers.new }
    ensures ok { OnOk result (spec.set_up_of config.new numbers.new
        ≡ spec.with_line number (spec.set_up_of config.old numbers.old) (line_by_value line.entry)) }
    ensures err { OnErr result (spec.set_up_of config.new numbers.new ≡ spec.set_up_of config.old numbers.old) }
    ensures crowded { OnErr result (spec.IsCrowded (spec.set_up_of config.old numbers.old) (line_by_value line.entry)) }
{
    match line {
        Line::Controller(controller) => {
            numbers.controllers.reserve(1)?;
            config.controllers.push(controller)?;
            numbers.controllers.push_reserved(number);
        }
        Line::Namespace(namespace) => {
            numbers.namespaces.reserve(1)?;
            config.namespaces.push(namespace)?;
            numbers.namespaces.push_reserved(number);
        }
        Line::Attached { cntlid, nsid } => {
            numbers.attached.reserve(1)?;
            config.attached.push((cntlid, nsid))?;
            numbers.attached.push_reserved(number);
        }
        Line::Blank | Line::Start | Line::Event(_) => {}
    }
    Ok(())
}

/// Why a configuration is refused over a medium of `medium_blocks` blocks, when a namespace may have at most
/// `max_blocks` blocks: the number of the line at fault, and the rule that it breaks.
pub fn numbered_reason(
    config: &Config,
    numbers: &LineNumbers,
    max_blocks: u64,
    medium_blocks: u64,
) -> Option<(u64, BrokenRule)>
    ensures { result
        ≡ spec.numbered_reason (spec.set_up_of config.now numbers.now) (capacity max_blocks medium_blocks) }
{
    let reason = refusal_of(config, max_blocks, medium_blocks)?;
    let number = numbers.of(reason.line)?;
    Some((number, reason.rule))
}

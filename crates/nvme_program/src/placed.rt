//! Reasons at a line of a script, after its name and a colon.

ghost use Rattle.std.specs.Prelude.{◌≡◌, [], Some, codes, true, false};
ghost use Rattle.nvme_program.specs.FailureTexts.{config_reason_text, line_reason_text, room_text};

use crate::sentence::sentence_of;
use nvme_grammar::LineFault;
use nvme_ns::BrokenRule;
use std::fmt;

/// Why a line outside the grammar is refused: its number, from 1, and its fault.
#[derive(Clone, Copy)]
pub struct PlacedFault<'a> {
    pub line: usize,
    pub fault: LineFault<'a>,
}

impl fmt::Display for PlacedFault<'_> {
    ghost output = { λ it. Some (line_reason_text it.line it.fault) };

    fn fmt<W: fmt::Write>(&self, f: &mut fmt::Formatter<W>) -> fmt::Result {
        write!(f, "{}:{}", self.line, self.fault)
    }
}

/// Why a configuration is refused: the number of the line at fault, from 1, the rule that it breaks, and whether the
/// medium is in memory.
#[derive(Clone, Copy)]
pub struct PlacedRule {
    pub line: usize,
    pub rule: BrokenRule,
    pub in_memory: bool,
}

impl fmt::Display for PlacedRule {
    ghost output = { λ it. Some (config_reason_text it.line it.rule it.in_memory) };

    fn fmt<W: fmt::Write>(&self, f: &mut fmt::Formatter<W>) -> fmt::Result {
        let rule = sentence_of(self.rule);
        let room = RoomText(self.rule, self.in_memory);
        write!(f, "{}:1: {rule}{room}", self.line)
    }
}

/// How to get more blocks, if those in memory are too few.
#[derive(Clone, Copy)]
struct RoomText(BrokenRule, bool);

impl fmt::Display for RoomText {
    ghost output = { λ it. Some (room_text it.0 it.1) };

    fn fmt<W: fmt::Write>(&self, f: &mut fmt::Formatter<W>) -> fmt::Result {
        match (self.0, self.1) {
            (BrokenRule::DoesNotFit(_, _), true) => write!(
                f,
                "; for an image of 65536 blocks: truncate -s 32M disk.img, then nvmesim disk.img SCRIPT"
            ),
            _ => Ok(()),
        }
    }
}

/// Worked examples.
fn examples()
    ensures image { room_text (BrokenRule.DoesNotFit 2 72) false ≡ [] }
    ensures other_rule { room_text (BrokenRule.NoBlocks 2) true ≡ [] }
    ensures in_memory { room_text (BrokenRule.DoesNotFit 2 1024) true
        ≡ codes "; for an image of 65536 blocks: truncate -s 32M disk.img, then nvmesim disk.img SCRIPT" }
{}

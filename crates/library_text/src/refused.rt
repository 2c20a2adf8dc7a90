//! Why a configuration's text is refused.

ghost use Rattle.std.specs.Prelude.{◌≡◌, ◌++◌, codes, decimal};
ghost use Rattle.script_text.specs.Pages.{Adds};
ghost use Rattle.library_text.specs.Refusals.{event_text, position_of, reason_text};

use nvme_grammar::LineFault;
use nvme_ns::BrokenRule;
use nvme_program::sentence_of;
use nvme_spec::ConfigFault;
use script_text::{NoRoom, Page, Spell, put_number};

/// Why a configuration's text is refused. The programs print its text after the name of the file and a colon.
#[derive(Clone, Copy)]
pub enum Refused<'a> {
    /// It is longer than a script may be.
    TooLong,
    /// A line is outside the grammar, or not allowed at its place: its number, from 1, and its fault.
    Line(usize, LineFault<'a>),
    /// A line breaks a rule of configurations: its number, from 1, the fault and the rule.
    Rule(usize, ConfigFault, BrokenRule),
    /// A line is an event: its number, and the column of its first word, from 1.
    Event(usize, usize),
    /// There is no controller.
    Empty,
    /// Memory was refused.
    NoMemory,
}

impl Refused<'_> {
    /// The line at fault and the column, both from 1; 0 if memory was refused.
    pub fn position(&self) -> (usize, usize)
        ensures { result ≡ position_of self.now }
    {
        match self {
            Refused::Line(number, fault) => (*number, fault.column),
            Refused::Rule(number, _, _) => (*number, 1),
            Refused::Event(number, column) => (*number, *column),
            Refused::TooLong | Refused::Empty => (1, 1),
            Refused::NoMemory => (0, 0),
        }
    }
}

impl Spell for Refused<'_> {
    ghost spelled = { reason_text };

    fn spell<P: Page>(&self, page: &mut P) -> Result<(), NoRoom> {
        match self {
            Refused::TooLong => page.put_str("1:1: a script has at most 4194304 bytes"),
            Refused::Line(number, fault) => {
                put_place(page, *number)?;
                fault.spell(page)
            }
            Refused::Rule(number, _, rule) => {
                put_place(page, *number)?;
                page.put_str("1: ")?;
                sentence_of(*rule).spell(page)
            }
            Refused::Event(number, column) => {
                put_place(page, *number)?;
                put_event(page, *column)
            }
            Refused::Empty => {
                page.put_str("1:1: there is no controller; add a line 'controller 1 host 1'")
            }
            Refused::NoMemory => page.put_str("out of memory"),
        }
    }
}

/// Puts the number of a line, and a colon.
fn put_place<P: Page>(page: &mut P, number: usize) -> Result<(), NoRoom>
    ensures { Adds P.room result (P.written page.old) (decimal number ++ codes ":") (P.written page.new) }
{
    put_number(page, number as u64)?;
    page.put_str(":")
}

/// Puts that a line is an event, after its column.
fn put_event<P: Page>(page: &mut P, column: usize) -> Result<(), NoRoom>
    ensures { Adds P.room result (P.written page.old) (event_text column) (P.written page.new) }
{
    put_number(page, column as u64)?;
    page.put_str(": this line is an event; a configuration has none")
}

//! Formats lines.

ghost use Rattle.std.specs.Prelude.{◌≡◌};
ghost use Rattle.script_text.specs.Pages.{Adds};
ghost use Rattle.nvme_lines.specs.LineTexts.{
  controller_line,
  line_text,
  namespace_line,
  raw_words,
  reading_text,
  spaced,
};

use crate::event::put_event;
use crate::words::put_keyword;
use nvme_grammar::{Keyword, Line};
use nvme_spec::{ControllerConfig, NsConfig};
use script_text::{NoRoom, Page, Spell, put_labelled, put_wide_hex};

/// A line of a script. Its text is one that the grammar parses as this line: words with single spaces between them,
/// numbers in decimal, a host as `0x` and lower-case digits, data as `hex:` without the zeros at their end, or `hex:00`
/// if nothing is left. A line without effect has an empty text.
#[derive(Clone, Copy)]
pub struct LineText<'a>(pub Line<'a>);

impl Spell for LineText<'_> {
    ghost spelled = { λ text. line_text text.0 };

    fn spell<P: Page>(&self, page: &mut P) -> Result<(), NoRoom> {
        match &self.0 {
            Line::Blank => page.put_str(""),
            Line::Controller(controller) => put_controller(page, controller),
            Line::Namespace(namespace) => put_namespace(page, namespace),
            Line::Attached { cntlid, nsid } => {
                put_keyword(
                    page,
                    Keyword::Attached,
                    &[u64::from(*cntlid), u64::from(*nsid)],
                )
            }
            Line::Start => page.put_str(Keyword::Start.text()),
            Line::Event(event) => put_event(page, event),
        }
    }
}

/// How a text was parsed. Its own text is `line` and that of the line, or `line blank`.
#[derive(Clone, Copy)]
pub struct Reading<'a>(pub Line<'a>);

impl Spell for Reading<'_> {
    ghost spelled = { λ reading. reading_text reading.0 };

    fn spell<P: Page>(&self, page: &mut P) -> Result<(), NoRoom> {
        match self.0 {
            Line::Blank => page.put_str("line blank"),
            line => {
                page.put_str("line ")?;
                LineText(line).spell(page)
            }
        }
    }
}

/// What follows a host: ` raw`, or nothing.
fn raw_text(raw: bool) -> &'static str
    ensures { result.now ≡ spaced (raw_words raw) }
{
    if raw { " raw" } else { "" }
}

/// Puts a controller's line.
fn put_controller<P: Page>(page: &mut P, controller: &ControllerConfig) -> Result<(), NoRoom>
    ensures { Adds P.room result (P.written page.old)
        (controller_line controller.now.cntlid controller.now.host controller.now.raw) (P.written page.new) }
{
    put_keyword(page, Keyword::Controller, &[u64::from(controller.cntlid)])?;
    page.put_str(" host 0x")?;
    put_wide_hex(page, controller.host)?;
    page.put_str(raw_text(controller.raw))
}

/// Puts a namespace's line.
fn put_namespace<P: Page>(page: &mut P, namespace: &NsConfig) -> Result<(), NoRoom>
    ensures { Adds P.room result (P.written page.old)
        (namespace_line namespace.now.nsid namespace.now.blocks namespace.now.shared) (P.written page.new) }
{
    put_keyword(page, Keyword::Namespace, &[u64::from(namespace.nsid)])?;
    put_labelled(page, " blocks ", namespace.blocks)?;
    page.put_str(if namespace.shared {
        " shared"
    } else {
        " private"
    })
}

//! A configuration as lines of a script.

ghost use Rattle.std.specs.List.{flat_map};
ghost use Rattle.script_text.specs.Pages.{Adds};
ghost use Rattle.nvme_ns.specs.Configured.{configuration};
ghost use Rattle.library_text.specs.ConfigLines.{attached_line, controller_line, lines_of, namespace_line};

use crate::putting::put_ended;
use nvme_grammar::Line;
use nvme_lines::LineText;
use nvme_spec::{Config, ControllerConfig, NsConfig};
use script_text::{NoRoom, Page, Spell};

/// A configuration as the lines that describe it, each with its line feed.
#[derive(Clone, Copy)]
pub struct ConfigLines<'a>(pub &'a Config);

impl Spell for ConfigLines<'_> {
    ghost spelled = { λ lines. lines_of (configuration lines.0.now) };

    fn spell<P: Page>(&self, page: &mut P) -> Result<(), NoRoom> {
        put_controllers(page, &self.0.controllers)?;
        put_namespaces(page, &self.0.namespaces)?;
        put_attached(page, &self.0.attached)
    }
}

/// Puts the lines of controllers.
fn put_controllers<P: Page>(page: &mut P, controllers: &[ControllerConfig]) -> Result<(), NoRoom>
    ensures { Adds P.room result (P.written page.old) (flat_map controller_line controllers.now) (P.written page.new) }
{
    let mut rest = controllers;
    while let Some((first, behind)) = rest.split_first() {
        put_ended(&LineText(Line::Controller(*first)), "\n", page)?;
        rest = behind;
    }
    Ok(())
}

/// Puts the lines of namespaces.
fn put_namespaces<P: Page>(page: &mut P, namespaces: &[NsConfig]) -> Result<(), NoRoom>
    ensures { Adds P.room result (P.written page.old) (flat_map namespace_line namespaces.now) (P.written page.new) }
{
    let mut rest = namespaces;
    while let Some((first, behind)) = rest.split_first() {
        put_ended(&LineText(Line::Namespace(*first)), "\n", page)?;
        rest = behind;
    }
    Ok(())
}

/// Puts the lines of attachments.
fn put_attached<P: Page>(page: &mut P, attached: &[(u16, u32)]) -> Result<(), NoRoom>
    ensures { Adds P.room result (P.written page.old) (flat_map attached_line attached.now) (P.written page.new) }
{
    let mut rest = attached;
    while let Some((first, behind)) = rest.split_first() {
        let (cntlid, nsid) = *first;
        put_ended(&LineText(Line::Attached { cntlid, nsid }), "\n", page)?;
        rest = behind;
    }
    Ok(())
}

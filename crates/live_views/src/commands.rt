//! Answers about a controller's fetched commands.

ghost use Rattle.script_text.specs.Pages.{Adds};
ghost use Rattle.live_views.specs.Showing.{command_text, commands_text, fetched_text, kind_text};

use crate::names::{bit_name, command_name};
use nvme_machine::FetchedCommand;
use script_text::{NoRoom, Page, Spell, put_both, put_labelled};

/// The fetched commands of a controller.
#[derive(Clone, Copy)]
pub struct FetchedText<'a> {
    pub cntlid: u16,
    pub commands: &'a [FetchedCommand],
}

impl Spell for FetchedText<'_> {
    ghost spelled = { λ c. fetched_text c.cntlid c.commands.now };

    fn spell<P: Page>(&self, page: &mut P) -> Result<(), NoRoom> {
        put_labelled(page, "fetched ", u64::from(self.cntlid))?;
        put_commands(page, self.commands)
    }
}

/// Puts commands, each with its place in the list.
fn put_commands<P: Page>(page: &mut P, commands: &[FetchedCommand]) -> Result<(), NoRoom>
    ensures { Adds P.room result (P.written page.old) (commands_text 0 commands.now) (P.written page.new) }
{
    let mut place: usize = 0;
    let mut rest = commands;
    while let Some((command, behind)) = rest.split_first() {
        put_command(page, place, command)?;
        rest = behind;
        place = place.saturating_add(1);
    }
    Ok(())
}

/// Puts a fetched command, and its place in the list.
fn put_command<P: Page>(page: &mut P, place: usize, command: &FetchedCommand) -> Result<(), NoRoom>
    ensures { Adds P.room result (P.written page.old) (command_text place command.now) (P.written page.new) }
{
    put_labelled(page, " command ", place as u64)?;
    put_labelled(page, " queue ", u64::from(command.queue))?;
    put_labelled(page, " cid ", u64::from(command.entry.cid()))?;
    put_kind(page, command)
}

/// Puts the opcode, name, namespace and mark of a fetched command.
fn put_kind<P: Page>(page: &mut P, command: &FetchedCommand) -> Result<(), NoRoom>
    ensures { Adds P.room result (P.written page.old) (kind_text command.now) (P.written page.new) }
{
    let opcode = command.entry.opcode();
    put_labelled(page, " opcode ", u64::from(opcode))?;
    put_both(page, " name ", command_name(command.queue, opcode))?;
    put_labelled(page, " nsid ", u64::from(command.entry.nsid()))?;
    put_both(page, " marked ", bit_name(command.marked))
}

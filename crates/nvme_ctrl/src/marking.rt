//! Marks the fetched commands that a Preempt and Abort aborts.

ghost use Rattle.std.specs.Prelude.{◌≡◌, map};
ghost use Rattle.nvme_machine.specs.Controllers.{with_mark, with_marks};

use crate::controller::Controller;
use nvme_machine::FetchedCommand;

/// A command, marked if it is an I/O command on the namespace.
fn marked(command: FetchedCommand, nsid: u32) -> FetchedCommand
    ensures { result ≡ with_mark nsid command }
{
    let caught = command.queue != 0 && command.entry.nsid() == nsid;
    FetchedCommand {
        marked: command.marked || caught,
        ..command
    }
}

/// Marks the I/O commands on the namespace.
fn mark_all(commands: &mut [FetchedCommand], nsid: u32)
    ensures { commands.new ≡ map (with_mark nsid) commands.old }
{
    for i in 0..commands.len() {
        commands[i] = marked(commands[i], nsid);
    }
}

impl Controller {
    /// Marks every fetched I/O command on the namespace, so that it will be aborted.
    pub fn mark(&mut self, nsid: u32)
        ensures { self.new ≡ with_marks nsid self.old }
    {
        mark_all(self.fetched.as_mut_slice(), nsid);
    }
}

//! Makes each call that takes memory, and prints of each whether it was given or refused memory, and whether the state
//! after it is the right one. Each request for memory may be refused.
#![tactic(auto)]

mod events;
mod opening;
mod parts;
mod scripts;

use nvme_wire::NoMemory;
use std::io;

/// The result of a call.
#[derive(Clone, Copy, Debug, PartialEq, Eq)]
enum Came {
    /// It succeeded.
    Done,
    /// It was refused memory, and changed nothing else.
    Refused,
    /// It did something else.
    Wrong,
}

impl Came {
    /// A refused call, by whether all else is unchanged.
    fn refused(is_as_it_was: bool) -> Came {
        if is_as_it_was {
            Came::Refused
        } else {
            Came::Wrong
        }
    }

    /// A call that succeeded, by whether its effect is the right one.
    fn done(is_as_it_must_be: bool) -> Came {
        if is_as_it_must_be {
            Came::Done
        } else {
            Came::Wrong
        }
    }

    fn text(self) -> &'static str {
        match self {
            Came::Done => "done",
            Came::Refused => "refused",
            Came::Wrong => "WRONG",
        }
    }
}

fn main(rt: HostRuntime) -> io::Result<()> {
    let alloc = rt.alloc();
    tell(&rt, "Window::new", Ok(parts::window(alloc)))?;
    tell(&rt, "MemMedium::new", Ok(parts::memory(alloc)))?;
    tell(&rt, "FileMedium::open", Ok(parts::file(&rt)))?;
    tell(&rt, "Cached::new", parts::cached(alloc))?;
    tell(&rt, "Controller::new", Ok(parts::controller(alloc)))?;
    tell(&rt, "Subsystem::new", events::subsystem(alloc))?;
    tell(&rt, "Subsystem::run", events::run_of_a_subsystem(alloc))?;
    tell(&rt, "Fleet::new", events::fleet(alloc))?;
    tell(&rt, "Fleet::run", events::run_of_a_fleet(alloc))?;
    tell(&rt, "run_script", scripts::script(alloc))
}

/// Prints the result of a call; or that memory was refused already for its arguments.
fn tell(rt: &impl Print, name: &str, came: Result<Came, NoMemory>) -> io::Result<()> {
    let text = match came {
        Ok(came) => came.text(),
        Err(NoMemory) => "not tried",
    };
    println!(rt; "{name}: {text}")
}

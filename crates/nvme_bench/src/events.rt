//! The events of a host, with one controller and with sixteen, first by its own stores and register writes, then by its
//! driver; and plain copies of the same number of bytes.

mod batch;
mod copies;
mod driven;
mod host;

use batch::{Times, quickest};
use driven::Driven;
use host::Host;
use std::io;
use std::rt::Clock;

/// The commands of the host of a subsystem: their names and kinds.
const COMMANDS: [(&str, host::Kind); 3] = [
    ("one-block reads", host::Kind::Small),
    ("denied reads", host::Kind::Denied),
    ("256-block reads", host::Kind::Large),
];

/// The requests of the host of a fleet: their names and kinds.
const REQUESTS: [(&str, driven::Kind); 5] = [
    ("one-block reads", driven::Kind::SmallRead),
    ("one-block writes", driven::Kind::SmallWrite),
    ("denied reads", driven::Kind::Denied),
    ("256-block reads", driven::Kind::LargeRead),
    ("256-block writes", driven::Kind::LargeWrite),
];

/// Measures commands by a host's own stores, then requests by its driver, then plain copies.
pub(crate) fn all<R: Clock + AllocGlobal + Print>(rt: &R, rounds: u32) -> io::Result<()> {
    by_stores(rt, rounds)?;
    by_a_driver(rt, rounds)?;
    copies::of_blocks(rt, rounds)?;
    copies::of_transfers(rt, rounds)
}

fn by_stores<R: Clock + AllocGlobal + Print>(rt: &R, rounds: u32) -> io::Result<()> {
    println!(rt; "by stores: store, tail doorbell, fetch, execute, head doorbell; all")?;
    for controllers in [1, 16] {
        commands(rt, controllers, rounds)?;
    }
    Ok(())
}

fn by_a_driver<R: Clock + AllocGlobal + Print>(rt: &R, rounds: u32) -> io::Result<()> {
    println!(rt; "by a driver: place, ring, fetch, execute, poll; all")?;
    for hosts in [1, 16] {
        requests(rt, hosts, rounds)?;
    }
    Ok(())
}

/// Prints the name, the number of controllers, and what the events of a command take; or returns the error.
fn tell<R: Print>(
    rt: &R,
    name: &str,
    controllers: u16,
    times: io::Result<Times>,
) -> io::Result<()> {
    let times = times?;
    println!(rt; "{name}, last of {controllers}: {times}")
}

/// The commands of the host of the last controller.
fn commands<R: Clock + AllocGlobal + Print>(
    rt: &R,
    controllers: u16,
    rounds: u32,
) -> io::Result<()> {
    for (name, kind) in COMMANDS {
        tell(rt, name, controllers, sent(rt, controllers, kind, rounds))?;
    }
    Ok(())
}

/// The time of a command that the host submits by its own stores.
fn sent<R: Clock + AllocGlobal>(
    rt: &R,
    controllers: u16,
    kind: host::Kind,
    rounds: u32,
) -> io::Result<Times> {
    let mut host = Host::new(rt.alloc(), controllers, kind)?;
    quickest(rt, &mut host, rounds)
}

/// The requests of the last host.
fn requests<R: Clock + AllocGlobal + Print>(rt: &R, hosts: u16, rounds: u32) -> io::Result<()> {
    for (name, kind) in REQUESTS {
        tell(rt, name, hosts, placed(rt, hosts, kind, rounds))?;
    }
    Ok(())
}

/// The time of a request through the host's driver.
fn placed<R: Clock + AllocGlobal>(
    rt: &R,
    hosts: u16,
    kind: driven::Kind,
    rounds: u32,
) -> io::Result<Times> {
    let mut host = Driven::new(rt.alloc(), hosts, kind)?;
    quickest(rt, &mut host, rounds)
}

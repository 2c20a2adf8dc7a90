//! Batches of commands, and the time that the events of a batch take.

ghost use Rattle.std.specs.Prelude.{◌≤◌};

use std::rt::Clock;
use std::time::Instant;
use std::{fmt, io};

/// A host that sends commands of one kind in batches. Each command takes five events, and all commands of a batch take
/// one event before any of them takes the next.
pub(crate) trait Batch {
    /// The number of commands of a batch.
    fn count(&self) -> u32
        ensures { 1 ≤ result };

    /// Puts the commands of the `round`-th batch into the submission queue.
    fn submit(&mut self, round: u32);

    /// Rings the tail doorbell once for each command; the first ring already announces all of them.
    fn ring(&mut self);

    /// Fetches the commands.
    fn fetch(&mut self);

    /// Executes the commands, and returns the number of posted completions plus their status codes.
    fn execute(&mut self) -> u64;

    /// Takes the completions, and returns a sum over their content.
    fn complete(&mut self) -> u64;
}

/// The time of each of a command's five events in nanoseconds, and a sum over the answers, so that the compiler can't
/// leave out an execution.
#[derive(Clone, Copy)]
pub(crate) struct Times {
    submit: u128,
    ring: u128,
    fetch: u128,
    execute: u128,
    complete: u128,
    sum: u64,
}

impl Times {
    /// The smaller time of each event.
    fn quicker(self, other: Times) -> Times {
        Times {
            submit: self.submit.min(other.submit),
            ring: self.ring.min(other.ring),
            fetch: self.fetch.min(other.fetch),
            execute: self.execute.min(other.execute),
            complete: self.complete.min(other.complete),
            sum: self.sum.wrapping_add(other.sum),
        }
    }

    /// The times of one command, from the times of a batch of `count` commands.
    fn of_one(self, count: u32) -> Times
        requires { 1 ≤ count }
    {
        let count = u128::from(count);
        Times {
            submit: self.submit / count,
            ring: self.ring / count,
            fetch: self.fetch / count,
            execute: self.execute / count,
            complete: self.complete / count,
            sum: self.sum,
        }
    }
}

impl fmt::Display for Times {
    fn fmt<W: fmt::Write>(&self, f: &mut fmt::Formatter<W>) -> fmt::Result {
        let Times {
            submit,
            ring,
            fetch,
            execute,
            complete,
            sum,
        } = *self;
        let all = [submit, ring, fetch, execute, complete]
            .iter()
            .fold(0_u128, |all, took| all.wrapping_add(*took));
        write!(
            f,
            "{submit} ns, {ring} ns, {fetch} ns, {execute} ns, {complete} ns; {all} ns, sum {sum}"
        )
    }
}

/// The times of a command's events: for each event the smallest time over `rounds` batches.
pub(crate) fn quickest<R: Clock, B: Batch>(rt: &R, host: &mut B, rounds: u32) -> io::Result<Times> {
    let mut quickest = timed(rt, host, 0)?;
    for round in 1..rounds {
        quickest = quickest.quicker(timed(rt, host, round)?);
    }
    let count = host.count();
    Ok(quickest.of_one(count))
}

/// The times of the events of one batch, all commands together.
fn timed<R: Clock, B: Batch>(rt: &R, host: &mut B, round: u32) -> io::Result<Times> {
    let start = Instant::now(rt)?;
    host.submit(round);
    let submitted = Instant::now(rt)?;
    host.ring();
    let rung = Instant::now(rt)?;
    host.fetch();
    let fetched = Instant::now(rt)?;
    let posted = host.execute();
    let executed = Instant::now(rt)?;
    let carried = host.complete();
    let completed = Instant::now(rt)?;
    Ok(Times {
        submit: submitted.duration_since(start).as_nanos(),
        ring: rung.duration_since(submitted).as_nanos(),
        fetch: fetched.duration_since(rung).as_nanos(),
        execute: executed.duration_since(fetched).as_nanos(),
        complete: completed.duration_since(executed).as_nanos(),
        sum: posted.wrapping_add(carried),
    })
}

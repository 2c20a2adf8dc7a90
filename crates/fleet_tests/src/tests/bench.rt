//! Four controllers of three hosts over a medium in memory, and requests from their placing to their answer.

use crate::tests::asserting::expect_eq;
use nvme_fleet::{
    Answer, Executed, Fetched, Fleet, FleetEvent, FleetSeen, NotUp, PlaceRefusal, PollFault,
    Request, Ticket, UpFault,
};
use nvme_medium::{Medium, MemMedium};
use nvme_spec::{Config, ControllerConfig, HostId, NsConfig};
use nvme_wire::Status;
use std::alloc::{AllocError, Global};
use std::process::Abort;
use std::test::Fail;

/// A fleet over a medium in memory.
pub type Bench = Fleet<MemMedium>;

/// The result of an event; of a posted completion the status and the rule.
#[derive(Clone, Copy, Debug, PartialEq, Eq)]
pub enum Shown {
    Up(Result<(), UpFault>),
    Placed(Result<Ticket, PlaceRefusal>),
    Rung(Result<(), NotUp>),
    Fetched(Fetched),
    Posted(Status, u8),
    NoSuch,
    CqFull,
    Polled(Result<Option<Answer>, PollFault>),
    Reset,
    Stored,
    Outside,
    Wrote,
    Cycled,
    NoController,
    NoDriver,
    NotRaw,
}

/// The outcome of a request: the status and the rule of the execution, double word 0, and the length of the answer's
/// data.
#[derive(Clone, Copy, Debug, PartialEq, Eq)]
pub struct Carried {
    pub status: Status,
    pub rule: u8,
    pub dw0: u32,
    pub len: usize,
}

/// The result of an event, in a form that tests can compare.
pub(crate) fn show(seen: FleetSeen) -> Shown {
    match seen {
        FleetSeen::Up(up) => Shown::Up(up),
        FleetSeen::Placed(placed) => Shown::Placed(placed),
        FleetSeen::Rung(rung) => Shown::Rung(rung),
        FleetSeen::Fetched(fetched) => Shown::Fetched(fetched),
        FleetSeen::Executed(Executed::Posted(outcome)) => {
            Shown::Posted(outcome.status, outcome.rule)
        }
        FleetSeen::Executed(Executed::NoSuch) => Shown::NoSuch,
        FleetSeen::Executed(Executed::CqFull) => Shown::CqFull,
        FleetSeen::Polled(polled) => Shown::Polled(polled),
        FleetSeen::Reset => Shown::Reset,
        FleetSeen::Stored => Shown::Stored,
        FleetSeen::Outside => Shown::Outside,
        FleetSeen::Wrote => Shown::Wrote,
        FleetSeen::Cycled => Shown::Cycled,
        FleetSeen::NoController => Shown::NoController,
        FleetSeen::NoDriver => Shown::NoDriver,
        FleetSeen::NotRaw => Shown::NotRaw,
    }
}

/// Applies one event.
pub(crate) fn apply(fleet: &mut Bench, event: FleetEvent<'_>) -> Shown {
    show(fleet.apply(event))
}

/// Fails unless an event has this result, and these data.
pub(crate) fn expect_data(
    rt: &impl Abort,
    fleet: &mut Bench,
    event: FleetEvent<'_>,
    seen: Shown,
    data: &[u8],
) {
    expect_eq(rt, apply(fleet, event), seen);
    expect_eq(rt, fleet.data(), data);
}

fn driven(cntlid: u16, host: HostId) -> ControllerConfig {
    ControllerConfig {
        cntlid,
        host,
        raw: false,
    }
}

/// Four controllers, the first and the third of one host; a shared namespace of 64 blocks, attached to all of them, and
/// a private one, attached to the first.
pub(crate) fn configuration(alloc: Global, private_blocks: u64) -> Result<Config, AllocError> {
    Ok(Config {
        controllers: vec![in alloc;
            driven(1, 0xa1),
            driven(2, 0xb2),
            driven(3, 0xa1),
            driven(4, 0xc3),
        ]?,
        namespaces: vec![in alloc;
            NsConfig {
                nsid: 1,
                blocks: 64,
                shared: true
            },
            NsConfig {
                nsid: 2,
                blocks: private_blocks,
                shared: false
            },
        ]?,
        attached: vec![in alloc; (1, 1), (2, 1), (3, 1), (4, 1), (1, 2)]?,
    })
}

/// Opens a configuration that must be accepted.
pub(crate) fn accepted<M: Medium + Drop>(
    alloc: Global,
    config: &Config,
    medium: M,
) -> Result<Fleet<M>, Fail> {
    let fleet = Fleet::new(alloc, config, medium).map_err(|refused| refused.fault)?;
    Ok(fleet)
}

/// Opens the configuration over a medium of 72 blocks of zeros. No controller is up.
pub(crate) fn open(alloc: Global) -> Result<Bench, Fail> {
    let config = configuration(alloc, 8)?;
    let medium = MemMedium::new(alloc, &[0; 72 * 512])?;
    accepted(alloc, &config, medium)
}

/// Opens the configuration, and brings all four controllers up.
pub(crate) fn open_up(alloc: Global) -> Result<Bench, Fail> {
    let mut fleet = open(alloc)?;
    for cntlid in 1..5 {
        let FleetSeen::Up(Ok(())) = fleet.apply(FleetEvent::BringUp(cntlid)) else {
            return Err(Fail::from("a controller did not come up"));
        };
    }
    Ok(fleet)
}

/// The submission queue of a request's command.
fn queue_of(request: &Request<'_>) -> u16 {
    match request {
        Request::Identify { .. }
        | Request::Protect { .. }
        | Request::Protection { .. }
        | Request::Attach { .. }
        | Request::Detach { .. } => 0,
        _ => 1,
    }
}

/// Places a request, rings, and lets the controller fetch it.
pub(crate) fn send<M: Medium>(
    fleet: &mut Fleet<M>,
    cntlid: u16,
    request: Request<'_>,
) -> Result<Ticket, Fail> {
    let FleetSeen::Placed(Ok(ticket)) = fleet.apply(FleetEvent::Place(cntlid, request)) else {
        return Err(Fail::from("the request was not placed"));
    };
    let FleetSeen::Rung(Ok(())) = fleet.apply(FleetEvent::Ring(cntlid)) else {
        return Err(Fail::from("the controller was not told"));
    };
    let queue = queue_of(&request);
    let FleetSeen::Fetched(Fetched::Took) = fleet.apply(FleetEvent::Fetch(cntlid, queue)) else {
        return Err(Fail::from("nothing was fetched"));
    };
    Ok(ticket)
}

/// Sends a request, executes it and polls its answer. The controller must hold no other fetched command.
pub(crate) fn carry<M: Medium>(
    fleet: &mut Fleet<M>,
    cntlid: u16,
    request: Request<'_>,
) -> Result<Carried, Fail> {
    let placed = send(fleet, cntlid, request)?;
    let FleetSeen::Executed(Executed::Posted(outcome)) = fleet.apply(FleetEvent::Execute(cntlid, 0))
    else {
        return Err(Fail::from("nothing was posted"));
    };
    let FleetSeen::Polled(
        Ok(
            Some(
                Answer::Done {
                    ticket,
                    status,
                    dw0,
                    len,
                },
            ),
        ),
    ) = fleet.apply(FleetEvent::Poll(cntlid))
    else {
        return Err(Fail::from("no answer was handed up"));
    };
    if ticket != placed || status != outcome.status || dw0 != outcome.dw0 {
        return Err(Fail::from("the answer is not that of the execution"));
    }
    Ok(Carried {
        status,
        rule: outcome.rule,
        dw0,
        len,
    })
}

/// Fails unless a request succeeds with these data.
pub(crate) fn expect_done(
    rt: &impl Abort,
    fleet: &mut Bench,
    cntlid: u16,
    request: Request<'_>,
    data: &[u8],
) -> Result<(), Fail> {
    expect_eq(rt, carry(fleet, cntlid, request)?, done(data.len()));
    expect_eq(rt, fleet.data(), data);
    Ok(())
}

/// A command that succeeds, with data of this length.
fn done(len: usize) -> Carried {
    Carried {
        status: Status::SUCCESSFUL_COMPLETION,
        rule: 0,
        dw0: 0,
        len,
    }
}

/// An answer of success, with data of this length.
pub(crate) fn answered(ticket: u64, len: usize) -> Shown {
    Shown::Polled(Ok(Some(Answer::Done {
        ticket: Ticket(ticket),
        status: Status::SUCCESSFUL_COMPLETION,
        dw0: 0,
        len,
    })))
}

/// The result of a command that succeeded.
pub(crate) fn posted() -> Shown {
    Shown::Posted(Status::SUCCESSFUL_COMPLETION, 0)
}

/// A Read.
pub(crate) fn read(nsid: u32, slba: u64, blocks: u32) -> Request<'static> {
    Request::Read { nsid, slba, blocks }
}

/// A Write.
pub(crate) fn write(nsid: u32, slba: u64, bytes: &[u8]) -> Request<'_> {
    Request::Write { nsid, slba, bytes }
}

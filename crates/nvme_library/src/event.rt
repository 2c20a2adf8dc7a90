//! An event as C passes it to the calls that make lines of scripts and transcripts.

ghost use Rattle.std.specs.Prelude.{◌≡◌, option_map};
ghost use Rattle.nvme_grammar.specs.Lent.{event_by_value};
ghost use Rattle.nvme_library.specs.Lines.{executed_by, fleet_event, seen_by};

use crate::answer::Answer;
use crate::codes;
use nvme_event::{BareFleetSeen, FleetEvent};
use nvme_machine::{BareExecuted, BareOutcome, Fetched};
use nvme_wire::Status;

/// An event.
#[repr(C)]
#[derive(Clone, Copy)]
pub struct Event {
    /// The address of a store, the offset of a register, or the place of the executed command, from 0.
    pub at: u64,
    /// The kind of event: one of the numbers of `codes`.
    pub kind: u32,
    /// The value that is written to a register.
    pub value: u32,
    /// The identifier of the controller; unused by a power cycle.
    pub cntlid: u16,
    /// The identifier of the queue of a fetch.
    pub qid: u16,
}

impl Event {
    /// This event as an event of a fleet, with the bytes of a store. `None` if there is no such event.
    pub(crate) fn said<'a>(&self, bytes: &'a [u8]) -> Option<FleetEvent<'a>>
        ensures { option_map event_by_value result ≡ fleet_event self.now bytes.now }
    {
        match self.kind {
            codes::EVENT_STORE => Some(FleetEvent::RawStore(self.cntlid, self.at, bytes)),
            codes::EVENT_WRITE32 => {
                Some(FleetEvent::RawWrite32(self.cntlid, self.at, self.value))
            }
            codes::EVENT_FETCH => Some(FleetEvent::Fetch(self.cntlid, self.qid)),
            codes::EVENT_EXECUTE => Some(FleetEvent::Execute(self.cntlid, self.at as usize)),
            codes::EVENT_POWER_CYCLE => Some(FleetEvent::PowerCycle),
            _ => None,
        }
    }
}

/// The result of an execution, from its answer.
fn executed_by(answer: &Answer) -> Option<BareExecuted>
    ensures { result ≡ executed_by answer.now }
{
    match answer.what {
        codes::POSTED => Some(BareExecuted::Posted(BareOutcome {
            status: Status {
                sct: answer.sct,
                sc: answer.sc,
            },
            dw0: answer.value,
            rule: answer.rule,
        })),
        codes::NO_SUCH => Some(BareExecuted::NoSuch),
        codes::CQ_FULL => Some(BareExecuted::CqFull),
        _ => None,
    }
}

/// The result of an event, from its answer. `None` if no such event has this result.
pub(crate) fn seen_by(event: &FleetEvent<'_>, answer: &Answer) -> Option<BareFleetSeen>
    ensures { result ≡ seen_by event.now answer.now }
{
    match (event, answer.what) {
        (FleetEvent::PowerCycle, codes::CYCLED) => Some(BareFleetSeen::Cycled),
        (FleetEvent::PowerCycle, _) => None,
        (_, codes::NO_CONTROLLER) => Some(BareFleetSeen::NoController),
        (FleetEvent::RawStore(_, _, _), codes::STORED) => Some(BareFleetSeen::Stored),
        (FleetEvent::RawStore(_, _, _), codes::OUTSIDE) => Some(BareFleetSeen::Outside),
        (FleetEvent::RawWrite32(_, _, _), codes::WROTE) => Some(BareFleetSeen::Wrote),
        (FleetEvent::Fetch(_, _), codes::TOOK) => Some(BareFleetSeen::Fetched(Fetched::Took)),
        (FleetEvent::Fetch(_, _), codes::IDLE) => Some(BareFleetSeen::Fetched(Fetched::Idle)),
        (FleetEvent::Execute(_, _), _) => executed_by(answer).map(BareFleetSeen::Executed),
        _ => None,
    }
}

//! Formats the result of an event.

ghost use Rattle.std.specs.Prelude.{◌≡◌, ◌++◌, codes, decimal};
ghost use Rattle.script_text.specs.Pages.{Adds};
ghost use Rattle.nvme_wire.specs.StatusNames.{status_text};
ghost use Rattle.nvme_driver.specs.FaultNames.{poll_fault_text, refusal_text, up_fault_text};
ghost use Rattle.nvme_machine.specs.Bare.{executed_of};
ghost use Rattle.nvme_event.specs.Bare.{seen_of};
ghost use Rattle.nvme_transcript.specs.Transcript.{
  answer_text,
  brought_text,
  data_text,
  event_text,
  executed_text,
  fetched_text,
  placed_text,
  polled_text,
  rung_text,
  subject_text,
};

use nvme_driver::{Answer, NotUp, PlaceRefusal, PollFault, Ticket, UpFault};
use nvme_event::{BareFleetSeen, FleetEvent};
use nvme_machine::{BareExecuted, Fetched};
use nvme_wire::Status;
use script_text::{
    HexText, NoRoom, Page, Spell, put_both, put_hex, put_hex_in, put_labelled, put_number,
};

/// The line of an event: its result, and its data.
#[derive(Clone, Copy)]
pub struct TranscriptLine<'a> {
    pub event: FleetEvent<'a>,
    pub seen: &'a BareFleetSeen,
    pub bytes: &'a [u8],
}

impl Spell for TranscriptLine<'_> {
    ghost spelled = { λ line. event_text line.event (seen_of line.seen.now) line.bytes.now };

    fn spell<P: Page>(&self, page: &mut P) -> Result<(), NoRoom> {
        let cntlid = u64::from(self.event.cntlid());
        match self.seen {
            BareFleetSeen::Up(up) => put_up(page, cntlid, up),
            BareFleetSeen::Placed(placed) => put_placed(page, cntlid, placed),
            BareFleetSeen::Rung(rung) => put_rung(page, cntlid, rung),
            BareFleetSeen::Fetched(fetched) => put_fetched(page, &self.event, fetched),
            BareFleetSeen::Executed(executed) => put_executed(page, &self.event, executed),
            BareFleetSeen::Polled(polled) => {
                put_labelled(page, "poll ", cntlid)?;
                page.put_str(" ")?;
                put_polled(page, polled, self.bytes)
            }
            BareFleetSeen::Reset => put_labelled(page, "reset ", cntlid),
            BareFleetSeen::Stored => put_labelled(page, "stored ", cntlid),
            BareFleetSeen::Outside => put_labelled(page, "outside ", cntlid),
            BareFleetSeen::Wrote => put_labelled(page, "wrote32 ", cntlid),
            BareFleetSeen::Cycled => page.put_str("powercycle"),
            BareFleetSeen::NoController => put_labelled(page, "nocontroller ", cntlid),
            BareFleetSeen::NoDriver => put_labelled(page, "nodriver ", cntlid),
            BareFleetSeen::NotRaw => put_labelled(page, "notraw ", cntlid),
        }
    }
}

/// Puts the result of bringing a controller up.
fn put_up<P: Page>(page: &mut P, cntlid: u64, up: &Result<(), UpFault>) -> Result<(), NoRoom>
    ensures { Adds P.room result (P.written page.old) (brought_text (decimal cntlid) up.now) (P.written page.new) }
{
    put_labelled(page, "up ", cntlid)?;
    page.put_str(" ")?;
    match up {
        Ok(()) => page.put_str("ok"),
        Err(fault) => put_up_fault(page, fault),
    }
}

/// Puts why a driver did not come up.
fn put_up_fault<P: Page>(page: &mut P, fault: &UpFault) -> Result<(), NoRoom>
    ensures { Adds P.room result (P.written page.old) (up_fault_text fault.now) (P.written page.new) }
{
    match fault {
        UpFault::AlreadyUp => page.put_str("AlreadyUp"),
        UpFault::NotReady => page.put_str("NotReady"),
        UpFault::NoAnswer => page.put_str("NoAnswer"),
        UpFault::Refused(status) => {
            page.put_str("Refused ")?;
            put_status(page, *status)
        }
    }
}

/// Puts a status: its type, and its code in two digits.
fn put_status<P: Page>(page: &mut P, status: Status) -> Result<(), NoRoom>
    ensures { Adds P.room result (P.written page.old) (status_text status) (P.written page.new) }
{
    put_hex(page, u64::from(status.sct))?;
    page.put_str(":")?;
    put_hex_in(page, 2, u64::from(status.sc))
}

/// Puts the result of placing a request.
fn put_placed<P: Page>(
    page: &mut P,
    cntlid: u64,
    placed: &Result<Ticket, PlaceRefusal>,
) -> Result<(), NoRoom>
    ensures { Adds P.room result (P.written page.old) (placed_text (decimal cntlid) placed.now) (P.written page.new) }
{
    match placed {
        Ok(ticket) => {
            put_labelled(page, "placed ", cntlid)?;
            put_labelled(page, " ", ticket.0)
        }
        Err(refusal) => {
            put_labelled(page, "refused ", cntlid)?;
            put_both(page, " ", refusal_name(*refusal))
        }
    }
}

/// The name of a refusal.
fn refusal_name(refusal: PlaceRefusal) -> &'static str
    ensures { result.now ≡ refusal_text refusal }
{
    match refusal {
        PlaceRefusal::NotReady => "NotReady",
        PlaceRefusal::BadRequest => "BadRequest",
        PlaceRefusal::NoSlot => "NoSlot",
        PlaceRefusal::RingFull => "RingFull",
        PlaceRefusal::TicketsExhausted => "TicketsExhausted",
    }
}

/// Puts the result of ringing.
fn put_rung<P: Page>(page: &mut P, cntlid: u64, rung: &Result<(), NotUp>) -> Result<(), NoRoom>
    ensures { Adds P.room result (P.written page.old) (rung_text (decimal cntlid) rung.now) (P.written page.new) }
{
    put_labelled(page, "rung ", cntlid)?;
    page.put_str(match rung {
        Ok(()) => "",
        Err(NotUp) => " NotUp",
    })
}

/// Puts the controller of an event, with the queue of a fetch or the place of an execution.
fn put_subject<P: Page>(page: &mut P, event: &FleetEvent<'_>) -> Result<(), NoRoom>
    ensures { Adds P.room result (P.written page.old) (subject_text event.now) (P.written page.new) }
{
    match event {
        FleetEvent::Fetch(cntlid, qid) => {
            put_number(page, u64::from(*cntlid))?;
            put_labelled(page, " ", u64::from(*qid))
        }
        FleetEvent::Execute(cntlid, i) => {
            put_number(page, u64::from(*cntlid))?;
            put_labelled(page, " ", *i as u64)
        }
        event => put_number(page, u64::from(event.cntlid())),
    }
}

/// Puts the result of a fetch.
fn put_fetched<P: Page>(
    page: &mut P,
    event: &FleetEvent<'_>,
    fetched: &Fetched,
) -> Result<(), NoRoom>
    ensures { Adds P.room result (P.written page.old)
        (codes "fetch " ++ subject_text event.now ++ codes " " ++ fetched_text fetched.now) (P.written page.new) }
{
    page.put_str("fetch ")?;
    put_subject(page, event)?;
    page.put_str(match fetched {
        Fetched::Took => " took",
        Fetched::Idle => " idle",
    })
}

/// Puts the result of an execution.
fn put_executed<P: Page>(
    page: &mut P,
    event: &FleetEvent<'_>,
    executed: &BareExecuted,
) -> Result<(), NoRoom>
    ensures { Adds P.room result (P.written page.old)
        (codes "execute " ++ subject_text event.now ++ codes " " ++ executed_text (executed_of executed.now))
        (P.written page.new) }
{
    page.put_str("execute ")?;
    put_subject(page, event)?;
    match executed {
        BareExecuted::Posted(outcome) => {
            page.put_str(" posted ")?;
            put_status(page, outcome.status)?;
            put_labelled(page, " ", u64::from(u16::from(outcome.rule)))
        }
        BareExecuted::NoSuch => page.put_str(" none"),
        BareExecuted::CqFull => page.put_str(" full"),
    }
}

/// Puts the result of a poll, and its data.
fn put_polled<P: Page>(
    page: &mut P,
    polled: &Result<Option<Answer>, PollFault>,
    bytes: &[u8],
) -> Result<(), NoRoom>
    ensures { Adds P.room result (P.written page.old) (polled_text polled.now bytes.now) (P.written page.new) }
{
    match polled {
        Ok(Some(answer)) => put_answer(page, answer, bytes),
        Ok(None) => page.put_str("nothing"),
        Err(PollFault::NotUp) => page.put_str("NotUp"),
        Err(PollFault::UnknownCommand) => page.put_str("UnknownCommand"),
    }
}

/// Puts an answer that is delivered, and its data.
fn put_answer<P: Page>(page: &mut P, answer: &Answer, bytes: &[u8]) -> Result<(), NoRoom>
    ensures { Adds P.room result (P.written page.old) (answer_text answer.now bytes.now) (P.written page.new) }
{
    match answer {
        Answer::Done {
            ticket,
            status,
            dw0,
            ..
        } => {
            put_number(page, ticket.0)?;
            page.put_str(" ")?;
            put_status(page, *status)?;
            page.put_str(" ")?;
            put_hex_in(page, 8, u64::from(*dw0))?;
            put_data(page, bytes)
        }
        Answer::Aborted { ticket } => {
            put_number(page, ticket.0)?;
            page.put_str(" aborted")
        }
    }
}

/// Puts the number of bytes, and the bytes; nothing if there are none.
pub fn put_data<P: Page>(page: &mut P, bytes: &[u8]) -> Result<(), NoRoom>
    ensures { Adds P.room result (P.written page.old) (data_text bytes.now) (P.written page.new) }
{
    if bytes.is_empty() {
        return page.put_str("");
    }
    put_labelled(page, " ", bytes.len() as u64)?;
    page.put_str(" ")?;
    HexText(bytes).spell(page)
}

//! A command capsule comes.

ghost use Rattle.std.specs.Prelude.{◌≡◌};
ghost use Rattle.nvme_responses.specs.Responses.{accepted, after_accept, seen};
ghost use Rattle.nvme_capsules.specs.Capsules.{cid_of};
ghost use Rattle.nvme_capsules.specs.declared.outcome.Outcome.TheVariants as outcome;
ghost use Rattle.nvme_capsules.specs.Outcomes as def;

use crate::capsule::Capsule;
use crate::connect_stage::ConnectStage;
use crate::data_place::DataPlace;
use crate::outcome::{Data, Outcome};
use nvme_pdu::Fatal;
use nvme_responses::Responses;
use nvme_transfers::{Command, Transfers};
use nvme_wire::Status;

/// PDU Sequence Error.
const OUT_OF_SEQUENCE: Fatal = Fatal {
    status: 2,
    field: 0,
};

/// Takes a command capsule on a connection that is so far: counts its command, and says what becomes of it. A command
/// that waits for its data is among `transfers` then. One that the queue has no room for changes nothing.
pub fn take(
    responses: &mut Responses,
    transfers: &mut Transfers,
    stage: ConnectStage,
    capsule: &Capsule,
) -> Outcome
    ensures responses { seen responses.new ≡ after_accept (seen responses.old) (cid_of capsule.now.entry) }
    ensures transfers { transfers.new
        ≡ def.transfers_after transfers.old
        (def.planned (accepted (seen responses.old) (cid_of capsule.now.entry)) stage capsule.now) capsule.now }
    ensures result { result
        ≡ def.settled transfers.old
        (def.planned (accepted (seen responses.old) (cid_of capsule.now.entry)) stage capsule.now) capsule.now }
{
    match planned(responses, stage, capsule) {
        Outcome::Waits(length) => begin(transfers, capsule, length),
        other => other,
    }
}

/// Counts the command of a capsule. What becomes of it, if it can begin to wait for its data.
fn planned(responses: &mut Responses, stage: ConnectStage, capsule: &Capsule) -> Outcome
    ensures responses { seen responses.new ≡ after_accept (seen responses.old) (cid_of capsule.now.entry) }
    ensures result { result
        ≡ def.planned (accepted (seen responses.old) (cid_of capsule.now.entry)) stage capsule.now }
{
    let Ok(is_conflict) = responses.accept(capsule.cid()) else {
        return Outcome::Breaks(OUT_OF_SEQUENCE);
    };
    match capsule.refusal(stage, is_conflict) {
        Some(status) => Outcome::Refused(status),
        None => placed(stage, capsule),
    }
}

/// What becomes of a command by its data.
fn placed(stage: ConnectStage, capsule: &Capsule) -> Outcome
    ensures { result ≡ def.placed stage capsule.now }
{
    match (DataPlace::of(&capsule.entry, capsule.data_length), stage) {
        (Err(status), _) => Outcome::Refused(status),
        (Ok(DataPlace::InCapsule(begin, length)), _) => Outcome::Ready(Data::InCapsule(
            begin, length,
        )),
        (Ok(DataPlace::FromController(length)), _) => Outcome::Ready(Data::FromController(length)),
        (Ok(DataPlace::OnRequest(_)), ConnectStage::NotConnected) => Outcome::Refused(
            Status::COMMAND_SEQUENCE_ERROR,
        ),
        (Ok(DataPlace::OnRequest(length)), _) => Outcome::Waits(length),
    }
}

/// A command begins to wait for its data.
fn begin(transfers: &mut Transfers, capsule: &Capsule, length: u32) -> Outcome
    ensures transfers { transfers.new
        ≡ def.transfers_after transfers.old (outcome.Waits length) capsule.now }
    ensures result { result
        ≡ def.settled transfers.old (outcome.Waits length) capsule.now }
{
    let command = Command {
        entry: capsule.entry,
        length,
    };
    match transfers.begin(command) {
        Ok(()) => Outcome::Waits(length),
        Err(_) => Outcome::Breaks(OUT_OF_SEQUENCE),
    }
}

//! A run of events over a fleet.

ghost use Rattle.std.specs.Prelude.{◌≡◌, ◌≤◌, [], vec_capacity, OnOk, OnErr};
ghost use Rattle.nvme_fleet.specs.FleetStates.{data_in, layers_of};
ghost use Rattle.nvme_spec.specs.MediumCalls.{MakesCalls};
ghost use Rattle.nvme_fleet.specs.Layers.{Step};
ghost use Rattle.nvme_fleet.specs.LayerCalls.{AreCallsOfStep};
ghost use Rattle.nvme_fleet.specs.Running.{RunsBehind, RunsInPart, room_for};

use crate::fleet::Fleet;
use nvme_event::{FleetEvent, Reply};
use nvme_medium::Medium;
use nvme_spec::MOST_BYTES;
use nvme_wire::NoMemory;
use std::alloc::Global;

/// The most bytes of an event's data: only a poll has any.
fn room_of(event: FleetEvent<'_>) -> usize
    ensures { result ≡ room_for event.entry }
{
    match event {
        FleetEvent::Poll(_) => MOST_BYTES,
        _ => 0,
    }
}

impl<M: Medium> Fleet<M> {
    /// Applies events in order, each a step of both layers at once, and appends their replies. Takes the
    /// memory for a reply before its event. The data are then those of the last event that happened. The calls of the
    /// medium are those of the events that happened, in order, and no others.
    ///
    /// # Errors
    ///
    /// `NoMemory` if memory for the next reply is refused: the events before it have happened, and their replies are
    /// appended; that event and those after it have not.
    pub fn run(
        &mut self,
        alloc: Global,
        events: &[FleetEvent<'_>],
        replies: &mut Vec<Reply>,
    ) -> Result<(), NoMemory>
        ensures ran { OnOk result
            (RunsBehind M.step M.tells replies.old.items self.old events.now replies.new.items self.new) }
        ensures stopped { OnErr result
            (RunsInPart M.step M.tells replies.old.items self.old events.now replies.new.items self.new) }
    {
        for event in events {
            replies.reserve(1)?;
            let bytes = Vec::with_capacity(alloc, room_of(*event))?;
            replies.push_reserved(self.reply_to(*event, bytes));
        }
        Ok(())
    }

    /// Applies an event and returns its reply, with its data in `bytes`, which must be empty and have capacity for
    /// them.
    fn reply_to(&mut self, event: FleetEvent<'_>, mut bytes: Vec<u8>) -> Reply
        requires empty { bytes.items ≡ [] }
        requires room { room_for event ≤ vec_capacity bytes }
        ensures step { Step M.tells (layers_of self.old.state) event.entry result (layers_of self.new.state) }
        ensures calls { MakesCalls M.step (AreCallsOfStep M.tells (layers_of self.old.state) event.entry result
            (layers_of self.new.state)) self.old.medium self.new.medium }
        ensures bytes { result.bytes ≡ data_in self.new.state }
    {
        let seen = self.apply(event);
        // They fit, so no memory is taken.
        let _fits = bytes.extend_from_slice(self.data());
        Reply { seen, bytes }
    }
}

//! The reply to an event of a fleet.

use crate::seen::FleetSeen;
use std::marker::Model;

/// The result of an event, and the data that a poll delivers. Every other event has no data. Contracts see it as the
/// record `Reply` of these.
#[derive(Drop)]
pub struct Reply {
    pub seen: FleetSeen,
    pub bytes: Vec<u8>,
}

impl Model for Reply {
    ghost use Rattle.nvme_event.specs.Replies.{Reply as Gives};

    ghost Value = { Gives };

    ghost view = { λ r. record { seen = r.seen; bytes = r.bytes.items } };
}

//! How a connection takes bytes.

ghost use Rattle.std.specs.Prelude.{
  ◌≡◌,
  ◌≤◌,
  ◌<◌,
  ◌+◌,
  ◌-◌,
  ◌++◌,
  [],
  length,
  take,
  drop,
  min,
  nat_lt,
  if◌then◌else◌,
  None,
  Ok,
  IfSome,
};
ghost use Rattle.nvme_pdu.specs.Layouts.{layout_of};
ghost use Rattle.nvme_connection.specs.declared.stage.Stage.TheVariants.{Taking, Ended};
ghost use Rattle.nvme_connection.specs.Connections.{Connection as Seen, begin};
ghost use Rattle.nvme_connection.specs.Streams.{after_bytes};
ghost use Rattle.nvme_connection.specs.Holding.{Holds, Takes, Covers, Stops};

use crate::connection::Connection;
use crate::stage::Stage;
use crate::taken::Taken;
use nvme_pdu::{Agreed, Fatal, Kind, PduLayout};

impl Connection {
    /// A connection of which nothing has come.
    pub fn new() -> Connection
        ensures { Holds result begin }
    {
        Connection {
            stage: Stage::Taking,
            is_open: false,
            agreed: Agreed {
                header_digests: false,
                data_digests: false,
                alignment: 0,
            },
            count: 0,
            kept: [0; 128],
            layout: PduLayout {
                kind: Kind::IcReq,
                is_last: false,
                header: 0,
                header_digest: false,
                data_offset: 0,
                data_length: 0,
                data_digest: false,
                length: 0,
            },
        }
    }

    /// Takes bytes in their order, up to the end of the PDU in hand, or up to the first that breaks a rule.
    pub fn take(&mut self, bytes: &[u8]) -> Taken
        ensures takes { (c : Seen) → Holds self.old c → Takes c bytes.now result self.new }
        ensures within { result.count ≤ length bytes.now }
    {
        match self.stage {
            Stage::Taking => self.take_more(bytes),
            Stage::Complete => {
                if bytes.is_empty() {
                    return Taken::without_data(0, None);
                }
                self.stage = Stage::Taking;
                self.count = 0;
                self.take_more(bytes)
            }
            Stage::Whole => Taken::without_data(0, None),
            Stage::Ended => Taken::without_data(0, None),
        }
    }

    /// Takes bytes of the PDU in hand.
    fn take_more(&mut self, bytes: &[u8]) -> Taken
        requires stage { self.old.stage ≡ Taking }
        ensures takes { (c : Seen) → Holds self.old c → Takes c bytes.now result self.new }
        ensures within { result.count ≤ length bytes.now }
    {
        let before = self.count;
        let (first, breach) = self.take_common(bytes);
        if breach.is_some() {
            return Taken::without_data(first, breach);
        }
        let count = first + self.take_rest(&bytes[first..]);
        if self.count < 8 {
            return Taken::without_data(count, None);
        }
        self.with_data(before, count)
    }

    /// What was taken: `count` bytes, which came after `before` others of the PDU in hand.
    fn with_data(&self, before: usize, count: usize) -> Taken
        ensures count { result.count ≡ count }
        ensures breach { result.breach ≡ None }
        ensures begin { result.data_begin ≡ min (self.now.layout.data_offset - before) count }
        ensures end { result.data_end ≡ min (self.now.layout.data_offset + self.now.layout.data_length - before) count }
        ensures offset { result.data_offset ≡ (if nat_lt result.data_begin result.data_end
            then before - self.now.layout.data_offset else 0) }
    {
        let offset = self.layout.data_offset as usize;
        let data_begin = offset.saturating_sub(before).min(count);
        let data_end = (offset + self.layout.data_length as usize)
            .saturating_sub(before)
            .min(count);
        let data_offset = if data_begin < data_end {
            before.saturating_sub(offset)
        } else {
            0
        };
        Taken {
            count,
            data_begin,
            data_end,
            data_offset,
            breach: None,
        }
    }

    /// Takes bytes up to the eighth of a PDU, which is then laid out. Returns their number.
    fn take_common(&mut self, bytes: &[u8]) -> (usize, Option<Fatal>)
        requires stage { self.old.stage ≡ Taking }
        ensures covers { (c : Seen) → Holds self.old c → Covers c (take result.0 bytes.now) result.1 self.new }
        ensures within { result.0 ≤ length bytes.now }
        ensures ends { IfSome result.1 (λ fatal. (self.new.stage ≡ Ended) × (self.new.count ≤ 8)) }
        ensures goes_on { result.1 ≡ None → self.new.stage ≡ Taking }
        ensures far { self.new.count < 8 → result.0 ≡ length bytes.now }
    {
        if self.count >= 8 {
            return (0, None);
        }
        let count = (8 - self.count).min(bytes.len());
        self.keep(&bytes[..count]);
        (count, self.lay_out())
    }

    /// Takes the bytes of a PDU that is laid out, up to its end. Returns their number.
    fn take_rest(&mut self, bytes: &[u8]) -> usize
        requires stage { self.old.stage ≡ Taking }
        requires far { self.old.count < 8 → length bytes.now ≡ 0 }
        ensures covers { (c : Seen) → Holds self.old c → Covers c (take result bytes.now) None self.new }
        ensures within { result ≤ length bytes.now }
        ensures laid { (c : Seen) → Holds self.old c → 8 ≤ self.new.count
            → layout_of c.agreed (take 8 (after_bytes c (take result bytes.now)).unit) ≡ Ok self.new.layout }
        ensures stops { (c : Seen) → Holds self.old c
            → Stops (after_bytes c (take result bytes.now)) (drop result bytes.now) }
    {
        if self.count < 8 {
            return 0;
        }
        let missing = (self.layout.length as usize).saturating_sub(self.count);
        let count = missing.min(bytes.len());
        self.keep(&bytes[..count]);
        self.settle();
        count
    }
}

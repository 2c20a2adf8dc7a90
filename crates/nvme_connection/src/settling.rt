//! What a connection finds in the bytes that it has kept.

ghost use Rattle.std.specs.Prelude.{◌≡◌, ◌≤◌, ◌<◌, length, take, IfSome, None};
ghost use Rattle.nvme_connection.specs.declared.stage.Stage.TheVariants.{Ended};
ghost use Rattle.nvme_connection.specs.Connections.{Connection as Seen, reached, broken, is_in_turn};
ghost use Rattle.nvme_connection.specs.Holding.{Holds, Gathers, IsLaid, Makes, settled_by};

use crate::connection::Connection;
use crate::keeping::OUT_OF_SEQUENCE;
use crate::stage::Stage;
use nvme_pdu::{Fatal, PduLayout};

impl Connection {
    /// The PDU is whole if all its bytes have come.
    pub(crate) fn settle(&mut self)
        ensures settles { (c : Seen) → Gathers self.old c → IsLaid c self.old.layout
            → Holds self.new (settled_by c self.old.layout) }
        ensures layout { self.new.layout ≡ self.old.layout }
    {
        if self.count >= self.layout.length as usize {
            self.stage = Stage::Whole;
        }
    }

    /// ICReq comes first, and only first.
    fn is_in_turn(&self) -> bool
        ensures { (c : Seen) → Gathers self.now c → 0 < length c.unit → result ≡ is_in_turn c c.unit }
    {
        if self.is_open {
            self.kept[0] != 0
        } else {
            self.kept[0] == 0
        }
    }

    /// Lays the PDU out, if eight bytes have come.
    pub(crate) fn lay_out(&mut self) -> Option<Fatal>
        requires few { self.old.count ≤ 8 }
        ensures makes { (c : Seen) → Gathers self.old c → Makes (reached c c.unit) result self.new }
        ensures ends { IfSome result (λ fatal. self.new.stage ≡ Ended) }
        ensures goes_on { result ≡ None → self.new.stage ≡ self.old.stage }
        ensures count { self.new.count ≡ self.old.count }
    {
        if self.count < 8 {
            return None;
        }
        if !self.is_in_turn() {
            return Some(self.end(OUT_OF_SEQUENCE));
        }
        match PduLayout::of(self.agreed, &self.head()) {
            Ok(layout) => {
                self.layout = layout;
                None
            }
            Err(fatal) => Some(self.end(fatal)),
        }
    }

    /// Ends for this reason.
    pub(crate) fn end(&mut self, fatal: Fatal) -> Fatal
        ensures fatal { result ≡ fatal }
        ensures stage { self.new.stage ≡ Ended }
        ensures count { self.new.count ≡ self.old.count }
        ensures ends { (c : Seen) → Gathers self.old c → Holds self.new (broken c c.unit fatal).0 }
    {
        self.stage = Stage::Ended;
        fatal
    }
}

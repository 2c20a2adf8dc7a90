//! What a connection is, and what it has in hand.

ghost use Rattle.std.specs.Prelude.{◌≡◌, take};
ghost use Rattle.nvme_connection.specs.Connections.{Connection as Seen};
ghost use Rattle.nvme_connection.specs.Holding.{Holds};
ghost use Rattle.nvme_connection.specs.Streams.{layout_in_hand, wanted};

use crate::connection::Connection;
use crate::stage::Stage;
use nvme_pdu::{Agreed, PduLayout};

impl Connection {
    /// How far it is with the PDU in hand.
    pub fn stage(&self) -> Stage
        ensures { (c : Seen) → Holds self.now c → result ≡ c.stage }
    {
        self.stage
    }

    /// What was agreed on when ICReq was granted. Before, there are no digests.
    pub fn agreed(&self) -> Agreed
        ensures { (c : Seen) → Holds self.now c → result ≡ c.agreed }
    {
        self.agreed
    }

    /// The first bytes of the PDU in hand: 128, or all that have come.
    pub fn kept(&self) -> &[u8]
        ensures { (c : Seen) → Holds self.now c → result.now ≡ take 128 c.unit }
    {
        &self.kept[..self.count.min(128)]
    }

    /// The layout of the PDU in hand, once eight bytes have come and until it is judged.
    pub fn layout(&self) -> Option<PduLayout>
        ensures { (c : Seen) → Holds self.now c → result ≡ layout_in_hand c }
    {
        match self.stage {
            Stage::Taking => {
                if self.count < 8 {
                    None
                } else {
                    Some(self.layout)
                }
            }
            Stage::Whole => Some(self.layout),
            _ => None,
        }
    }

    /// How many bytes the PDU in hand wants: up to the eighth, then all that it lacks.
    pub fn wanted(&self) -> usize
        ensures { (c : Seen) → Holds self.now c → result ≡ wanted c }
    {
        match self.stage {
            Stage::Taking => {
                if self.count < 8 {
                    8 - self.count
                } else {
                    (self.layout.length as usize).saturating_sub(self.count)
                }
            }
            Stage::Complete => 8,
            _ => 0,
        }
    }
}

//! What a connection keeps of the bytes that it takes.

ghost use Rattle.std.specs.Prelude.{◌≡◌, ◌≤◌, ◌<◌, ◌+◌, ◌-◌, ◌++◌, ◌^◌, [], length, take, drop, None};
ghost use Rattle.nvme_connection.specs.Connections.{Connection as Seen};
ghost use Rattle.nvme_connection.specs.Holding.{Holds, IsKept};

use crate::connection::Connection;
use crate::stage::Stage;
use nvme_pdu::{Agreed, Fatal, PduLayout};

/// PDU Sequence Error.
pub(crate) const OUT_OF_SEQUENCE: Fatal = Fatal {
    status: 2,
    field: 0,
};

impl Connection {
    /// Keeps bytes that come after those so far.
    pub(crate) fn keep(&mut self, bytes: &[u8])
        requires fits { self.old.count + length bytes.now < 2 ^ 64 }
        ensures kept { IsKept self.old.count self.old.kept bytes.now self.new.count self.new.kept }
        ensures stage { self.new.stage ≡ self.old.stage }
        ensures is_open { self.new.is_open ≡ self.old.is_open }
        ensures agreed { self.new.agreed ≡ self.old.agreed }
        ensures layout { self.new.layout ≡ self.old.layout }
    {
        let end = self.count + bytes.len();
        let (first, last) = (self.count.min(128), end.min(128));
        self.kept[first..last].copy_from_slice(&bytes[..last - first]);
        self.count = end;
    }

    /// The eight bytes of the PDU Common Header.
    pub(crate) fn head(&self) -> [u8; 8]
        ensures { result ≡ take 8 self.now.kept }
    {
        let mut head = [0; 8];
        head.copy_from_slice(&self.kept[..8]);
        head
    }
}

//! What a connection has taken.

ghost use Rattle.std.specs.Prelude.{◌≡◌};

use nvme_pdu::Fatal;

/// What a connection has taken of the bytes that it was given.
#[derive(Clone, Copy)]
pub struct Taken {
    /// The number of bytes that it has taken, from the first on. The others are not looked at: give them again.
    pub count: usize,
    /// The bytes from `data_begin` to `data_end` are data of the PDU in hand. `data_offset` others came before them.
    pub data_begin: usize,
    pub data_end: usize,
    pub data_offset: usize,
    /// The reason why the connection ends, if they break a rule of the transport.
    pub breach: Option<Fatal>,
}

impl Taken {
    /// `count` bytes, none of which are data.
    pub(crate) fn without_data(count: usize, breach: Option<Fatal>) -> Taken
        ensures count { result.count ≡ count }
        ensures breach { result.breach ≡ breach }
        ensures begin { result.data_begin ≡ 0 }
        ensures end { result.data_end ≡ 0 }
        ensures offset { result.data_offset ≡ 0 }
    {
        Taken {
            count,
            data_begin: 0,
            data_end: 0,
            data_offset: 0,
            breach,
        }
    }
}

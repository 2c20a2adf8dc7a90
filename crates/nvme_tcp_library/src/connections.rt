//! A controller's end of a connection for C, which keeps it in a struct of plain numbers.

ghost use Rattle.std.specs.Prelude.{◌≡◌, ◌≤◌, length};
ghost use Rattle.nvme_connection.specs.Connections.{Connection as Seen, judged, refused};
ghost use Rattle.nvme_connection.specs.Holding.{Holds};
ghost use Rattle.nvme_connection.specs.Raws.{value_of};
ghost use Rattle.nvme_connection.specs.Streams.{layout_in_hand, wanted};
ghost use Rattle.nvme_tcp_library.specs.Connections.{
  TakesSeen,
  layout_if,
  taken_seen,
  verdict_in,
  verdict_seen,
};

use crate::codes;
use crate::pdus::LayoutSeen;
use nvme_connection::{
    Connection, Judged, RawConnection, Taken as TakenBytes, Verdict as Judgement,
};
use nvme_pdu::{Fatal, PduLayout};

/// What a connection has taken of the bytes that it was given.
#[repr(C)]
#[derive(Clone, Copy)]
pub struct Taken {
    /// The number of bytes that it has taken, from the first on.
    pub count: usize,
    /// The bytes from `data_begin` to `data_end` are data of the PDU in hand. `data_offset` others came before them.
    pub data_begin: usize,
    pub data_end: usize,
    pub data_offset: usize,
    /// `OK`; or `BAD_PDU`, and the connection has ended.
    pub what: u32,
    /// The offset of the field at fault, or 0.
    pub field: u32,
    /// The Fatal Error Status, or 0.
    pub status: u16,
}

/// The outcome of a PDU.
#[repr(C)]
#[derive(Clone, Copy)]
pub struct Verdict {
    /// `OK`, and the layout of the PDU that is complete; `BAD_PDU`, and the connection has ended; or `NO_PDU`.
    pub layout: LayoutSeen,
    /// Whether the data of the PDU are as the host sent them.
    pub is_sound: bool,
}

/// Takes bytes in their order, up to the end of the PDU in hand, or up to the first that breaks a rule.
#[unsafe(no_mangle)]
pub extern "C" fn nvmesim_connection_take(connection: &mut RawConnection, bytes: &[u8]) -> Taken
    ensures takes { (c : Seen) → Holds (value_of connection.old) c
        → TakesSeen c bytes.now result (value_of connection.new) }
    ensures within { result.count ≤ length bytes.now }
{
    let mut taking = Connection::of(connection);
    let taken = taking.take(bytes);
    *connection = taking.into_raw();
    Taken::of(taken)
}

/// Judges the PDU in hand, if it is whole, by its digests.
#[unsafe(no_mangle)]
pub extern "C" fn nvmesim_connection_judge(
    connection: &mut RawConnection,
    header_is_right: bool,
    data_are_right: bool,
) -> Verdict
    ensures next { (c : Seen) → Holds (value_of connection.old) c → Holds (value_of connection.new)
        (judged c (record { header = header_is_right; «data» = data_are_right })).0 }
    ensures verdict { (c : Seen) → Holds (value_of connection.old) c → result
        ≡ verdict_in (judged c (record { header = header_is_right; «data» = data_are_right })).1 }
{
    let mut judged = Connection::of(connection);
    let verdict = judged.judge(Judged {
        header: header_is_right,
        data: data_are_right,
    });
    *connection = judged.into_raw();
    Verdict::of(verdict)
}

/// Ends the connection, because the complete PDU breaks a rule of a layer above.
#[unsafe(no_mangle)]
pub extern "C" fn nvmesim_connection_refuse(
    connection: &mut RawConnection,
    status: u16,
    field: u32,
) -> Verdict
    ensures next { (c : Seen) → Holds (value_of connection.old) c → Holds (value_of connection.new)
        (refused c (record { status = status; field = field })).0 }
    ensures verdict { (c : Seen) → Holds (value_of connection.old) c → result
        ≡ verdict_in (refused c (record { status = status; field = field })).1 }
{
    let mut refused = Connection::of(connection);
    let verdict = refused.refuse(Fatal { status, field });
    *connection = refused.into_raw();
    Verdict::of(verdict)
}

/// The layout of the PDU in hand, once eight bytes have come and until it is judged: `OK`, or `NO_PDU`.
#[unsafe(no_mangle)]
pub extern "C" fn nvmesim_connection_layout(connection: &RawConnection) -> LayoutSeen
    ensures { (c : Seen) → Holds (value_of connection.now) c → result ≡ layout_if (layout_in_hand c) }
{
    LayoutSeen::of_some(Connection::of(connection).layout())
}

/// How many bytes the PDU in hand wants: up to the eighth, then all that it lacks.
#[unsafe(no_mangle)]
pub extern "C" fn nvmesim_connection_wanted(connection: &RawConnection) -> usize
    ensures { (c : Seen) → Holds (value_of connection.now) c → result ≡ wanted c }
{
    Connection::of(connection).wanted()
}

impl Taken {
    /// What was taken, in the form for C.
    fn of(taken: TakenBytes) -> Self
        ensures { result ≡ taken_seen taken }
    {
        let (what, fatal) = match taken.breach {
            Some(fatal) => (codes::BAD_PDU, fatal),
            None => (codes::OK, NO_FAULT),
        };
        Taken {
            count: taken.count,
            data_begin: taken.data_begin,
            data_end: taken.data_end,
            data_offset: taken.data_offset,
            what,
            field: fatal.field,
            status: fatal.status,
        }
    }
}

impl Verdict {
    /// A verdict in the form for C.
    fn of(verdict: Option<Judgement>) -> Self
        ensures { result ≡ verdict_seen verdict }
    {
        match verdict {
            Some(Judgement::Completes { layout, is_sound }) => Verdict {
                layout: LayoutSeen::of(layout),
                is_sound,
            },
            Some(Judgement::Breaks(fatal)) => Verdict {
                layout: LayoutSeen::without(codes::BAD_PDU, fatal),
                is_sound: false,
            },
            None => Verdict {
                layout: LayoutSeen::without(codes::NO_PDU, NO_FAULT),
                is_sound: false,
            },
        }
    }
}

impl LayoutSeen {
    /// A layout, if there is one.
    fn of_some(layout: Option<PduLayout>) -> Self
        ensures { result ≡ layout_if layout }
    {
        match layout {
            Some(layout) => LayoutSeen::of(layout),
            None => LayoutSeen::without(codes::NO_PDU, NO_FAULT),
        }
    }
}

const NO_FAULT: Fatal = Fatal {
    status: 0,
    field: 0,
};

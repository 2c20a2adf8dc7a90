//! A controller's end of a connection, as a value.

use crate::stage::Stage;
use nvme_pdu::{Agreed, PduLayout};

/// A controller's end of a connection. It keeps the beginning of the PDU in hand, and no data.
#[derive(Clone, Copy)]
pub struct Connection {
    pub(crate) stage: Stage,
    /// Whether ICReq was granted, and what was agreed on.
    pub(crate) is_open: bool,
    pub(crate) agreed: Agreed,
    /// How many bytes of the PDU in hand have come, and the first of them.
    pub(crate) count: usize,
    pub(crate) kept: [u8; 128],
    /// Its layout, once eight bytes have come.
    pub(crate) layout: PduLayout,
}

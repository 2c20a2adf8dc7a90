//! What is said of a whole PDU.

use nvme_pdu::{Fatal, PduLayout};

/// Which digests of a PDU are right. Those that it does not have are not looked at.
#[derive(Clone, Copy)]
pub struct Judged {
    pub header: bool,
    pub data: bool,
}

/// What a whole PDU comes to.
#[derive(Clone, Copy)]
pub enum Verdict {
    /// It is complete. It is not sound if the digest of its data is wrong.
    Completes { layout: PduLayout, is_sound: bool },
    /// It breaks a rule of the transport. The connection has ended, and C2HTermReq says why.
    Breaks(Fatal),
}

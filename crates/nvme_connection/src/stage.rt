//! How far a connection is with a PDU.

/// How far a connection is with the PDU in hand.
#[derive(Clone, Copy, PartialEq, Eq)]
pub enum Stage {
    /// It takes the bytes of a PDU.
    Taking,
    /// The PDU is whole, and its digests have not been judged yet.
    Whole,
    /// The PDU is complete. The next byte begins another.
    Complete,
    /// The connection has ended, and takes nothing any more.
    Ended,
}

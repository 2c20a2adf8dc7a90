//! How far a connection is.

ghost use Rattle.std.specs.Prelude.{◌≡◌};
ghost use Rattle.nvme_responses.specs.Responses as def;

/// How far a connection is.
#[derive(Clone, Copy, PartialEq, Eq)]
pub enum Stage {
    /// Commands are accepted, and answered.
    Open,
    /// No more commands are accepted. Those without a response may still get one.
    Ending,
    /// Nothing is accepted or answered any more.
    Ended,
}

impl Stage {
    /// The stage with this number.
    #[inline(always)]
    pub fn of(number: u8) -> Stage
        ensures { result ≡ def.stage_of number }
    {
        match number {
            0 => Stage::Open,
            1 => Stage::Ending,
            _ => Stage::Ended,
        }
    }
}

//! Controller Status, while a host waits for it.

ghost use Rattle.std.specs.Prelude.{◌≡◌};
ghost use Rattle.nvme_device.specs.Status.{is_reached, is_fatal, progress_of};

/// What a host waits for.
#[derive(Clone, Copy, Debug, PartialEq, Eq)]
pub enum Awaited {
    /// RDY is 0: the controller was disabled, and no longer accesses memory.
    Disabled,
    /// RDY is 1: the controller was enabled.
    Ready,
    /// SHST is 10b: the controller was shut down.
    ShutDown,
}

/// How far it is.
#[derive(Clone, Copy, Debug, PartialEq, Eq)]
pub enum Progress {
    /// It is there.
    Reached,
    /// The time is not over.
    Waits,
    /// The register reads as ones: the device was removed.
    Removed,
    /// CFS: the controller has failed.
    Fatal,
    /// The time is over.
    TimedOut,
}

impl Awaited {
    /// Whether a status is the awaited one.
    fn is_reached(self, csts: u32) -> bool
        ensures { result ≡ is_reached self csts }
    {
        match self {
            Awaited::Disabled => csts & 1 == 0,
            Awaited::Ready => csts & 1 == 1,
            Awaited::ShutDown => (csts >> 2) & 3 == 2,
        }
    }

    /// Whether a status shows that the awaited one will not come. A controller that is disabled may show the failure
    /// for which its host disabled it.
    fn is_fatal(self, csts: u32) -> bool
        ensures { result ≡ is_fatal self csts }
    {
        match self {
            Awaited::Disabled => false,
            Awaited::Ready | Awaited::ShutDown => (csts >> 1) & 1 == 1,
        }
    }

    /// Judges the status `csts`, read `elapsed_ms` after the wait began, which may take `timeout_ms`.
    pub fn progress(self, csts: u32, elapsed_ms: u64, timeout_ms: u32) -> Progress
        ensures { result ≡ progress_of self csts elapsed_ms timeout_ms }
    {
        if csts == u32::MAX {
            return Progress::Removed;
        }
        if self.is_fatal(csts) {
            return Progress::Fatal;
        }
        if self.is_reached(csts) {
            return Progress::Reached;
        }
        if elapsed_ms < u64::from(timeout_ms) {
            return Progress::Waits;
        }
        Progress::TimedOut
    }
}

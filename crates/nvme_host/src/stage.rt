//! How far a controller is, as its status showed.

ghost use Rattle.std.specs.Prelude.{◌≡◌};
ghost use Rattle.nvme_host.specs.Stages.{awaited_in, stage_refusal, after_progress, progress_code};

use crate::codes;
use nvme_device::{Awaited, Progress};

/// How far a controller is, as its status showed.
#[derive(Clone, Copy, PartialEq, Eq)]
pub enum Stage {
    /// Nothing is known, so the driver must disable it: at the beginning, or after a fault.
    Unknown,
    /// EN was cleared, and it may still access memory.
    Disabling,
    /// It is disabled, and accesses no memory.
    Disabled,
    /// EN was set.
    Enabling,
    /// It is ready, and the driver creates its queues.
    Enabled,
    /// The driver is up.
    Running,
    /// The time of a request is over, so the driver must reset it.
    Expired,
    /// SHN was set.
    ShuttingDown,
    /// It was shut down.
    ShutDown,
}

impl Stage {
    /// What the host waits for.
    pub(crate) fn awaited(self) -> Option<Awaited>
        ensures { result ≡ awaited_in self }
    {
        match self {
            Stage::Disabling => Some(Awaited::Disabled),
            Stage::Enabling => Some(Awaited::Ready),
            Stage::ShuttingDown => Some(Awaited::ShutDown),
            _ => None,
        }
    }

    /// Why no request is sent.
    pub(crate) fn refusal(self) -> Option<u32>
        ensures { result ≡ stage_refusal self }
    {
        match self {
            Stage::Running => None,
            Stage::Expired => Some(codes::EXPIRED),
            _ => Some(codes::NOT_UP),
        }
    }

    /// The stage after a look at the status.
    pub(crate) fn after(self, progress: Progress) -> Stage
        ensures { result ≡ after_progress self progress }
    {
        match progress {
            Progress::Waits => self,
            Progress::Reached => match self {
                Stage::Disabling => Stage::Disabled,
                Stage::Enabling => Stage::Enabled,
                Stage::ShuttingDown => Stage::ShutDown,
                _ => self,
            },
            _ => Stage::Unknown,
        }
    }
}

/// The number of a progress.
pub fn progress_code(progress: Progress) -> u32
    ensures { result ≡ progress_code progress }
{
    match progress {
        Progress::Reached => codes::OK,
        Progress::Waits => codes::WAITS,
        Progress::Removed => codes::REMOVED,
        Progress::Fatal => codes::FATAL,
        Progress::TimedOut => codes::TIMED_OUT,
    }
}

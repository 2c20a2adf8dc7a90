//! Whether a controller is still up, while requests wait for it.

ghost use Rattle.std.specs.Prelude.{◌≡◌};
ghost use Rattle.nvme_host.specs.Health.{health};

use crate::codes;
use nvme_device::{Awaited, Progress};

/// Judges Controller Status of a controller that is up: `OK`, `REMOVED`, `FATAL`, or `NOT_READY` if it has reset
/// itself.
#[unsafe(no_mangle)]
pub extern "C" fn nvmehost_health(csts: u32) -> u32
    ensures { result ≡ health csts }
{
    match Awaited::Ready.progress(csts, 0, 0) {
        Progress::Reached => codes::OK,
        Progress::Removed => codes::REMOVED,
        Progress::Fatal => codes::FATAL,
        Progress::Waits | Progress::TimedOut => codes::NOT_READY,
    }
}

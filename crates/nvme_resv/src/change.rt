//! The effect of an action on other hosts.

ghost use Rattle.std.specs.Prelude.{◌≡◌, []};

use arrayvec::ArrayVec;
use nvme_spec::HostId;

/// The effect of an action on other hosts.
#[derive(Drop)]
pub struct Change {
    /// The hosts that a Preempt unregistered, by rising host identifier; empty for any other action.
    pub removed: ArrayVec<HostId, 16>,
}

impl Change {
    /// No host was removed.
    pub(crate) fn none() -> Self
        ensures { result.removed.items ≡ [] }
    {
        Change {
            removed: ArrayVec::new(),
        }
    }
}

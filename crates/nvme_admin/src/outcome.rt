//! The outcome of an executed admin command.

ghost use Rattle.std.specs.Prelude.{◌≡◌};
ghost use Rattle.nvme_spec.specs.declared.queues.QueueChange.TheVariants.{Keep};
ghost use Rattle.nvme_spec.specs.Statuses as status;

use nvme_spec::{Denial, QueueChange};
use nvme_wire::Status;

/// The answer to an admin command, apart from what it changed.
#[derive(Clone, Copy, Debug, PartialEq, Eq)]
pub struct AdminOutcome {
    /// The status of the completion queue entry.
    pub status: Status,
    /// Double word 0 of the completion queue entry.
    pub dw0: u32,
    /// The number of the rule that denied the command, or 0 if it was allowed.
    pub rule: u8,
    /// The change of the controller's queues, which the caller has to apply.
    pub change: QueueChange,
}

impl AdminOutcome {
    /// A command that a rule denied.
    pub fn denied(denial: Denial) -> Self
        ensures { result ≡ record { status = denial.status; dw0 = 0; rule = denial.rule; change = Keep } }
    {
        AdminOutcome {
            status: denial.status,
            dw0: 0,
            rule: denial.rule,
            change: QueueChange::Keep,
        }
    }

    /// A command that was performed.
    pub fn completed(dw0: u32, change: QueueChange) -> Self
        ensures { result ≡ record { status = status.successful_completion; dw0 = dw0; rule = 0; change = change } }
    {
        AdminOutcome {
            status: Status::SUCCESSFUL_COMPLETION,
            dw0,
            rule: 0,
            change,
        }
    }
}

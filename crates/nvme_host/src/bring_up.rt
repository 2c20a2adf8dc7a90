//! A bring-up, in steps: what the device reports comes from C between them.

ghost use Rattle.std.specs.Prelude.{◌≡◌};
ghost use Rattle.nvme_host.specs.Calls.{
  DriverBringsUp,
  BringingUp,
  Judging,
  CheckingStatus,
  ReportingCompletion,
  reported_ready,
  reported_completion,
  after_step,
  stage_after,
};
ghost use Rattle.nvme_host.specs.Recording.{IsSamePort, left_out};
ghost use Rattle.nvme_host.specs.Refusals.{bring_up_refusal};

use crate::codes;
use crate::devices::Limits;
use crate::open_driver::OpenDriver;
use crate::outcome::Outcome;
use crate::recording_port::{Need, RecordingPort, Report};
use crate::stage::{Stage, progress_code};
use nvme_device::{Awaited, Capabilities, Progress};
use nvme_driver::UpFault;

/// The stage after a step of a bring-up.
fn stage_after(need: Need, brought_up: Result<(), UpFault>) -> Stage
    ensures { result ≡ stage_after need brought_up }
{
    match (need, brought_up) {
        (Need::Status, _) => Stage::Enabling,
        (Need::Completion, _) => Stage::Enabled,
        (Need::Nothing, Ok(())) => Stage::Running,
        (Need::Nothing, Err(_)) => Stage::Unknown,
    }
}

impl RecordingPort {
    /// Keeps a status that is ready, for a bring-up that awaited it.
    fn report_status(&mut self, awaited: Awaited, progress: Progress, csts: u32)
        ensures { IsSamePort (reported_ready awaited progress csts self.old) self.new }
    {
        if let (Awaited::Ready, Progress::Reached) = (awaited, progress) {
            self.add_report(Report {
                status: csts,
                entry: [0; 16],
            });
        }
    }

    /// Ends a step of a bring-up, which needs this; earlier steps handed out some of its actions.
    fn end_step(&mut self, need: Need, handed_out: usize)
        ensures { IsSamePort (after_step need (left_out self.old handed_out)) self.new }
    {
        self.leave_out(handed_out);
        if let Need::Nothing = need {
            self.forget();
        }
    }
}

impl OpenDriver {
    /// Judges Controller Capabilities. The driver remembers them if they suit it.
    pub(crate) fn judge(&mut self, cap: u64) -> Limits
        ensures { Judging self.old cap result self.new }
    {
        let judged = Capabilities::judge(cap);
        if let Ok(capabilities) = judged {
            self.port.stride = capabilities.stride;
            self.capabilities = Some(capabilities);
        }
        Limits::of(judged)
    }

    /// Judges the status `csts`, read `elapsed_ms` after the last register write.
    pub(crate) fn check_status(&mut self, csts: u32, elapsed_ms: u64) -> u32
        ensures { CheckingStatus self.old csts elapsed_ms result self.new }
    {
        let Some(awaited) = self.stage.awaited() else {
            return codes::NOT_AWAITED;
        };
        let Some(capabilities) = self.capabilities else {
            return codes::NOT_JUDGED;
        };
        let progress = awaited.progress(csts, elapsed_ms, capabilities.timeout_ms);
        self.port.report_status(awaited, progress, csts);
        self.stage = self.stage.after(progress);
        progress_code(progress)
    }

    /// Reports the next completion of the admin queue to the bring-up.
    pub(crate) fn report_completion(&mut self, entry: &[u8; 16]) -> u32
        ensures { ReportingCompletion self.old entry.now result self.new }
    {
        match (self.stage, self.port.need) {
            (Stage::Enabled, Need::Completion) => {
                self.port.add_report(Report {
                    status: 0,
                    entry: *entry,
                });
                codes::OK
            }
            _ => codes::NOT_AWAITED,
        }
    }

    /// Why there is no bring-up now.
    fn bring_up_refusal(&self) -> Option<u32>
        ensures { result ≡ bring_up_refusal self.now }
    {
        if self.port.is_pending() {
            return Some(codes::ACTIONS_PENDING);
        }
        if self.capabilities.is_none() {
            return Some(codes::NOT_JUDGED);
        }
        match self.stage {
            Stage::Disabled | Stage::Enabled => None,
            Stage::Running => Some(codes::ALREADY_UP),
            _ => Some(codes::NOT_DISABLED),
        }
    }

    /// Brings the controller up over what the device reported, from the beginning.
    fn bring_up_driver(&mut self) -> Result<(), UpFault>
        ensures { DriverBringsUp self.old result self.new }
    {
        self.port.rewind();
        self.driver.bring_up(&mut self.port)
    }

    /// Brings the controller up as far as what the device reported allows.
    pub(crate) fn bring_up(&mut self) -> Outcome
        ensures { BringingUp self.old result self.new }
    {
        if let Some(code) = self.bring_up_refusal() {
            return Outcome::with_code(code);
        }
        let handed_out = self.port.handed_out;
        let brought_up = self.bring_up_driver();
        let need = self.port.need;
        self.port.end_step(need, handed_out);
        self.stage = stage_after(need, brought_up);
        Outcome::of_bring_up(need, brought_up)
    }
}

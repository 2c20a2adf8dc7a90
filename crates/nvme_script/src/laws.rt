//! Laws of a script's run. Each law is the contract of an empty function.

ghost use Rattle.nvme_script.specs.OutputLaws.{DoneIsSent, StopsBeyondABuffer, StopsByACall, UnsentByACall};
ghost use Rattle.nvme_script.specs.RunLaws.{CallingRuns, CallingStops, TranscriptExists, TranscriptIsUnique};

use nvme_medium::Medium;
use script_text::FlushedSink;

/// A script's run over a medium is one of the mailboxes, with that transcript, and leaves that run's medium; so is one
/// that stopped at a line that could not be written.
pub fn run_is_of_mailboxes<M: Medium>()
    ensures ran { CallingRuns M.step M.tells M.device }
    ensures stopped { CallingStops M.step M.tells M.device }
{}

/// Without a fault of the medium, a script has exactly one run: its transcript, and the medium that it leaves, are what
/// the definitions compute.
pub fn transcript_is_determined()
    ensures unique { TranscriptIsUnique }
    ensures exists { TranscriptExists }
{}

/// The output of a program that succeeded got the whole transcript, each byte once and in order, then one flush, and no
/// call of it failed. The fault `Write` occurs only after a call of the output that failed, which is the first that did
/// and the last that was made; or at a line that is longer than a text may be.
pub fn output_is_called<O: FlushedSink, M: Medium>()
    ensures done { DoneIsSent M.Medium O.Sink O.flushes }
    ensures stopped { StopsByACall M.Medium O.Sink O.flushes }
    ensures beyond { StopsBeyondABuffer M.Medium O.Sink }
    ensures unsent { UnsentByACall M.Medium O.Sink O.flushes }
{}

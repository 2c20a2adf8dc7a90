//! Laws of sessions. Each law is the contract of an empty function.

ghost use Rattle.nvme_live.specs.Keeping.{KeptLinesAreARun, KeptLinesRunAmidLooks, KeptLinesTranscribe};
ghost use Rattle.nvme_live.specs.SessionLaws.{
  AnsweredLinesAreASession,
  EndIsUnique,
  EndsInBytes,
  EndsStandAlone,
  FailuresInBytes,
  LinesBeforeStartAreAnswered,
  LinesOfARunAreAnswered,
  SessionIsUnique,
  SessionsStandAlone,
  StartIsAnswered,
};
ghost use Rattle.nvme_live.specs.SessionScripts.{
  PlayedIsARun,
  RefusedIsAFault,
  ReplaysAlike,
  SessionIsAScript,
  SessionIsAScriptAmidLooks,
};
ghost use Rattle.nvme_live.specs.SetUpLaws.{RefusalNamesALine, RunsWhereAccepted, SetUpIsNumbered};
ghost use Rattle.nvme_live.specs.Streams.{ReadsBy, SendsBy};
ghost use Rattle.nvme_live.specs.Taking.{LinesAreKnown};

use crate::streams::LineSource;
use nvme_medium::Medium;
use script_text::FlushedSink;

/// Known bytes that are taken to their end have exactly the lines between the line feeds.
pub fn lines_are_known()
    ensures { LinesAreKnown }
{}

/// After `start` the lines of a session without queries and those answered `!` are a run of the fleet, and the answers
/// of the events among them are exactly the transcript of a script of these lines: a run of both layers if each query
/// of blocks left the medium unchanged, and in any session one with queries of blocks in it.
pub fn kept_lines_are_a_run()
    ensures layers { KeptLinesAreARun }
    ensures transcript { KeptLinesTranscribe }
    ensures amid_looks { KeptLinesRunAmidLooks }
{}

/// The lines of a session, from the first, without queries and those answered `!`, are a script, after the first script
/// if that has a `start`. It has the session's configuration and events, and its transcript is that of the first script
/// and then the answers of the session's events.
pub fn session_is_a_script<R: LineSource, W: FlushedSink, M: Medium>()
    ensures script { SessionIsAScript M.step M.tells M.device R.step R.remaining W.step W.flushes W.contents }
    ensures amid_looks { SessionIsAScriptAmidLooks M.step M.tells M.device R.step R.remaining W.step
        W.flushes W.contents }
    ensures run { PlayedIsARun }
    ensures refused { RefusedIsAFault }
    ensures alike { ReplaysAlike }
{}

/// A session over a medium, whose lines make exactly their own calls of it, in order, is one of the session's states
/// alone, which the other laws are about: with the same lines, answers and end.
pub fn session_stands_alone<R: LineSource, W: FlushedSink, M: Medium>()
    ensures lines { SessionsStandAlone M.step M.tells }
    ensures end { EndsStandAlone M.step M.tells (ReadsBy R.step R.remaining) (SendsBy W.step W.flushes W.contents) }
{}

/// A session over streams, which reads each line by one call and sends each answer by its writes and one flush, is one
/// of their known bytes: with the same lines, answers and end.
pub fn session_is_of_bytes<R: LineSource, W: FlushedSink>()
    ensures end { EndsInBytes R.step R.remaining W.step W.flushes W.contents }
    ensures failure { FailuresInBytes R.step R.remaining W.step W.flushes W.contents }
{}

/// Over a medium that reveals its content, without faults, a session is determined: its lines have one list of answers,
/// and it has one end; and for known input, read to its end, it writes one list of bytes.
pub fn session_is_determined()
    ensures lines { SessionIsUnique }
    ensures end { EndIsUnique }
{}

/// There is a session: before `start` each list of lines is answered, and `start` is; after it each list of lines
/// without a query of blocks is, for each run of their events. And lines that are answered are a session over known
/// bytes.
pub fn lines_are_answered()
    ensures before { LinesBeforeStartAreAnswered }
    ensures start { StartIsAnswered }
    ensures behind { LinesOfARunAreAnswered }
    ensures session { AnsweredLinesAreASession }
{}

/// The configuration of a session has the numbers of the lines that made it, counted over all of its lines; if it can't
/// start with that, the answer to `start` names one of these lines, and the rule that it breaks. It can start exactly
/// if the configuration has no fault.
pub fn refusals_name_a_line()
    ensures numbered { SetUpIsNumbered }
    ensures reason { RefusalNamesALine }
    ensures accepted { RunsWhereAccepted }
{}

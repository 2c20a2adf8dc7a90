//! Laws over any run of calls. Each is the contract of an empty function.

ghost use Rattle.nvme_responses.specs.Laws.{
  EachOnce,
  OwnResponses,
  WaitingAreAnswered,
  RoomIsGiven,
  NoneBeyond,
  AtMost64,
  ConflictsAreFound,
  HeadIsCounted,
  RefusedKeeps,
  NoAnswerKeeps,
  NothingDroppedKeeps,
  EndIsFinal,
  StopIsFinal,
  EntriesAreReadBack,
  StatusesAreReadBack,
  FewMayRetry,
};

/// No response is lost, doubled, or that of another command.
fn each_once()
    ensures { EachOnce }
{}

/// A response is that of a command which waits, and each command that waits can be answered.
fn own_responses()
    ensures own { OwnResponses }
    ensures all { WaitingAreAnswered }
{}

/// Commands are accepted exactly while the queue has room, and identifiers in use are found.
fn queue_size()
    ensures room { RoomIsGiven }
    ensures beyond { NoneBeyond }
    ensures limit { AtMost64 }
    ensures conflicts { ConflictsAreFound }
{}

/// SQHD counts the commands since Connect.
fn head_is_counted()
    ensures { HeadIsCounted }
{}

/// What is refused changes nothing, and nothing happens after the end.
fn refused_keeps()
    ensures commands { RefusedKeeps }
    ensures answers { NoAnswerKeeps }
    ensures drops { NothingDroppedKeeps }
    ensures end { EndIsFinal }
    ensures stop { StopIsFinal }
{}

/// The fields of a response are where the standard has them.
fn entries()
    ensures bytes { EntriesAreReadBack }
    ensures statuses { StatusesAreReadBack }
    ensures few { FewMayRetry }
{}

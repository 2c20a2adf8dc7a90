//! Laws over any run of calls. Each is the contract of an empty function.

ghost use Rattle.nvme_capsules.specs.Laws.{
  AdminQueueIsOwn,
  EachCanBeAnswered,
  EndIsFinal,
  IoQueueIsOwn,
  NoRoomKeeps,
  OneOutcome,
  OnlyAdmittedAreReady,
  OnlyAdmittedWait,
  OwnData,
};

/// No command is lost, ready twice, or both ready and refused; and each can be answered.
pub fn one_outcome()
    ensures each { OneOutcome }
    ensures answers { EachCanBeAnswered }
{}

/// A command that is ready has exactly its own data.
pub fn own_data()
    ensures { OwnData }
{}

/// Only commands that a connection may send are ready, or wait for their data.
pub fn only_admitted()
    ensures ready { OnlyAdmittedAreReady }
    ensures waits { OnlyAdmittedWait }
{}

/// What the queue has no room for changes nothing, and nothing happens after the end.
pub fn refused_keeps()
    ensures room { NoRoomKeeps }
    ensures end { EndIsFinal }
{}

/// A command is for the queue that its connection is, and for no other.
pub fn own_queue()
    ensures admin { AdminQueueIsOwn }
    ensures io { IoQueueIsOwn }
{}

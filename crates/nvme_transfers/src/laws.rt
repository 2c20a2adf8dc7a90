//! Laws over any run of calls. Each is the contract of an empty function.

ghost use Rattle.nvme_transfers.specs.Laws.{
  OwnData,
  RoomHasData,
  PartsOnce,
  CommandsOnce,
  InOrder,
  OneOfEach,
  RefusedKeeps,
  BreachIsRange,
  BreachKeeps,
  EndIsFinal,
  RightPartsComplete,
};

/// A command completes with exactly its own data, whole and in place, and with what their digests came to.
fn own_data()
    ensures parts { OwnData }
    ensures bytes { RoomHasData }
{}

/// No part counts twice, and no command completes twice or without having begun.
fn each_once()
    ensures parts { PartsOnce }
    ensures commands { CommandsOnce }
{}

/// R2Ts are sent in the order of the commands, and no two commands in flight have the same identifier.
fn in_order()
    ensures requests { InOrder }
    ensures identifiers { OneOfEach }
{}

/// What is refused changes nothing, and nothing happens after the end.
fn refused_keeps()
    ensures commands { RefusedKeeps }
    ensures breaches { BreachIsRange }
    ensures parts { BreachKeeps }
    ensures end { EndIsFinal }
{}

/// A command completes if its host sends its data rightly.
fn right_parts_complete()
    ensures { RightPartsComplete }
{}

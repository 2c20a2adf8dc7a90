//! Laws of the definitions. Each is the contract of an empty function.

ghost use Rattle.nvme_data_buffers.specs.Areas.{
  AreasLieInWindow,
  AreasAreApart,
  DataLieInTheirBuffer,
  StoresKeepOtherAreas,
  StoredListIsThere,
  StoresKeepTheList,
};
ghost use Rattle.nvme_data_buffers.specs.Laws.{
  EntriesReachTheData,
  NothingBeyond,
  OtherBytesStay,
  MovesAsMany,
  CommandsMoveTheirData,
  OtherCommandsAreRefused,
  NothingOldIsReturned,
  FilledAreReads,
};
ghost use Rattle.nvme_data_buffers.specs.Stores.{OwnDataStay, ReturnedDataStay};
ghost use Rattle.nvme_data_buffers.specs.Executions.{ExecutionsMoveOwnData, AdminExecutionsMoveOwnData};

/// PRP entries of no more bytes than the data have lead to the data, in order; others have a fault.
fn pointers()
    ensures reach { EntriesReachTheData }
    ensures beyond { NothingBeyond }
{}

/// An entry has only another data pointer than the host has sent, and moves as many bytes.
fn entries()
    ensures others { OtherBytesStay }
    ensures moved { MovesAsMany }
{}

/// A command moves its own data and nothing else, or is refused before any byte moves.
pub fn commands()
    ensures own { CommandsMoveTheirData }
    ensures refused { OtherCommandsAreRefused }
{}

/// Data from the controller have no byte of an earlier command.
fn returned()
    ensures cleared { NothingOldIsReturned }
    ensures filled { FilledAreReads }
{}

/// Queues, the PRP list and data buffers are in the window, and no two have a common byte.
fn areas()
    ensures inside { AreasLieInWindow }
    ensures apart { AreasAreApart }
    ensures data { DataLieInTheirBuffer }
{}

/// What a store leaves of other areas, and of the list.
fn stores()
    ensures others { StoresKeepOtherAreas }
    ensures there { StoredListIsThere }
    ensures list { StoresKeepTheList }
{}

/// Data are there until the command takes them, and until what it returned is read.
pub fn data_stay()
    ensures own { OwnDataStay }
    ensures returned { ReturnedDataStay }
{}

/// A command that was placed with its data is executed with these, and stores what it returns in its own buffer.
pub fn executions()
    ensures io { ExecutionsMoveOwnData }
    ensures admin { AdminExecutionsMoveOwnData }
{}

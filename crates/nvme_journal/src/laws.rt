//! Laws of the definitions. Each is the contract of an empty function.

ghost use Rattle.nvme_journal.specs.Laws.{
  IoCommandsAreKept,
  AdminCommandsAreKept,
  IoRecordsSucceedAgain,
  AdminRecordsSucceedAgain,
  KeptDataAreEnough,
  KeptListsAreEnough,
  MatchingRecordsCarryAlike,
  TwoBytesAreEnough,
};

/// What is kept of a command is all that it changes of the access state.
pub fn commands_are_kept()
    ensures io { IoCommandsAreKept }
    ensures admin { AdminCommandsAreKept }
{}

/// A command that was kept succeeds again, with the same effect on the access state.
pub fn records_succeed_again()
    ensures io { IoRecordsSucceedAgain }
    ensures admin { AdminRecordsSucceedAgain }
{}

/// Records of the same commands with the same data have the same effect.
pub fn matching_records_carry_alike()
    ensures { MatchingRecordsCarryAlike }
{}

/// What a journal keeps of data is all that commands read of them.
pub fn kept_data_are_enough()
    ensures io { KeptDataAreEnough }
    ensures lists { KeptListsAreEnough }
    ensures head { TwoBytesAreEnough }
{}

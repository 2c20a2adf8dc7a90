//! Laws of lists of media calls. Each law is the contract of an empty function.

ghost use Rattle.nvme_lent.specs.CallLaws.{
  LentBytesStay,
  MemoryStays,
  BytesFollow,
  ReadsLeave,
  CallsNeedBlocks,
};

/// After any calls, the borrowed bytes have the same address and length, and the blocks in memory have what the writes
/// left. Reads change nothing there.
#[tactic(auto, using(crate::proofs::CallLaws::lent_bytes_stay, crate::proofs::CallLaws::memory_stays, crate::proofs::CallLaws::bytes_follow, crate::proofs::CallLaws::reads_leave))]
pub fn lent_bytes_follow_calls()
    ensures stay { LentBytesStay }
    ensures memory { MemoryStays }
    ensures follow { BytesFollow }
    ensures reads { ReadsLeave }
{}

/// Over a medium of brought blocks without one at hand, each call fails, and nothing else happens.
#[tactic(auto, using(crate::proofs::CallLaws::calls_need_blocks))]
pub fn calls_need_brought_blocks()
    ensures { CallsNeedBlocks }
{}

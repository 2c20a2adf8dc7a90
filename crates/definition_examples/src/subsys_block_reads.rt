//! Reads of a namespace's blocks from the medium of a subsystem.

ghost use Rattle.definition_examples.specs.SubsysReads.{
  BlockReadsAreDetermined,
  BlockReadsHaveCalls,
  BlockReadsHaveResults,
};

/// If the namespace lacks the block, nothing is read, and nothing changes. Else the read has a result.
#[tactic(auto, using(crate::proofs::SubsysReads::block_reads_have_results, crate::proofs::SubsysReads::block_reads_have_calls))]
fn subsys_reads_of_a_block()
    ensures outcomes { BlockReadsHaveResults }
    ensures made_calls { BlockReadsHaveCalls }
{}

/// Two successful reads of the same blocks give the same bytes, and leave the same subsystem.
#[tactic(auto, using(crate::proofs::SubsysReads::block_reads_are_determined))]
fn subsys_reads_are_determined()
    ensures { BlockReadsAreDetermined }
{}

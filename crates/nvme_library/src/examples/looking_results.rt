//! The codes of loads, of reads of blocks and of query lines, and what they leave.

ghost use Rattle.nvme_library.specs.LookingResults.{LinesHaveCodes, LoadsHaveCodes, LooksHaveCodes};

/// A load of a byte of a host's memory: the buffer has the byte, with code 0. It is unchanged without a subsystem (16),
/// without such a controller (17), and after the last address (18).
#[tactic(auto, using(crate::proofs::LookingResults::loads_have_codes))]
pub fn loads_have_their_codes()
    ensures { LoadsHaveCodes }
{}

/// A read of one block reads nothing if the buffer is not a whole number of blocks (19), without a subsystem (16), or
/// if there is no such namespace (18): buffer and subsystem are unchanged.
#[tactic(auto, using(crate::proofs::LookingResults::looks_have_codes))]
pub fn block_reads_have_their_codes()
    ensures { LooksHaveCodes }
{}

/// A query line is answered by its text and a line feed, or memory is refused (27). A line that is no query (34), and
/// any line without a subsystem (16), is not answered, and changes nothing.
#[tactic(auto, using(crate::proofs::LookingResults::lines_have_codes))]
pub fn query_lines_have_their_codes()
    ensures { LinesHaveCodes }
{}

//! Texts that are put into a buffer or read from one, and notices: their codes, and what they leave.

ghost use Rattle.nvme_library.specs.ReadingResults.{NoticesHaveCodes, ReadingsHaveCodes, WritesHaveCodes};

/// With code 0 a buffer has the text at its front, with its length, and else all its bytes as they were. A missing line
/// is answered 34.
#[tactic(auto, using(crate::proofs::ReadingResults::writes_have_codes))]
pub fn texts_are_put_with_codes()
    ensures { WritesHaveCodes }
{}

/// A configuration that is read has one result. A refusal leaves the arrays unchanged: its code, line and column are
/// those of the reason, and the text of that is whole at the front of its buffer, or not there.
#[tactic(auto, using(crate::proofs::ReadingResults::readings_have_codes))]
pub fn configurations_are_read_with_codes()
    ensures { ReadingsHaveCodes }
{}

/// No notice is kept without a subsystem (16), nor for an action that does not exist (18).
#[tactic(auto, using(crate::proofs::ReadingResults::notices_have_codes))]
pub fn notices_are_kept_with_codes()
    ensures { NoticesHaveCodes }
{}

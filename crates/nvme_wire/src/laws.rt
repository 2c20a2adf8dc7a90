//! Laws that follow from the definitions. Each is the contract of an empty function.

ghost use Rattle.nvme_wire.specs.EntryLaws.{SubmissionIsReadBack, SubmissionIsPlain, CompletionIsReadBack};

/// An entry made of fields has these fields.
fn entries_are_read_back()
    ensures submission { SubmissionIsReadBack }
    ensures plain { SubmissionIsPlain }
    ensures completion { CompletionIsReadBack }
{}

//! What the laws of queue entries imply.

ghost use Rattle.std.specs.Prelude.{◌≡◌};
ghost use Rattle.nvme_wire.specs.declared.sqe.fields.SqeFields.{SqeFields};
ghost use Rattle.nvme_wire.specs.EntryLaws.{SubmissionIsPlain};
ghost use Rattle.nvme_wire.specs.Submission.{FitsSqeFields, fuse, psdt, submission_entry};

/// A command made of fields is not fused, and its data pointer is PRP entries.
fn wire_plain_command_example()
    ensures not_fused { SubmissionIsPlain → (f : SqeFields) → FitsSqeFields f → fuse (submission_entry f) ≡ 0 }
    ensures prp { SubmissionIsPlain → (f : SqeFields) → FitsSqeFields f → psdt (submission_entry f) ≡ 0 }
{}

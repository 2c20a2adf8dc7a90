//! Worked examples of the failures that can end a program, and of the check of an image, with counterexamples.

ghost use Rattle.std.specs.Prelude.{None, Some, Ok, Err, codes};
ghost use Rattle.nvme_program.specs.Failures.{IsOfFile, IsOfRun};
ghost use Rattle.nvme_program.specs.Programs.{IsJudgement};
ghost use Rattle.nvme_program.specs.declared.failure.Failure.TheVariants.{File, Memory};
ghost use Rattle.nvme_program.specs.declared.system.Cause.TheVariants.{IsScript, Unread};
ghost use Rattle.definition_examples.specs.TextPrograms.{failed_file, failed_memory, failed_script, failed_words};

/// An opening fails by the file or without memory, and a run by its script or without memory.
fn ends_example()
    ensures file { IsOfFile failed_file }
    ensures memory { IsOfFile failed_memory }
    ensures words { IsOfFile failed_words → ⊥ }
    ensures script { IsOfFile failed_script → ⊥ }
    ensures run { IsOfRun None }
    ensures script_of_run { IsOfRun (Some failed_script) }
    ensures memory_of_run { IsOfRun (Some failed_memory) }
    ensures file_of_run { IsOfRun (Some failed_file) → ⊥ }
    ensures words_of_run { IsOfRun (Some failed_words) → ⊥ }
{}

/// A file that begins like a script is no image, and is refused for that cause; one that can't be read is refused by
/// the failure of its reading.
#[tactic(auto, unfolding(nvme_grammar::proofs::OnLiterals::beginnings_on_literals))]
fn judgements_example()
    ensures image { IsJudgement (Ok (codes "image 1")) (Ok tt) }
    ensures script { IsJudgement (Ok (codes "up 1")) (Err (record { failure = File; cause = IsScript })) }
    ensures accepted_script { IsJudgement (Ok (codes "up 1")) (Ok tt) → ⊥ }
    ensures refused_image { IsJudgement (Ok (codes "image 1")) (Err (record { failure = File; cause = IsScript }))
        → ⊥ }
    ensures other_failure { IsJudgement (Ok (codes "up 1")) (Err (record { failure = Memory; cause = IsScript }))
        → ⊥ }
    ensures other_cause { IsJudgement (Ok (codes "up 1")) (Err (record { failure = File; cause = Unread })) → ⊥ }
    ensures unread { IsJudgement (Err Memory) (Err (record { failure = Memory; cause = Unread })) }
    ensures misreported { IsJudgement (Err Memory) (Err (record { failure = File; cause = Unread })) → ⊥ }
    ensures ignored { IsJudgement (Err Memory) (Ok tt) → ⊥ }
{}

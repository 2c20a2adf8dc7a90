//! Computed examples of programs: the words of a command line, and the texts of failures.

ghost use Rattle.std.specs.Prelude.{◌≡◌, ◌++◌, ◌∷◌, [], true, false, None, Some, codes};
ghost use Rattle.nvme_spec.specs.declared.config.ConfigFault.TheVariants as config;
ghost use Rattle.nvme_grammar.specs.declared.line.Line.TheVariants.{Start};
ghost use Rattle.nvme_ns.specs.declared.refusal.BrokenRule.TheVariants as broken;
ghost use Rattle.nvme_ns.specs.declared.refusal.SetupLine.TheVariants as setup;
ghost use Rattle.nvme_program.specs.CommandLines.{AreNamed, image_in, script_in};
ghost use Rattle.nvme_program.specs.FailureTexts.{
  config_fault_text,
  config_reason_text,
  failure_text,
  script_fault_text,
};
ghost use Rattle.nvme_program.specs.FaultKinds.{of_opening};
ghost use Rattle.nvme_program.specs.RuleTexts.{rule_text};
ghost use Rattle.nvme_program.specs.SetupLines.{is_of_kind};
ghost use Rattle.nvme_program.specs.declared.fault.ScriptFault.TheVariants as fault;
ghost use Rattle.definition_examples.specs.TextPrograms.{
  failed_file,
  failed_memory,
  failed_script,
  failed_words,
  fault_config,
  fault_no_memory,
  fault_read,
  fault_syntax,
  fault_too_long,
  fault_write,
  image_alone,
  image_and_script,
  script_alone,
  simulator_words,
};

/// The words after the program's name are an image and a script. `-` means that there is no image.
fn simulator_words_example()
    ensures image { image_in simulator_words ≡ Some (codes "disk.img") }
    ensures script { script_in simulator_words ≡ Some (codes "boot.script") }
    ensures no_image { image_in (codes "nvmesim" ∷ codes "-" ∷ codes "boot.script" ∷ []) ≡ None }
    ensures no_words { image_in (codes "nvmesim" ∷ []) ≡ None }
    ensures no_script { script_in (codes "nvmesim" ∷ codes "disk.img" ∷ []) ≡ None }
    ensures both { AreNamed image_and_script simulator_words }
    ensures lost_script { AreNamed image_alone simulator_words → ⊥ }
    ensures lost_image { AreNamed script_alone simulator_words → ⊥ }
{}

/// The texts of failures.
#[tactic(auto, unfolding(crate::proofs::TextLiterals::texts_on_literals))]
fn failure_words_example()
    ensures syntax { script_fault_text fault_syntax ≡ codes "line 12: not understood" }
    ensures config { script_fault_text fault_config ≡ codes "line 4: DoesNotFit" }
    ensures too_long { script_fault_text fault_too_long ≡ codes "script too long" }
    ensures memory { script_fault_text fault_no_memory ≡ codes "out of memory" }
    ensures read { script_fault_text fault_read ≡ codes "file fault" }
    ensures write { script_fault_text fault_write ≡ codes "file fault" }
    ensures of_the_script { failure_text failed_script ≡ codes "script too long" }
    ensures of_a_file { failure_text failed_file ≡ codes "file fault" }
    ensures of_words { failure_text failed_words ≡ codes "bad command line" }
    ensures of_memory { failure_text failed_memory ≡ codes "out of memory" }
{}

/// The faults of configurations, and the kinds of setup lines. A configuration is refused at its line `start`.
fn configuration_faults_example()
    ensures identifier { config_fault_text config.BadId ≡ codes "BadId" }
    ensures size { config_fault_text config.BadSize ≡ codes "BadSize" }
    ensures count { config_fault_text config.TooMany ≡ codes "TooMany" }
    ensures room { config_fault_text config.DoesNotFit ≡ codes "DoesNotFit" }
    ensures memory { config_fault_text config.NoMemory ≡ codes "NoMemory" }
    ensures at_start { of_opening (Some 4) config.BadId ≡ fault.Config 4 config.BadId }
    ensures without_start { of_opening None config.BadId ≡ fault.Config 0 config.BadId }
    ensures without_memory { of_opening (Some 4) config.NoMemory ≡ fault.NoMemory }
    ensures outside { is_of_kind (setup.Controller 0) None ≡ false }
    ensures other_kind { is_of_kind (setup.Attached 0) (Some Start) ≡ false }
{}

/// The limits of a configuration, and the numbers of its controllers.
#[tactic(auto, unfolding(crate::proofs::TextLiterals::texts_on_literals, nvme_program::specs::RuleTexts::rule_text))]
fn configuration_limits_example()
    ensures controllers { rule_text broken.TooManyControllers
        ≡ codes "this is controller 17; at most 16 are allowed" }
    ensures namespaces { rule_text broken.TooManyNamespaces
        ≡ codes "this is the ninth namespace; at most 8 are allowed" }
    ensures attachments { rule_text broken.TooManyAttachments
        ≡ codes "this is attachment 129; at most 128 are allowed" }
    ensures numbered { rule_text (broken.Misnumbered 2 3)
        ≡ codes "this must be controller 2, not 3: controllers are numbered from 1" }
    ensures host { rule_text (broken.NoHost 2) ≡ codes "controller 2 has host 0, which is no host identifier" }
    ensures nsid { rule_text (broken.ForeignNsid 9) ≡ codes "namespace 9 is out of range: identifiers are 1 to 8" }
    ensures nsid_twice { rule_text (broken.RepeatedNsid 3) ≡ codes "namespace 3 is defined twice" }
    ensures no_blocks { rule_text (broken.NoBlocks 3) ≡ codes "namespace 3 has no blocks" }
    ensures large { rule_text (broken.TooLarge 3 70000 65536)
        ≡ codes "namespace 3 has 70000 blocks; at most 65536 are allowed" }
{}

/// The attachments of a configuration, and its place on the medium.
#[tactic(auto, unfolding(crate::proofs::TextLiterals::texts_on_literals, nvme_program::specs::RuleTexts::rule_text))]
fn configured_attachments_example()
    ensures controller { rule_text (broken.UnknownController 2) ≡ codes "controller 2 is not configured" }
    ensures namespace { rule_text (broken.UnknownNamespace 3) ≡ codes "namespace 3 is not configured" }
    ensures twice { rule_text (broken.RepeatedAttachment 2 3)
        ≡ codes "controller 2 is attached to namespace 3 twice" }
    ensures private { rule_text (broken.NotShared 2 3)
        ≡ codes "namespace 3 is private, but controller 2 is the second that is attached to it" }
    ensures room { rule_text (broken.DoesNotFit 3 1024)
        ≡ codes "namespace 3 ends after the 1024 blocks of the medium, on which namespaces follow one another" }
    ensures reason { config_reason_text 5 (broken.NoBlocks 3) true ≡ codes "5:1: namespace 3 has no blocks" }
    ensures reason_with_help { config_reason_text 5 (broken.DoesNotFit 3 1024) true
        ≡ codes "5:1: namespace 3 ends after the 1024 blocks of the medium, on which namespaces follow one another"
        ++ codes "; for an image of 65536 blocks: truncate -s 32M disk.img, then nvmesim disk.img SCRIPT" }
{}

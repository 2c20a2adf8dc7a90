//! What the end of `nvmesim` or `nvmelive` says of its script, its medium and its streams.
#![tactic(auto, unfolding(nvme_script::specs::ProgramRuns::RunsText, nvme_script::specs::ProgramRuns::ScriptProgramEnds, nvme_script::specs::ProgramRuns::ScriptProgramExits, nvme_live::specs::ProgramLives::SessionProgramEnds, nvme_live::specs::ProgramLives::SessionProgramExits))]

ghost use Rattle.std.specs.Prelude.{
  ◌≡◌,
  Result,
  ℕ,
  Bool,
  List,
  Option,
  None,
  Some,
  true,
  MatchResult,
  Ok,
  Err,
};
ghost use Rattle.nvme_program.specs.FaultKinds.{of_reading};
ghost use Rattle.nvme_program.specs.CommandLines.{after_any_size, max_blocks_in};
ghost use Rattle.nvme_program.specs.Programs.{GuardedEnds, ProgramEnds};
ghost use Rattle.nvme_program.specs.Streams.{Streams};
ghost use Rattle.nvme_program.specs.Statuses.{end_status};
ghost use Rattle.nvme_program.specs.declared.failure.Failure.{Failure};
ghost use Rattle.nvme_program.specs.declared.failure.Failure.TheVariants as failed;
ghost use Rattle.nvme_program.specs.declared.fault.ScriptFault.{ScriptFault};
ghost use Rattle.nvme_program.specs.declared.fault.ScriptFault.TheVariants as fault;
ghost use Rattle.nvme_live.specs.Lives.{Fails, FailsBehindReading, LivesOn, surroundings};
ghost use Rattle.nvme_live.specs.ProgramLives.{
  LivesOver,
  lives_behind_scripts,
  SessionProgramEnds,
  SessionProgramExits,
};
ghost use Rattle.nvme_live.specs.Streams.{TakesKnown};
ghost use Rattle.nvme_script.specs.Faults.{IsScript};
ghost use Rattle.nvme_script.specs.OutputLaws.{Gets};
ghost use Rattle.nvme_script.specs.ProgramRuns.{
  FailsOver,
  FailsThrough,
  RunsBuffered,
  RunsOver,
  RunsText,
  ScriptProgramEnds,
  ScriptProgramExits,
  runs_scripts,
};
ghost use Rattle.nvme_spec.specs.Configuration.{capacity};
ghost use Rattle.script_text.specs.Reading.{IsRead};
ghost use Rattle.script_text.specs.Streams.{Calls, OutputCall, ReadCall, StepsOutput};
ghost use Rattle.nvme_medium.specs.Examples.{logs};
ghost use Rattle.nvme_program.specs.SystemCalls.{SystemCall};
ghost use Rattle.nvme_spec.specs.MediumCalls.{MediumCall};
ghost use Rattle.nvme_live.specs.StreamExamples.{Flushing, Writing};
ghost use Rattle.definition_examples.specs.SessionStreams.{
  Asking,
  cached_record,
  recorded_input,
  recorded_medium,
  recorded_output,
};
ghost use Rattle.script_text.specs.Writing.{SendsBytes};
ghost use Rattle.script_text.specs.declared.reading.ReadFault.{ReadFault};

/// A text that ran was a script, and its transcript was written through the buffer.
fn script_text_runs()
    ensures script { (most : ℕ) (text : List ℕ) (old new : List MediumCall) (before after : List OutputCall)
        → RunsText recorded_medium recorded_output Flushing most (Ok new) text old before after
        → IsScript text (capacity most (recorded_medium.size old)) }
    ensures transcript { (most : ℕ) (text : List ℕ) (old new : List MediumCall) (before after : List OutputCall)
        → RunsText recorded_medium recorded_output Flushing most (Ok new) text old before after
        → RunsBuffered recorded_medium recorded_output Flushing text old new before after }
    ensures ran { (most : ℕ) (text : List ℕ) (old new : List MediumCall) (before after : List OutputCall)
        → IsScript text (capacity most (recorded_medium.size old))
        → RunsBuffered recorded_medium recorded_output Flushing text old new before after
        → RunsText recorded_medium recorded_output Flushing most (Ok new) text old before after }
{}

/// A run ends by a fault of its script, or because memory for the buffer was refused: then nothing was called.
fn script_failures()
    ensures too_long { (most : ℕ) (text : List ℕ) (old new : List MediumCall) (before after : List OutputCall)
        → FailsThrough recorded_medium recorded_output Flushing most (failed.Script fault.TooLong) text old new before
        after → ⊥ }
    ensures fault { (most : ℕ) (why : ScriptFault) (text : List ℕ) (old new : List MediumCall)
        (before after : List OutputCall)
        → FailsOver recorded_medium recorded_output Flushing most why text old new before after
        → FailsThrough recorded_medium recorded_output Flushing most (failed.Script why) text old new before after }
    ensures memory { (most : ℕ) (text : List ℕ) (old : List MediumCall) (before : List OutputCall)
        → FailsThrough recorded_medium recorded_output Flushing most failed.Memory text old old before before }
    ensures same_medium { (most : ℕ) (text : List ℕ) (old new : List MediumCall) (before after : List OutputCall)
        → FailsThrough recorded_medium recorded_output Flushing most failed.Memory text old new before after
        → new ≡ old }
    ensures same_output { (most : ℕ) (text : List ℕ) (old new : List MediumCall) (before after : List OutputCall)
        → FailsThrough recorded_medium recorded_output Flushing most failed.Memory text old new before after
        → after ≡ before }
    ensures file { (most : ℕ) (text : List ℕ) (old new : List MediumCall) (before after : List OutputCall)
        → FailsThrough recorded_medium recorded_output Flushing most failed.File text old new before after → ⊥ }
    ensures command_line { (most : ℕ) (text : List ℕ) (old new : List MediumCall) (before after : List OutputCall)
        → FailsThrough recorded_medium recorded_output Flushing most failed.CommandLine text old new before after → ⊥ }
{}

/// A program whose run succeeded read its script, whose text is the `text` of the run.
fn script_reads_of_runs()
    ensures read { (most : ℕ) (script rest : List ReadCall) (old new : List MediumCall) (before after : List OutputCall)
        (h : RunsOver recorded_input recorded_medium recorded_output Flushing most script rest old new before None
        after)
        → IsRead recorded_input.step recorded_input.remaining script (Ok h.0) rest }
    ensures script { (most : ℕ) (script rest : List ReadCall) (old new : List MediumCall)
        (before after : List OutputCall)
        (h : RunsOver recorded_input recorded_medium recorded_output Flushing most script rest old new before None
        after)
        → IsScript h.0 (capacity most (recorded_medium.size old)) }
    ensures transcript { (most : ℕ) (script rest : List ReadCall) (old new : List MediumCall)
        (before after : List OutputCall)
        (h : RunsOver recorded_input recorded_medium recorded_output Flushing most script rest old new before None
        after)
        → RunsBuffered recorded_medium recorded_output Flushing h.0 old new before after }
    ensures ran { (most : ℕ) (text : List ℕ) (script rest : List ReadCall) (old new : List MediumCall)
        (before after : List OutputCall)
        → IsRead recorded_input.step recorded_input.remaining script (Ok text) rest
        → IsScript text (capacity most (recorded_medium.size old))
        → RunsBuffered recorded_medium recorded_output Flushing text old new before after
        → RunsOver recorded_input recorded_medium recorded_output Flushing most script rest old new before None after }
{}

/// A program that failed read its script, or could not; in that case neither the medium nor the output was called.
fn script_reads_of_failures()
    ensures read { (most : ℕ) (failure : Failure) (script rest : List ReadCall) (old new : List MediumCall)
        (before after : List OutputCall)
        (h : RunsOver recorded_input recorded_medium recorded_output Flushing most script rest old new before
        (Some failure) after)
        → IsRead recorded_input.step recorded_input.remaining script h.0 rest }
    ensures unread { (most : ℕ) (failure : Failure) (script rest : List ReadCall) (old new : List MediumCall)
        (before after : List OutputCall)
        (h : RunsOver recorded_input recorded_medium recorded_output Flushing most script rest old new before
        (Some failure) after)
        → MatchResult h.0 (λ text. Unit {0})
        (λ reading. (failure ≡ failed.Script (of_reading reading)) × (new ≡ old) × (after ≡ before)) }
    ensures fault { (most : ℕ) (why : ReadFault) (script rest : List ReadCall) (old : List MediumCall)
        (before : List OutputCall)
        → IsRead recorded_input.step recorded_input.remaining script (Err why) rest
        → RunsOver recorded_input recorded_medium recorded_output Flushing most script rest old old before
        (Some (failed.Script (of_reading why))) before }
{}

/// The calls of an output: they send the bytes, and they are all its calls.
fn script_output_calls()
    ensures sent { (bytes : List ℕ) (done : Bool) (before after : List OutputCall)
        (h : Gets recorded_output Flushing bytes done before after)
        → SendsBytes bytes h.0 done }
    ensures made { (bytes : List ℕ) (done : Bool) (before after : List OutputCall)
        (h : Gets recorded_output Flushing bytes done before after)
        → Calls (StepsOutput Writing Flushing) before h.0 after }
{}

/// A session of `nvmelive` that came to the end of its input read its script; lines that it did not take are left.
fn script_sessions()
    ensures read { (most : ℕ) (script rest : List ReadCall) (old new : List MediumCall) (input : List ReadCall)
        (before after : List OutputCall)
        (h : LivesOver recorded_input recorded_medium recorded_input.remaining recorded_output Flushing most script
        rest old new input before None after)
        → IsRead recorded_input.step recorded_input.remaining script (Ok h.0) rest }
    ensures lived { (most : ℕ) (script rest : List ReadCall) (old new : List MediumCall) (input : List ReadCall)
        (before after : List OutputCall)
        (h : LivesOver recorded_input recorded_medium recorded_input.remaining recorded_output Flushing most script
        rest old new input before None after)
        → LivesOn logs true recorded_medium.device TakesKnown Writing Flushing recorded_output.contents
        (capacity most (recorded_medium.size old)) h.0
        (surroundings (recorded_input.remaining input) before old) (surroundings h.1 after new) }
    ensures session { (most : ℕ) (text : List ℕ) (left : Option (List ℕ)) (script rest : List ReadCall)
        (old new : List MediumCall) (input : List ReadCall)
        (before after : List OutputCall) → IsRead recorded_input.step recorded_input.remaining script (Ok text) rest
        → LivesOn logs true recorded_medium.device TakesKnown Writing Flushing recorded_output.contents
        (capacity most (recorded_medium.size old)) text
        (surroundings (recorded_input.remaining input) before old) (surroundings left after new)
        → LivesOver recorded_input recorded_medium recorded_input.remaining recorded_output Flushing most script rest
        old new input before None after }
{}

/// A session that failed has a fault of its script, or of a line.
fn script_session_faults()
    ensures fault { (most : ℕ) (why : ScriptFault) (script rest : List ReadCall) (old new : List MediumCall)
        (input : List ReadCall) (before after : List OutputCall)
        (h : LivesOver recorded_input recorded_medium recorded_input.remaining recorded_output Flushing most script
        rest old new input before
        (Some (failed.Script why)) after)
        → FailsBehindReading recorded_input.step recorded_input.remaining script rest why
        (surroundings (recorded_input.remaining input) before old)
        (surroundings h.0 after new) (λ text.
        Fails logs true recorded_medium.device TakesKnown Writing Flushing recorded_output.contents
        (capacity most (recorded_medium.size old)) text why
        (surroundings (recorded_input.remaining input) before old) (surroundings h.0 after new)) }
    ensures failed { (most : ℕ) (why : ScriptFault) (left : Option (List ℕ)) (script rest : List ReadCall)
        (old new : List MediumCall) (input : List ReadCall)
        (before after : List OutputCall)
        → FailsBehindReading recorded_input.step recorded_input.remaining script rest why
        (surroundings (recorded_input.remaining input) before old)
        (surroundings left after new) (λ text.
        Fails logs true recorded_medium.device TakesKnown Writing Flushing recorded_output.contents
        (capacity most (recorded_medium.size old)) text why
        (surroundings (recorded_input.remaining input) before old) (surroundings left after new))
        → LivesOver recorded_input recorded_medium recorded_input.remaining recorded_output Flushing most script rest
        old new input before
        (Some (failed.Script why)) after }
{}

/// If memory to read ahead was refused, nothing was called. A session ends neither by a file nor by a word.
fn script_sessions_without_memory()
    ensures memory { (most : ℕ) (script : List ReadCall) (old : List MediumCall) (input : List ReadCall)
        (before : List OutputCall)
        → LivesOver recorded_input recorded_medium recorded_input.remaining recorded_output Flushing most script
        script old old input before
        (Some failed.Memory) before }
    ensures same_script { (most : ℕ) (script rest : List ReadCall) (old new : List MediumCall) (input : List ReadCall)
        (before after : List OutputCall)
        → LivesOver recorded_input recorded_medium recorded_input.remaining recorded_output Flushing most script rest
        old new input before
        (Some failed.Memory) after → rest ≡ script }
    ensures same_medium { (most : ℕ) (script rest : List ReadCall) (old new : List MediumCall) (input : List ReadCall)
        (before after : List OutputCall)
        → LivesOver recorded_input recorded_medium recorded_input.remaining recorded_output Flushing most script rest
        old new input before
        (Some failed.Memory) after → new ≡ old }
    ensures same_output { (most : ℕ) (script rest : List ReadCall) (old new : List MediumCall) (input : List ReadCall)
        (before after : List OutputCall)
        → LivesOver recorded_input recorded_medium recorded_input.remaining recorded_output Flushing most script rest
        old new input before
        (Some failed.Memory) after → after ≡ before }
    ensures file { (most : ℕ) (script rest : List ReadCall) (old new : List MediumCall) (input : List ReadCall)
        (before after : List OutputCall)
        → LivesOver recorded_input recorded_medium recorded_input.remaining recorded_output Flushing most script rest
        old new input before
        (Some failed.File) after → ⊥ }
    ensures command_line { (most : ℕ) (script rest : List ReadCall) (old new : List MediumCall) (input : List ReadCall)
        (before after : List OutputCall)
        → LivesOver recorded_input recorded_medium recorded_input.remaining recorded_output Flushing most script rest
        old new input before
        (Some failed.CommandLine) after → ⊥ }
{}

/// `nvmesim` runs over its own input and output, and its words have the most blocks of a namespace.
fn script_program_streams()
    ensures streams { (words : List (List ℕ)) (old new : List (SystemCall (List MediumCall) (List ReadCall)))
        (input left : List ReadCall) (output written : List OutputCall) (end : Option Failure)
        → ScriptProgramEnds Asking recorded_medium cached_record recorded_input recorded_input recorded_output
        Flushing words old input output end new left written
        → (before : Streams (List ReadCall) (List OutputCall)) × (after : Streams (List ReadCall) (List OutputCall))
        × (before.input ≡ input) × (before.output ≡ output)
        × (before.max_blocks ≡ max_blocks_in words) × (after.input ≡ left) × (after.output ≡ written)
        × ProgramEnds Asking recorded_medium cached_record recorded_input
        (runs_scripts recorded_input recorded_output Flushing) (after_any_size words) old before end new after }
{}

/// The exit status is that of the end.
fn script_exit_statuses()
    ensures ends { (words : List (List ℕ)) (status : ℕ) (input left : List ReadCall) (output written : List OutputCall)
        → ScriptProgramExits Asking recorded_medium cached_record recorded_input recorded_input recorded_output
        Flushing words input output status left written
        → (old : List (SystemCall (List MediumCall) (List ReadCall))) × (end : Option Failure)
        × (new : List (SystemCall (List MediumCall) (List ReadCall))) × (status ≡ end_status end)
        × ScriptProgramEnds Asking recorded_medium cached_record recorded_input recorded_input recorded_output
        Flushing words old input output end new left written }
    ensures exits { (words : List (List ℕ)) (old new : List (SystemCall (List MediumCall) (List ReadCall)))
        (input left : List ReadCall) (output written : List OutputCall) (end : Option Failure)
        → ScriptProgramEnds Asking recorded_medium cached_record recorded_input recorded_input recorded_output
        Flushing words old input output end new left written
        → ScriptProgramExits Asking recorded_medium cached_record recorded_input recorded_input recorded_output
        Flushing words input output (end_status end) left written }
{}

/// `nvmelive` does so too.
fn script_session_streams()
    ensures streams { (words : List (List ℕ)) (old new : List (SystemCall (List MediumCall) (List ReadCall)))
        (input left : List ReadCall) (output written : List OutputCall) (end : Option Failure)
        → SessionProgramEnds Asking recorded_medium cached_record recorded_input recorded_input.remaining
        recorded_output
        Flushing words old input output end new left written
        → (before : Streams (List ReadCall) (List OutputCall)) × (after : Streams (List ReadCall) (List OutputCall))
        × (before.input ≡ input) × (before.output ≡ output)
        × (before.max_blocks ≡ max_blocks_in words) × (after.input ≡ left) × (after.output ≡ written)
        × GuardedEnds Asking recorded_medium cached_record recorded_input
        (lives_behind_scripts recorded_input.remaining recorded_output Flushing) (after_any_size words) old before end
        new after }
{}

/// So is that of `nvmelive`.
fn script_session_exit_statuses()
    ensures ends { (words : List (List ℕ)) (status : ℕ) (input left : List ReadCall) (output written : List OutputCall)
        → SessionProgramExits Asking recorded_medium cached_record recorded_input recorded_input.remaining
        recorded_output
        Flushing words input output status left written
        → (old : List (SystemCall (List MediumCall) (List ReadCall))) × (end : Option Failure)
        × (new : List (SystemCall (List MediumCall) (List ReadCall))) × (status ≡ end_status end)
        × SessionProgramEnds Asking recorded_medium cached_record recorded_input recorded_input.remaining
        recorded_output
        Flushing words old input output end new left written }
    ensures exits { (words : List (List ℕ)) (old new : List (SystemCall (List MediumCall) (List ReadCall)))
        (input left : List ReadCall) (output written : List OutputCall) (end : Option Failure)
        → SessionProgramEnds Asking recorded_medium cached_record recorded_input recorded_input.remaining
        recorded_output
        Flushing words old input output end new left written
        → SessionProgramExits Asking recorded_medium cached_record recorded_input recorded_input.remaining
        recorded_output
        Flushing words input output (end_status end) left written }
{}

/// Each run and each session of a program has read its script, or could not.
fn script_scripts_are_read()
    ensures ran { (most : ℕ) (script rest : List ReadCall) (old new : List MediumCall) (before after : List OutputCall)
        → RunsOver recorded_input recorded_medium recorded_output Flushing most script rest old new before None after
        → (text : List ℕ) × IsRead recorded_input.step recorded_input.remaining script (Ok text) rest }
    ensures failed { (most : ℕ) (failure : Failure) (script rest : List ReadCall) (old new : List MediumCall)
        (before after : List OutputCall)
        → RunsOver recorded_input recorded_medium recorded_output Flushing most script rest old new before
        (Some failure) after
        → (outcome : Result (List ℕ) ReadFault)
        × IsRead recorded_input.step recorded_input.remaining script outcome rest }
    ensures lived { (most : ℕ) (script rest input : List ReadCall) (old new : List MediumCall)
        (before after : List OutputCall)
        → LivesOver recorded_input recorded_medium recorded_input.remaining recorded_output Flushing most script rest
        old new input before None after
        → (text : List ℕ) × IsRead recorded_input.step recorded_input.remaining script (Ok text) rest }
    ensures ended { (most : ℕ) (why : ScriptFault) (script rest input : List ReadCall) (old new : List MediumCall)
        (before after : List OutputCall)
        → LivesOver recorded_input recorded_medium recorded_input.remaining recorded_output Flushing most script rest
        old new input before (Some (failed.Script why)) after
        → (outcome : Result (List ℕ) ReadFault)
        × IsRead recorded_input.step recorded_input.remaining script outcome rest }
{}

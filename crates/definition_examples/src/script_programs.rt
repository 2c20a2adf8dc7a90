//! How the programs `nvmesim` and `nvmelive` end: over a script, a medium, and their streams.

ghost use Rattle.std.specs.Prelude.{◌≡◌, ◌+◌, ◌≤◌, ℕ, List, length, Option, None, true};
ghost use Rattle.nvme_medium.specs.Examples.{logs};
ghost use Rattle.nvme_program.specs.declared.fault.ScriptFault.{ScriptFault};
ghost use Rattle.nvme_program.specs.declared.fault.ScriptFault.TheVariants as fault;
ghost use Rattle.nvme_grammar.specs.declared.script.Script.{Script};
ghost use Rattle.nvme_grammar.specs.Kept.{kept_events};
ghost use Rattle.nvme_script.specs.Buffering.{
  Buffer,
  HoldsBack,
  StepsBuffer,
  buffer_contents,
  most_held,
};
ghost use Rattle.nvme_script.specs.Faults.{IsEarlyFault, IsReady, IsScript, ReadsThen, events_in};
ghost use Rattle.nvme_script.specs.ScriptWrites.{IsFault};
ghost use Rattle.nvme_spec.specs.Blocks.{Device};
ghost use Rattle.nvme_spec.specs.Configuration.{Capacity};
ghost use Rattle.nvme_spec.specs.MediumCalls.{MediumCall};
ghost use Rattle.nvme_live.specs.StreamExamples.{Writing};
ghost use Rattle.script_text.specs.Reading.{IsRead};
ghost use Rattle.script_text.specs.Streams.{OutputCall, WriteCall, WritesSome};
ghost use Rattle.definition_examples.specs.TextStreams.{any_read, unknown_bytes};

/// A buffer before the output holds back at most 8,192 bytes.
fn script_output_buffers()
    ensures size { most_held ≡ 8192 }
    ensures held { (old new : Buffer (List OutputCall)) (part : List ℕ) (taken : Option ℕ)
        → HoldsBack old part taken new → length old.held + length part ≤ 8192 }
    ensures most { (contents : List OutputCall → Option (List ℕ)) (old new : Buffer (List OutputCall))
        (call : WriteCall) → StepsBuffer Writing contents old call new → length new.held ≤ 8192 }
    ensures written { (contents : List OutputCall → Option (List ℕ)) (old new : Buffer (List OutputCall))
        (call : WriteCall) → StepsBuffer Writing contents old call new
        → WritesSome (buffer_contents contents) old call new }
{}

/// Before the first event a script is not too long, unread, or unwritten.
fn script_early_faults()
    ensures too_long { (text : List ℕ) (size : Capacity) → IsEarlyFault fault.TooLong text size → ⊥ }
    ensures unread { (text : List ℕ) (size : Capacity) → IsEarlyFault fault.Read text size → ⊥ }
    ensures unwritten { (text : List ℕ) (size : Capacity) → IsEarlyFault fault.Write text size → ⊥ }
{}

/// A script that was read has the events of its text; its run makes no other read, and only a script has a line that
/// was not written.
fn script_reading()
    ensures events { (text : List ℕ) (script : Script) (h : IsReady text script)
        → kept_events text script.events.items ≡ events_in text }
    ensures reads { (why : ScriptFault) (h : ReadsThen any_read unknown_bytes tt tt why (λ text. Unit {0}))
        → IsRead any_read unknown_bytes tt h.0 tt }
    ensures unwritten { (size : Capacity) (text : List ℕ) (device : List MediumCall → Device)
        (old new : List MediumCall) (before after : List OutputCall)
        → IsFault logs true device Writing (λ calls. None) fault.Write text size old new before after
        → IsScript text size }
{}

//! Worked examples of the reads of a text, and of the writes of bytes, with counterexamples.

ghost use Rattle.std.specs.Prelude.{◌≡◌, ℕ, ◌∷◌, [], true, None, Some, Ok, Err, codes};
ghost use Rattle.script_text.specs.Reading.{IsNext, IsRead, ReadsText};
ghost use Rattle.script_text.specs.StreamLaws.{HasCome};
ghost use Rattle.script_text.specs.Streams.{
  Flushed,
  Reads,
  ReadsSome,
  Writes,
  WritesSome,
  come,
  taken,
};
ghost use Rattle.script_text.specs.Writing.{Cuts, IsSent, SendsBytes, Sent};
ghost use Rattle.script_text.specs.declared.reading.ReadFault.TheVariants.{TooLong};
ghost use Rattle.nvme_transcript.specs.Putting.{Puts};
ghost use Rattle.nvme_transcript.specs.Writing.{WritesLine};
ghost use Rattle.nvme_transcript.specs.declared.short.Put.TheVariants as put;
ghost use Rattle.definition_examples.specs.TextStreams.{
  any_flush,
  any_read,
  known_bytes,
  no_read,
  unable_write,
  unknown_bytes,
};

/// The answers of one call.
fn call_results_example()
    ensures read { come {E = ℕ} (Ok 2) (1 ∷ 2 ∷ 3 ∷ []) ≡ Some (1 ∷ 2 ∷ []) }
    ensures read_failed { come {E = ℕ} (Err 7) (1 ∷ 2 ∷ 3 ∷ []) ≡ None }
    ensures written { taken {E = ℕ} (Ok 3) ≡ Some 3 }
    ensures write_failed { taken {E = ℕ} (Err 7) ≡ None }
{}

/// A text is read by 4,096 bytes, and one that is too long by one byte more than the limit.
fn text_reads_example()
    ensures next { IsNext [] 4096 }
    ensures no_reads { ReadsText [] [] (Ok []) → ⊥ }
    ensures too_long { HasCome (Err TooLong) [] → ⊥ }
{}

/// A text is read to its end, which takes a read.
fn whole_reads_example()
    ensures empty { IsRead any_read unknown_bytes tt (Ok []) tt }
    ensures without_a_read { IsRead no_read unknown_bytes tt (Ok []) tt → ⊥ }
{}

/// A read takes its bytes from the front of what remains, and returns none only at the end.
fn known_reads_example()
    ensures two_of_three { ReadsSome known_bytes (Some (1 ∷ 2 ∷ 3 ∷ [])) (Reads 2 (Some (1 ∷ 2 ∷ [])))
        (Some (3 ∷ [])) }
    ensures one_is_left { ReadsSome known_bytes (Some (1 ∷ 2 ∷ [])) (Reads 2 (Some (1 ∷ 2 ∷ [])))
        (Some (2 ∷ [])) → ⊥ }
    ensures above_room { ReadsSome known_bytes (Some (1 ∷ 2 ∷ [])) (Reads 1 (Some (1 ∷ 2 ∷ [])))
        (Some []) → ⊥ }
    ensures early_end { ReadsSome known_bytes (Some (1 ∷ [])) (Reads 1 (Some [])) (Some (1 ∷ [])) → ⊥ }
    ensures failed { ReadsSome known_bytes (Some (1 ∷ [])) (Reads 1 None) (Some (1 ∷ [])) }
    ensures failed_with_a_loss { ReadsSome known_bytes (Some (1 ∷ [])) (Reads 1 None) (Some []) → ⊥ }
{}

/// A write appends the front of its bytes.
fn known_writes_example()
    ensures one_of_two { WritesSome known_bytes (Some (1 ∷ [])) (Writes (2 ∷ 3 ∷ []) (Some 1))
        (Some (1 ∷ 2 ∷ [])) }
    ensures two_of_one { WritesSome known_bytes (Some (1 ∷ [])) (Writes (2 ∷ 3 ∷ []) (Some 1))
        (Some (1 ∷ 2 ∷ 3 ∷ [])) → ⊥ }
    ensures too_many { WritesSome known_bytes (Some []) (Writes (2 ∷ []) (Some 2)) (Some (2 ∷ [])) → ⊥ }
    ensures failed { WritesSome known_bytes (Some (1 ∷ [])) (Writes (2 ∷ []) None) (Some (1 ∷ [])) }
    ensures failed_with_a_byte { WritesSome known_bytes (Some (1 ∷ [])) (Writes (2 ∷ []) None)
        (Some (1 ∷ 2 ∷ [])) → ⊥ }
    ensures cut { Cuts (Some []) (Some (1 ∷ [])) (1 ∷ 2 ∷ []) }
    ensures whole { Cuts (Some []) (Some (1 ∷ 2 ∷ [])) (1 ∷ 2 ∷ []) → ⊥ }
{}

/// After the last write there is one flush.
fn flushed_bytes_example()
    ensures flushed { SendsBytes [] (Flushed true ∷ []) true }
    ensures not_flushed { SendsBytes [] [] true → ⊥ }
{}

/// Bytes are sent by writes, and so is the line of an event.
fn unwritten_bytes_example()
    ensures bytes { IsSent unable_write any_flush tt (Sent (1 ∷ [])) tt → ⊥ }
    ensures line { WritesLine {T = Unit {0}} {E = ℕ} unable_write (codes "stored 1") tt (Ok tt) tt → ⊥ }
{}

/// A line of a transcript, with or without its data.
#[tactic(auto, unfolding(crate::proofs::TextLiterals::texts_on_literals))]
fn assembled_lines_example()
    ensures all { Puts put.All (1 ∷ []) (codes "stored 1") (codes "stored 1") }
    ensures other { Puts put.All [] (codes "stored 1") (codes "stored 2") → ⊥ }
    ensures without_data { Puts put.AllButData (1 ∷ []) (codes "5") (codes "5 1 01") }
    ensures missing_data { Puts put.AllButData (1 ∷ []) (codes "5") (codes "5") → ⊥ }
    ensures nothing { Puts put.Nothing [] (codes "5") (codes "stored 1") }
{}

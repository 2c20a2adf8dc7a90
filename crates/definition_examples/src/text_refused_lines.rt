//! Computed examples of refused lines: the place of a fault, its reason, and their texts.

ghost use Rattle.std.specs.Prelude.{◌≡◌, ◌++◌, ◌∷◌, [], true, false, None, Some, codes, replicate};
ghost use Rattle.nvme_grammar.specs.FaultTexts.{
  byte_text,
  count_text,
  lacks_prefix,
  meant_early,
  prefix_text,
  shown_word,
  why_text,
  word_text,
};
ghost use Rattle.nvme_grammar.specs.LineFaults.{fault_of, foreign_fault, word_number};
ghost use Rattle.nvme_grammar.specs.Near.{are_exchanged, differ_little, is_near};
ghost use Rattle.nvme_grammar.specs.declared.keyword.Keyword.TheVariants as keyword;
ghost use Rattle.nvme_grammar.specs.declared.place.Operand.TheVariants.{Cntlid};
ghost use Rattle.nvme_grammar.specs.declared.place.Behind.TheVariants as behind;
ghost use Rattle.definition_examples.specs.TextLines.{
  byte_fault,
  count_fault,
  early_up_fault,
  late_fault,
  number_fault,
  refusal_byte,
  refusal_count,
  refusal_count_one,
  refusal_early,
  refusal_early_attach,
  refusal_late,
  refusal_late_start,
  refusal_misfit,
  unknown_fault,
  word_cntlid,
  word_host,
};

/// The column and the word of a fault, both from 1. The column of a line that is refused as a whole is that of its
/// first word.
#[tactic(auto, unfolding(nvme_grammar::specs::LineFaults::fault_of, nvme_grammar::specs::Keywords::keyword_of, nvme_grammar::specs::Keywords::nearest_to, nvme_grammar::specs::Near::is_meant, script_text::specs::Numbers::number_at))]
fn positions_example()
    ensures third_word { fault_of true (codes " read 1 x 0 1") ≡ Some (number_fault 9) }
    ensures unknown { fault_of true (codes "  go 1") ≡ Some (unknown_fault 3) }
    ensures count { fault_of true (codes "  fetch 1") ≡ Some (count_fault 3) }
    ensures early { fault_of false (codes "  up 1") ≡ Some (early_up_fault 3) }
    ensures late { fault_of true (codes "  start") ≡ Some (late_fault 3) }
    ensures byte { fault_of true (codes "up" ++ 0 ∷ []) ≡ Some (byte_fault 3 0) }
    ensures nothing { fault_of true (codes "  up 1") ≡ None }
{}

/// The word at fault. For a line that has only text, the place is its end, and the byte 00h.
fn faulty_words_example()
    ensures misfit { word_number refusal_misfit ≡ 3 }
    ensures byte { word_number refusal_byte ≡ 1 }
    ensures early { word_number refusal_early ≡ 1 }
    ensures foreign { foreign_fault (codes "up" ++ 7 ∷ codes "1") ≡ byte_fault 3 7 }
    ensures no_foreign { foreign_fault (codes "up") ≡ byte_fault 3 0 }
{}

/// A word without `0x` that would be a number with it.
#[tactic(auto, unfolding(nvme_grammar::specs::FaultTexts::prefix_text))]
fn missing_prefix_example()
    ensures sixteen_bits { lacks_prefix Cntlid (codes "a1B2") ≡ true }
    ensures twenty_bits { lacks_prefix Cntlid (codes "a1b2c") ≡ false }
    ensures no_digits { lacks_prefix Cntlid (codes "g1") ≡ false }
    ensures asked { prefix_text word_cntlid (codes "a1") ≡ codes "; did you mean '0xa1'?" }
    ensures not_asked { prefix_text word_cntlid (codes "g1") ≡ [] }
    ensures no_number { prefix_text word_host (codes "a1") ≡ [] }
{}

/// Words and bytes in the texts of faults.
#[tactic(auto, unfolding(crate::proofs::TextLiterals::texts_on_literals))]
fn shown_words_example()
    ensures low_byte { byte_text 11 ≡ codes "0b" }
    ensures high_byte { byte_text 255 ≡ codes "ff" }
    ensures invisible { shown_word (codes "up" ++ 0 ∷ []) ≡ codes "up\\x00" }
    ensures longest { shown_word (replicate 32 97) ≡ replicate 32 97 }
    ensures too_long { shown_word (replicate 33 97) ≡ replicate 32 97 ++ codes ".." }
    ensures one { count_text 1 behind.Nothing ≡ codes "1 word" }
    ensures two { count_text 2 behind.Nothing ≡ codes "2 words" }
    ensures raw { count_text 4 behind.Raw ≡ codes "4 words, or one more" }
    ensures list { count_text 3 behind.Controllers ≡ codes "3 words or more" }
    ensures at_fault { word_text refusal_misfit ≡ codes "word 3: " }
    ensures none_at_fault { word_text refusal_byte ≡ [] }
{}

/// The texts of reasons.
#[tactic(auto, unfolding(crate::proofs::TextLiterals::texts_on_literals, nvme_grammar::specs::FaultTexts::prefix_text))]
fn reasons_example()
    ensures misfit { why_text refusal_misfit ≡ codes "the word 'host', not 'hots'" }
    ensures one_word { why_text refusal_count_one ≡ codes "powercycle takes 1 word: powercycle" }
    ensures words { why_text refusal_count ≡ codes "fetch takes 3 words: fetch C Q" }
    ensures early { why_text refusal_early ≡ codes "up needs a 'start' before it" }
    ensures attach { why_text refusal_early_attach
        ≡ codes "attach needs a 'start' before it; did you mean 'attached'?" }
    ensures meant { meant_early keyword.Attach ≡ Some keyword.Attached }
    ensures detach { meant_early keyword.Detach ≡ None }
    ensures late { why_text refusal_late ≡ codes "namespace must come before 'start'" }
    ensures twice { why_text refusal_late_start ≡ codes "a script has only one start" }
{}

/// Words that differ by one letter, or by two adjacent ones that are exchanged.
fn similar_words_example()
    ensures exchanged { are_exchanged (codes "raed") (codes "ared") ≡ true }
    ensures first_differs { are_exchanged (codes "ab") (codes "bc") ≡ false }
    ensures second_differs { are_exchanged (codes "ab") (codes "ca") ≡ false }
    ensures one_letter { are_exchanged (codes "a") (codes "a") ≡ false }
    ensures wrong { differ_little (codes "xp") (codes "up") ≡ true }
    ensures too_many { differ_little (codes "xup") (codes "up") ≡ true }
    ensures missing { differ_little (codes "p") (codes "up") ≡ true }
    ensures two_too_many { differ_little (codes "xyup") (codes "up") ≡ false }
    ensures after_a_common_part { is_near (codes "poll") (codes "pol") ≡ true }
    ensures empty { is_near [] (codes "up") ≡ false }
    ensures part { is_near (codes "po") (codes "poll") ≡ false }
{}

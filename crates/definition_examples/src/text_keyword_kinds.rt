//! Computed examples of the groups of keywords by which lines are parsed.

ghost use Rattle.std.specs.Prelude.{◌≡◌, ◌∷◌, [], true, false, codes};
ghost use Rattle.nvme_grammar.specs.Reader.{
  place_bits,
  is_short,
  ends,
  is_numeric,
  asks,
  lists,
  sets_up_by_words,
  is_other,
  is_one,
};
ghost use Rattle.nvme_grammar.specs.declared.keyword.Keyword.TheVariants as keyword;
ghost use Rattle.nvme_grammar.specs.declared.place.Behind.TheVariants as behind;
ghost use Rattle.definition_examples.specs.TextLines.{word_data, word_host, word_host_number, word_iekey, word_slba};

/// Numbers of at most 64 bits.
fn short_numbers_example()
    ensures host_bits { place_bits word_host_number ≡ 128 }
    ensures iekey_bits { place_bits word_iekey ≡ 1 }
    ensures bits_of_a_word { place_bits word_host ≡ 0 }
    ensures short_slba { is_short word_slba ≡ true }
    ensures long_host { is_short word_host_number ≡ false }
    ensures short_iekey { is_short word_iekey ≡ true }
    ensures data_is_no_number { is_short word_data ≡ false }
    ensures nothing_more { ends behind.Nothing ≡ true }
    ensures raw_may_follow { ends behind.Raw ≡ false }
    ensures controllers_may_follow { ends behind.Controllers ≡ false }
    ensures one_word { is_one (codes "up" ∷ []) ≡ true }
    ensures no_words { is_one [] ≡ false }
{}

/// Events that have numbers as their only words.
fn numeric_keywords_example()
    ensures read { is_numeric keyword.Read ≡ true }
    ensures register { is_numeric keyword.Register ≡ true }
    ensures power_cycle { is_numeric keyword.PowerCycle ≡ true }
    ensures write { is_numeric keyword.Write ≡ false }
    ensures attach { is_numeric keyword.Attach ≡ false }
    ensures attached { is_numeric keyword.Attached ≡ false }
    ensures start { is_numeric keyword.Start ≡ false }
    ensures controller { is_numeric keyword.Controller ≡ false }
{}

/// Requests of a driver that have numbers as their only words; an Identify has no namespace at that place.
fn asking_keywords_example()
    ensures read { asks keyword.Read ≡ true }
    ensures zeroes { asks keyword.Zeroes ≡ true }
    ensures flush { asks keyword.Flush ≡ true }
    ensures protection { asks keyword.Protection ≡ true }
    ensures protect { asks keyword.Protect ≡ true }
    ensures register { asks keyword.Register ≡ true }
    ensures acquire { asks keyword.Acquire ≡ true }
    ensures release { asks keyword.Release ≡ true }
    ensures report { asks keyword.Report ≡ true }
    ensures write { asks keyword.Write ≡ false }
    ensures up { asks keyword.Up ≡ false }
    ensures identify { asks keyword.Identify ≡ false }
{}

/// Requests with a list of controllers, and setup lines with words that are no numbers.
fn listing_keywords_example()
    ensures attach { lists keyword.Attach ≡ true }
    ensures detach { lists keyword.Detach ≡ true }
    ensures attached_has_none { lists keyword.Attached ≡ false }
    ensures controller { sets_up_by_words keyword.Controller ≡ true }
    ensures namespace { sets_up_by_words keyword.Namespace ≡ true }
    ensures start { sets_up_by_words keyword.Start ≡ true }
    ensures attached_has_numbers { sets_up_by_words keyword.Attached ≡ false }
{}

/// The keywords of setup lines, and of requests with a list.
fn other_keywords_example()
    ensures attach { is_other keyword.Attach ≡ true }
    ensures detach { is_other keyword.Detach ≡ true }
    ensures attached { is_other keyword.Attached ≡ true }
    ensures controller { is_other keyword.Controller ≡ true }
    ensures namespace { is_other keyword.Namespace ≡ true }
    ensures start { is_other keyword.Start ≡ true }
    ensures up { is_other keyword.Up ≡ false }
    ensures write { is_other keyword.Write ≡ false }
    ensures store { is_other keyword.Store ≡ false }
{}

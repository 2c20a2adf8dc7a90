//! Computed examples of the keywords of scripts: their spelling, their lines' places, and the names of these.

ghost use Rattle.std.specs.Prelude.{◌≡◌, ◌∷◌, [], None, Some, codes};
ghost use Rattle.nvme_grammar.specs.Keywords.{keyword_text, places_of, either_place};
ghost use Rattle.nvme_grammar.specs.Places.{operand_name, place_behind, place_name, behind_name, wanted_text};
ghost use Rattle.nvme_grammar.specs.declared.keyword.Keyword.TheVariants as keyword;
ghost use Rattle.nvme_grammar.specs.declared.place.Operand.TheVariants as operand;
ghost use Rattle.nvme_grammar.specs.declared.place.Behind.TheVariants as behind;
ghost use Rattle.definition_examples.specs.TextLines.{
  word_blocks,
  word_bytes,
  word_cntlid,
  word_data,
  word_host,
  word_host_number,
  word_iekey,
  word_index,
  word_queue,
  word_raw,
  word_sharing,
  word_slba,
};

/// The keywords of setup lines and of requests to controllers.
fn setup_keywords_example()
    ensures controller { keyword_text keyword.Controller ≡ codes "controller" }
    ensures namespace { keyword_text keyword.Namespace ≡ codes "namespace" }
    ensures attached { keyword_text keyword.Attached ≡ codes "attached" }
    ensures start { keyword_text keyword.Start ≡ codes "start" }
    ensures up { keyword_text keyword.Up ≡ codes "up" }
    ensures identify { keyword_text keyword.Identify ≡ codes "identify" }
    ensures attach { keyword_text keyword.Attach ≡ codes "attach" }
    ensures detach { keyword_text keyword.Detach ≡ codes "detach" }
{}

/// The keywords of I/O commands, and of the feature Namespace Write Protection.
fn request_keywords_example()
    ensures read { keyword_text keyword.Read ≡ codes "read" }
    ensures write { keyword_text keyword.Write ≡ codes "write" }
    ensures compare { keyword_text keyword.Compare ≡ codes "compare" }
    ensures zeroes { keyword_text keyword.Zeroes ≡ codes "zeroes" }
    ensures flush { keyword_text keyword.Flush ≡ codes "flush" }
    ensures register { keyword_text keyword.Register ≡ codes "register" }
    ensures acquire { keyword_text keyword.Acquire ≡ codes "acquire" }
    ensures release { keyword_text keyword.Release ≡ codes "release" }
    ensures report { keyword_text keyword.Report ≡ codes "report" }
    ensures protect { keyword_text keyword.Protect ≡ codes "protect" }
    ensures protection { keyword_text keyword.Protection ≡ codes "protection" }
{}

/// The keywords of the steps of drivers, controllers and raw hosts.
fn step_keywords_example()
    ensures ring { keyword_text keyword.Ring ≡ codes "ring" }
    ensures fetch { keyword_text keyword.Fetch ≡ codes "fetch" }
    ensures execute { keyword_text keyword.Execute ≡ codes "execute" }
    ensures poll { keyword_text keyword.Poll ≡ codes "poll" }
    ensures reset { keyword_text keyword.Reset ≡ codes "reset" }
    ensures store { keyword_text keyword.Store ≡ codes "store" }
    ensures write32 { keyword_text keyword.Write32 ≡ codes "write32" }
    ensures power_cycle { keyword_text keyword.PowerCycle ≡ codes "powercycle" }
{}

/// The words of a line after its keyword.
fn line_words_example()
    ensures fetch { places_of keyword.Fetch ≡ word_cntlid ∷ word_queue ∷ [] }
    ensures execute { places_of keyword.Execute ≡ word_cntlid ∷ word_index ∷ [] }
    ensures first { either_place (Some word_host) (Some word_raw) ≡ Some word_host }
    ensures second { either_place None (Some word_raw) ≡ Some word_raw }
    ensures none_after_all { place_behind behind.Nothing 0 ≡ None }
    ensures raw { place_behind behind.Raw 0 ≡ Some word_raw }
    ensures one_raw { place_behind behind.Raw 1 ≡ None }
    ensures controllers { place_behind behind.Controllers 1 ≡ Some word_cntlid }
{}

/// The names of numbers in the forms of lines: identifiers, and numbers of blocks.
fn identifier_symbols_example()
    ensures cntlid { operand_name operand.Cntlid ≡ codes "C" }
    ensures queue { operand_name operand.Queue ≡ codes "Q" }
    ensures index { operand_name operand.Index ≡ codes "I" }
    ensures nsid { operand_name operand.Nsid ≡ codes "N" }
    ensures any_nsid { operand_name operand.AnyNsid ≡ codes "NSID" }
    ensures host { operand_name operand.Host ≡ codes "H" }
    ensures size { operand_name operand.Size ≡ codes "B" }
    ensures slba { operand_name operand.Slba ≡ codes "SLBA" }
    ensures blocks { operand_name operand.Blocks ≡ codes "BLOCKS" }
    ensures dwords { operand_name operand.Dwords ≡ codes "DWORDS" }
{}

/// The names of numbers in the forms of lines: fields of commands, reservation keys, and places in a window.
fn field_symbols_example()
    ensures action { operand_name operand.Action ≡ codes "ACTION" }
    ensures cptpl { operand_name operand.Cptpl ≡ codes "CPTPL" }
    ensures rtype { operand_name operand.Rtype ≡ codes "RTYPE" }
    ensures cns { operand_name operand.Cns ≡ codes "CNS" }
    ensures state { operand_name operand.State ≡ codes "STATE" }
    ensures crkey { operand_name operand.Crkey ≡ codes "CRKEY" }
    ensures nrkey { operand_name operand.Nrkey ≡ codes "NRKEY" }
    ensures prkey { operand_name operand.Prkey ≡ codes "PRKEY" }
    ensures address { operand_name operand.Address ≡ codes "ADDR" }
    ensures offset { operand_name operand.Offset ≡ codes "OFF" }
    ensures value { operand_name operand.Value ≡ codes "V" }
{}

/// The words of lines in their forms.
fn form_words_example()
    ensures number { place_name word_slba ≡ codes "SLBA" }
    ensures iekey { place_name word_iekey ≡ codes "IEKEY" }
    ensures host { place_name word_host ≡ codes "host" }
    ensures blocks { place_name word_blocks ≡ codes "blocks" }
    ensures sharing { place_name word_sharing ≡ codes "shared|private" }
    ensures raw { place_name word_raw ≡ codes "[raw]" }
    ensures data { place_name word_data ≡ codes "DATA" }
    ensures bytes { place_name word_bytes ≡ codes "hex:DIGITS" }
    ensures nothing { behind_name behind.Nothing ≡ [] }
    ensures may_be_raw { behind_name behind.Raw ≡ codes " [raw]" }
    ensures controllers { behind_name behind.Controllers ≡ codes " C1 C2 .." }
{}

/// What a refused line should have had.
#[tactic(auto, unfolding(crate::proofs::TextLiterals::texts_on_literals))]
fn wanted_words_example()
    ensures cntlid { wanted_text word_cntlid ≡ codes "C, a number below 2^16" }
    ensures host_number { wanted_text word_host_number ≡ codes "H, a number below 2^128" }
    ensures iekey { wanted_text word_iekey ≡ codes "IEKEY, 0 or 1" }
    ensures host { wanted_text word_host ≡ codes "the word 'host'" }
    ensures blocks { wanted_text word_blocks ≡ codes "the word 'blocks'" }
    ensures sharing { wanted_text word_sharing ≡ codes "'shared' or 'private'" }
    ensures raw { wanted_text word_raw ≡ codes "'raw' or nothing" }
    ensures data { wanted_text word_data
        ≡ codes "DATA, fill: and two hexadecimal digits, or hex: and pairs of them that BLOCKS have room for" }
    ensures bytes { wanted_text word_bytes ≡ codes "hex: and pairs of hexadecimal digits" }
{}

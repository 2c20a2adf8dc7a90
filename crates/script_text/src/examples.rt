//! Worked examples of the definitions. Each is the contract of an empty function, proved by computing.

ghost use Rattle.std.specs.Prelude.{◌≡◌, ◌+◌, ◌^◌, ◌++◌, ◌∷◌, [], Some, None, codes, replicate};
ghost use Rattle.script_text.specs.Lines.{text_lines, longest_line};
ghost use Rattle.script_text.specs.Numbers.{number_at};
ghost use Rattle.script_text.specs.Words.{line_words};
ghost use Rattle.script_text.specs.Data.{data_at, bytes_at};
ghost use Rattle.script_text.specs.HexText.{hex_or_dash, without_trailing_zeros};

#[tactic(auto, unfolding(crate::specs::Numbers::number_at))]
pub fn numbers()
    ensures decimal { number_at 16 (codes "65535") ≡ Some 65535 }
    ensures zeros_in_front { number_at 8 (codes "000000000000000000000000255") ≡ Some 255 }
    ensures lower_case { number_at 32 (codes "0xdeadbeef") ≡ Some 0xdeadbeef }
    ensures upper_case { number_at 32 (codes "0xDEADbeef") ≡ Some 0xdeadbeef }
    ensures widest { number_at 64 (codes "0xffffffffffffffff") ≡ Some 18446744073709551615 }
    ensures of_128_bits { number_at 128 (codes "18446744073709551777") ≡ Some (2 ^ 64 + 161) }
{}

#[tactic(auto, unfolding(crate::specs::Numbers::number_at))]
pub fn no_numbers()
    ensures above_8_bits { number_at 8 (codes "256") ≡ None }
    ensures above_16_bits { number_at 16 (codes "65536") ≡ None }
    ensures above_32_bits { number_at 32 (codes "0x100000000") ≡ None }
    ensures above_64_bits { number_at 64 (codes "18446744073709551616") ≡ None }
    ensures above_128_bits { number_at 128 (codes "0x100000000000000000000000000000000") ≡ None }
    ensures plus { number_at 64 (codes "+1") ≡ None }
    ensures minus { number_at 64 (codes "-1") ≡ None }
    ensures no_digit { number_at 64 (codes "0x") ≡ None }
    ensures nothing { number_at 64 [] ≡ None }
    ensures prefix_in_upper_case { number_at 64 (codes "0X1") ≡ None }
    ensures digit_of_another_base { number_at 64 (codes "12a") ≡ None }
{}

pub fn words()
    ensures separated { line_words (codes " do" ++ 9 ∷ codes "1  read" ++ 13 ∷ [])
        ≡ codes "do" ∷ codes "1" ∷ codes "read" ∷ [] }
    ensures vertical_tab { line_words (codes "a" ++ 11 ∷ codes "b") ≡ (codes "a" ++ 11 ∷ codes "b") ∷ [] }
    ensures form_feed { line_words (codes "a" ++ 12 ∷ codes "b") ≡ (codes "a" ++ 12 ∷ codes "b") ∷ [] }
    ensures none { line_words (32 ∷ 9 ∷ 13 ∷ []) ≡ [] }
{}

pub fn lines()
    ensures ended { text_lines (codes "up 1" ++ 10 ∷ codes "poll 1" ++ 10 ∷ [])
        ≡ codes "up 1" ∷ codes "poll 1" ∷ [] ∷ [] }
    ensures longest { longest_line (codes "up 1" ++ 10 ∷ codes "poll 1" ++ 10 ∷ codes "up") ≡ 6 }
    ensures none { longest_line [] ≡ 0 }
{}

#[tactic(auto, unfolding(crate::proofs::OnLiterals::words_on_literals))]
pub fn data()
    ensures filled { data_at 2 (codes "fill:5a") ≡ Some (replicate 1024 90) }
    ensures padded { data_at 1 (codes "hex:48656c6C6f") ≡ Some (codes "Hello" ++ replicate 507 0) }
    ensures longest { data_at 1 (codes "hex:" ++ replicate 1024 48) ≡ Some (replicate 512 0) }
    ensures no_transfer { data_at 0 (codes "hex:00") ≡ Some [] }
    ensures too_many_blocks { data_at 257 (codes "fill:00") ≡ Some [] }
    ensures long_for_no_transfer { data_at 0 (codes "hex:" ++ replicate 1026 48) ≡ Some [] }
{}

#[tactic(auto, unfolding(crate::proofs::OnLiterals::words_on_literals))]
pub fn no_data()
    ensures one_digit { data_at 1 (codes "fill:5") ≡ None }
    ensures three_digits { data_at 1 (codes "fill:5a5") ≡ None }
    ensures two_bytes { data_at 1 (codes "fill:5a5a") ≡ None }
    ensures no_hex_digit { data_at 1 (codes "fill:5g") ≡ None }
    ensures odd { data_at 1 (codes "hex:486") ≡ None }
    ensures empty { data_at 1 (codes "hex:") ≡ None }
    ensures too_long { data_at 1 (codes "hex:" ++ replicate 1026 48) ≡ None }
    ensures no_form { data_at 1 (codes "48") ≡ None }
    ensures form_in_upper_case { data_at 1 (codes "HEX:48") ≡ None }
    ensures odd_for_no_transfer { data_at 0 (codes "hex:0") ≡ None }
{}

#[tactic(auto, unfolding(crate::proofs::OnLiterals::words_on_literals))]
pub fn bytes()
    ensures one { bytes_at (codes "hex:0a") ≡ Some (10 ∷ []) }
    ensures zeros_stay { bytes_at (codes "hex:00fF00") ≡ Some (0 ∷ 255 ∷ 0 ∷ []) }
    ensures empty { bytes_at (codes "hex:") ≡ None }
    ensures odd { bytes_at (codes "hex:123") ≡ None }
    ensures no_hex_digit { bytes_at (codes "hex:0g") ≡ None }
    ensures fill { bytes_at (codes "fill:00") ≡ None }
{}

pub fn shown_bytes()
    ensures trimmed { hex_or_dash (without_trailing_zeros (codes "Hello" ++ replicate 507 0)) ≡ codes "48656c6c6f" }
    ensures inner_zeros { hex_or_dash (without_trailing_zeros (0 ∷ 10 ∷ 0 ∷ 255 ∷ 0 ∷ [])) ≡ codes "000a00ff" }
    ensures zeros { hex_or_dash (without_trailing_zeros (replicate 512 0)) ≡ codes "-" }
    ensures nothing { hex_or_dash (without_trailing_zeros []) ≡ codes "-" }
{}

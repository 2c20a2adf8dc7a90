//! Computed examples of words, numbers and data in scripts.

ghost use Rattle.std.specs.Prelude.{◌≡◌, ◌∷◌, [], true, false, None, Some, Ok, codes};
ghost use Rattle.script_text.specs.Data.{transfer_len, longest_data, fill_data, hex_data};
ghost use Rattle.script_text.specs.Front.{begins_number};
ghost use Rattle.script_text.specs.Reading.{longest};
ghost use Rattle.script_text.specs.Words.{is_separator, is_visible, column_of};

/// A transfer has 1 to 256 blocks of 512 bytes, and a script at most 4 MiB.
fn lengths_example()
    ensures one_block { transfer_len 1 ≡ Some 512 }
    ensures all_blocks { transfer_len 256 ≡ Some 131072 }
    ensures zero_blocks { transfer_len 0 ≡ None }
    ensures block_257 { transfer_len 257 ≡ None }
    ensures data { longest_data ≡ 131072 }
    ensures script { longest ≡ 4194304 }
{}

/// `fill:` repeats one byte, and `hex:` is extended with zeros; an invalid number of blocks gives no data.
fn data_words_example()
    ensures filled { fill_data (Some 3) (Ok (90 ∷ [])) ≡ Some (90 ∷ 90 ∷ 90 ∷ []) }
    ensures filled_by_two { fill_data (Some 3) (Ok (90 ∷ 91 ∷ [])) ≡ None }
    ensures filled_for_none { fill_data None (Ok (90 ∷ [])) ≡ Some [] }
    ensures extended { hex_data (Some 4) (Some (1 ∷ 2 ∷ [])) ≡ Some (1 ∷ 2 ∷ 0 ∷ 0 ∷ []) }
    ensures too_long { hex_data (Some 1) (Some (1 ∷ 2 ∷ [])) ≡ None }
    ensures hex_for_none { hex_data None (Some (1 ∷ 2 ∷ [])) ≡ Some [] }
    ensures no_bytes { hex_data (Some 4) None ≡ None }
{}

/// A number at the front of a line fits 64 bits.
#[tactic(auto, unfolding(script_text::specs::Numbers::number_at))]
fn front_numbers_example()
    ensures largest { begins_number (codes "18446744073709551615" ∷ codes "x" ∷ []) ≡ true }
    ensures too_large { begins_number (codes "18446744073709551616" ∷ []) ≡ false }
    ensures no_number { begins_number (codes "up" ∷ codes "1" ∷ []) ≡ false }
    ensures no_words { begins_number [] ≡ false }
{}

/// The separators are space, tab and carriage return; the visible characters are those of ASCII, 21h to 7Eh.
fn characters_example()
    ensures space { is_separator 0x20 ≡ true }
    ensures tab { is_separator 0x09 ≡ true }
    ensures line_feed { is_separator 0x0a ≡ false }
    ensures carriage_return { is_separator 0x0d ≡ true }
    ensures shift_out { is_separator 0x0e ≡ false }
    ensures invisible_space { is_visible 0x20 ≡ false }
    ensures first_visible { is_visible 0x21 ≡ true }
    ensures last_visible { is_visible 0x7e ≡ true }
    ensures delete { is_visible 0x7f ≡ false }
{}

/// Columns count bytes from 1.
fn columns_example()
    ensures first { column_of 0 (codes "up 12") ≡ 1 }
    ensures second { column_of 1 (codes "up 12") ≡ 4 }
    ensures separators { column_of 1 (codes "  fetch   1 0") ≡ 11 }
    ensures tab { column_of 0 (9 ∷ codes "up 12") ≡ 2 }
{}

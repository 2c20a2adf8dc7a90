//! The shortest buffers for parsing lines: two digits of a line are one byte, a separator follows each word, and a
//! transfer has at most 131,072 bytes.

ghost use Rattle.std.specs.Prelude.{◌≡◌, ℕ, List, length};
ghost use Rattle.script_text.specs.Lines.{longest_line};
ghost use Rattle.nvme_grammar.specs.Room.{HasBytesRoom, HasTextRoom, HasWordsRoom};

/// A buffer for the bytes of one line.
fn line_buffers_example()
    ensures fits { (line bytes : List ℕ) → length bytes ≡ 131072 → length line ≡ 262144
        → HasBytesRoom line bytes }
    ensures short_for_data { (line bytes : List ℕ) → length bytes ≡ 131071 → HasBytesRoom line bytes → ⊥ }
    ensures short_for_digits { (line bytes : List ℕ) → length bytes ≡ 131072 → length line ≡ 262145
        → HasBytesRoom line bytes → ⊥ }
{}

/// A buffer for the bytes of each line of a text.
fn text_buffers_example()
    ensures fits { (text bytes : List ℕ) → length bytes ≡ 131072 → longest_line text ≡ 262144
        → HasTextRoom text bytes }
    ensures short_for_data { (text bytes : List ℕ) → length bytes ≡ 131071 → HasTextRoom text bytes → ⊥ }
    ensures short_for_digits { (text bytes : List ℕ) → length bytes ≡ 131072 → longest_line text ≡ 262145
        → HasTextRoom text bytes → ⊥ }
{}

/// A buffer for the words of each line of a text.
fn word_buffers_example()
    ensures fits { (text identifiers : List ℕ) → length identifiers ≡ 3 → longest_line text ≡ 6
        → HasWordsRoom text identifiers }
    ensures short { (text identifiers : List ℕ) → length identifiers ≡ 3 → longest_line text ≡ 7
        → HasWordsRoom text identifiers → ⊥ }
{}

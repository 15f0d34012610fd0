//! Laws of shown records, as the contract of a function.
ghost use Rattle.std.specs.Prelude.{◌≡◌, ℕ, List, ◌++◌, length, codes};
ghost use Rattle.pk_nvme.specs.Reply.{data_bytes_at};
ghost use Rattle.pk_nvme.specs.Text.{hex_text};
ghost use Rattle.pk_show.specs.Shown.{shown, shown_head};

/// The start, the digits of the data and a line feed are the line of the record, and digits join
/// piece by piece.
pub fn line()
    ensures parts { (head bytes : List ℕ)
        → length bytes ≡ data_bytes_at head
        → shown_head head ++ hex_text bytes ++ codes "\n" ≡ shown head bytes }
    ensures pieces { (front back : List ℕ)
        → hex_text (front ++ back) ≡ hex_text front ++ hex_text back }
{}

//! Laws of the two texts, as the contracts of functions.
ghost use Rattle.std.specs.Prelude.{◌≡◌, ◌<◌, ℕ, suc, List, ◌++◌, length};
ghost use Rattle.pk_nvme.specs.declared.sizes.TheConstants.{RECORD_HEAD_BYTES};
ghost use Rattle.pk_nvme.specs.Reply.{data_bytes_at};
ghost use Rattle.pk_show.specs.Shown.{shown as record_line};
ghost use Rattle.pk_text.specs.Written.{before, most};
ghost use Rattle.pk_text.specs.Records.{shown_from};

/// A whole record before others gives its line, and then they give theirs.
pub fn whole_record()
    ensures { (taken : ℕ) (head bytes rest : List ℕ)
        → taken < most → length head ≡ RECORD_HEAD_BYTES → length bytes ≡ data_bytes_at head
        → shown_from taken (head ++ (bytes ++ rest))
        ≡ before (record_line head bytes) (shown_from (suc taken) rest) }
{
    pk_show::laws::line();
}

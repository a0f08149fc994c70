ghost use Rattle.std.specs.Prelude.{◌≡◌, ◌<◌, ◌^◌, ℕ, List, length};
ghost use Rattle.zst_dir.specs.Rows.{Rows};
ghost use Rattle.zst_dir.specs.Spelling.{IsDir};

/// Bytes whose count fits a word are those of one directory.
pub fn bytes_are_one_directory()
    ensures { (rows others : Rows) (bytes : List ℕ) → length bytes < 2 ^ 64 → IsDir rows bytes → IsDir others bytes → rows ≡ others }
{}

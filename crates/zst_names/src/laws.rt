//! Laws of names as contracts: each function does nothing, and its clauses are the law.
ghost use Rattle.std.specs.Prelude.{◌≡◌, ℕ, List};
ghost use Rattle.zst_names.specs.Names.{IsDataset, IsSnapshot, IsBookmark, StopsAt};

/// A text stops being a name of a kind at one place.
pub fn one_place()
    ensures dataset { (text : List ℕ) (p q : ℕ) → StopsAt IsDataset text p → StopsAt IsDataset text q → p ≡ q }
    ensures snapshot { (text : List ℕ) (p q : ℕ) → StopsAt IsSnapshot text p → StopsAt IsSnapshot text q → p ≡ q }
    ensures bookmark { (text : List ℕ) (p q : ℕ) → StopsAt IsBookmark text p → StopsAt IsBookmark text q → p ≡ q }
{}

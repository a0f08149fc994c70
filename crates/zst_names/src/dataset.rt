ghost use Rattle.std.specs.Prelude.{◌≡◌, IfOk, OnOk, IfErr, IsOk, Some, nat_eq, refl};
ghost use Rattle.std.specs.Ordering.{nat_cmp};
ghost use Rattle.std.specs.Cmp.{partial_equiv_from_equiv};
ghost use Rattle.std.specs.Cmp.Lexicographic.{pointwise, slice_cmp, nat_list_eq_equiv, nat_list_cmp_total, texts_po, texts_ties};
ghost use Rattle.zst_names.specs.Names.{IsDataset, StopsAt};

use crate::fault::NameFault;
use crate::scan::scan;
use arrayvec::ArrayString;
use std::cmp::Ordering;
use std::marker::Model;

/// The name of a dataset: 1 to 8 components joined by `/`, at most 190 bytes. A component is 1 to
/// 64 letters, digits and `_`, `.`, `:` or `-`, and doesn't begin with `-`. Names are ordered by
/// their bytes.
#[derive(Clone, Debug, Drop)]
pub struct DatasetName {
    text: ArrayString<190>,
}

impl Model for DatasetName {
    ghost use Rattle.std.specs.Prelude.{ℕ, List};
    ghost use Rattle.zst_names.specs.Names.{IsDataset};

    ghost Value = { List ℕ };

    ghost view = { λ n. n.text.bytes };

    ghost invariant = { λ n. IsDataset n.text.bytes };
}

impl DatasetName {
    /// The name that the text is, or E2 where it stops being one.
    pub fn parse(text: &str) -> Result<DatasetName, NameFault>
        ensures same { IfOk result (λ name. name ≡ text.now) }
        ensures found { OnOk result (IsDataset text.now) }
        ensures exact { IsDataset text.now → IsOk result }
        ensures cause { IfErr result (λ fault. StopsAt IsDataset text.now fault.place) }
    {
        scan(None, text.as_bytes())?;
        Ok(DatasetName::of(text))
    }

    /// The name that the text is known to be.
    pub(crate) fn of(text: &str) -> DatasetName
        requires { IsDataset text.now }
        ensures { result ≡ text.now }
    {
        let mut name = ArrayString::new();
        name.push_str(text);
        DatasetName { text: name }
    }

    /// Its text.
    pub fn text(&self) -> &str
        ensures same { result.now ≡ self.now }
        ensures name { IsDataset self.now }
    {
        self.text.as_str()
    }

    /// The same name, which takes no memory.
    pub fn duplicate(&self) -> DatasetName
        ensures { result ≡ self.now }
    {
        DatasetName { text: self.text }
    }
}

impl PartialEq for DatasetName {
    ghost eq = { λ a b. pointwise nat_eq a b };

    ghost laws = { partial_equiv_from_equiv nat_list_eq_equiv };

    fn eq(&self, other: &Self) -> bool {
        self.text() == other.text()
    }
}

impl Eq for DatasetName {
    ghost laws = { nat_list_eq_equiv };
}

impl PartialOrd for DatasetName {
    ghost partial_cmp = { λ a b. Some (slice_cmp nat_cmp a b) };

    ghost laws = { texts_po };

    fn partial_cmp(&self, other: &Self) -> Option<Ordering> {
        Some(self.cmp(other))
    }
}

impl Ord for DatasetName {
    ghost cmp = { λ a b. slice_cmp nat_cmp a b };

    ghost total = { nat_list_cmp_total };

    ghost matches_partial_cmp = { λ a b. refl };

    ghost matches_eq = { texts_ties };

    fn cmp(&self, other: &Self) -> Ordering {
        self.text().cmp(other.text())
    }
}

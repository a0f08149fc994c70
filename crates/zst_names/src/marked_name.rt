ghost use Rattle.std.specs.Prelude.{ℕ, ◌≡◌, ◌∷◌, ◌++◌, IfOk, OnOk, IfErr, IsOk, Some, nat_eq, refl};
ghost use Rattle.std.specs.Ordering.{nat_cmp};
ghost use Rattle.std.specs.Cmp.{partial_equiv_from_equiv};
ghost use Rattle.std.specs.Cmp.Lexicographic.{pointwise, slice_cmp, nat_list_eq_equiv, nat_list_cmp_total, texts_po, texts_ties};
ghost use Rattle.zst_names.specs.Marks.{IsMark, at_is_mark, hash_is_mark};
ghost use Rattle.zst_names.specs.Names.{IsDataset, IsComponent, IsName, StopsAt, dataset_of, component_of};

use crate::dataset::DatasetName;
use crate::fault::NameFault;
use crate::mark_split::split_at_mark;
use crate::scan::scan;
use arrayvec::ArrayString;
use std::cmp::Ordering;
use std::marker::{Model, PhantomData};

/// What stands between a dataset's name and a component.
pub trait Mark {
    /// Its byte.
    ghost byte: { ℕ };

    /// Its byte.
    fn byte() -> u8
        ensures { result ≡ byte };

    /// No dataset's name has it.
    ghost is_mark: { IsMark byte };
}

/// The mark of a snapshot's name, `@`.
#[derive(Clone, Debug, Drop)]
pub struct AtSign;

/// The mark of a bookmark's name, `#`.
#[derive(Clone, Debug, Drop)]
pub struct NumberSign;

impl Mark for AtSign {
    ghost byte = { 64 };

    ghost is_mark = { at_is_mark };

    fn byte() -> u8 {
        b'@'
    }
}

impl Mark for NumberSign {
    ghost byte = { 35 };

    ghost is_mark = { hash_is_mark };

    fn byte() -> u8 {
        b'#'
    }
}

/// The name of a snapshot: a dataset's name, `@` and a component.
pub type SnapName = MarkedName<AtSign>;

/// The name of a bookmark: a dataset's name, `#` and a component.
pub type BookName = MarkedName<NumberSign>;

/// A dataset's name, a mark and a component. Names are ordered by their bytes.
#[derive(Clone, Debug, Drop)]
pub struct MarkedName<M: Mark> {
    text: ArrayString<255>,
    mark: PhantomData<M>,
}

impl<M: Mark> Model for MarkedName<M> {
    ghost use Rattle.std.specs.Prelude.{ℕ, List, Some};
    ghost use Rattle.zst_names.specs.Names.{IsName};

    ghost Value = { List ℕ };

    ghost view = { λ n. n.text.bytes };

    ghost invariant = { λ n. IsName (Some M.byte) n.text.bytes };
}

impl<M: Mark> MarkedName<M> {
    /// The name that the text is, or E2 where it stops being one.
    pub fn parse(text: &str) -> Result<MarkedName<M>, NameFault>
        ensures same { IfOk result (λ name. name ≡ text.now) }
        ensures found { OnOk result (IsName (Some M.byte) text.now) }
        ensures exact { IsName (Some M.byte) text.now → IsOk result }
        ensures cause { IfErr result (λ fault. StopsAt (IsName (Some M.byte)) text.now fault.place) }
    {
        scan(Some(M::byte()), text.as_bytes())?;
        let mut name = ArrayString::new();
        name.push_str(text);
        Ok(MarkedName {
            text: name,
            mark: PhantomData,
        })
    }

    /// The name that a dataset has under this component.
    pub fn of(dataset: &DatasetName, component: &str) -> MarkedName<M>
        requires { IsComponent component.now }
        ensures text { result ≡ dataset.now ++ M.byte ∷ component.now }
        ensures dataset { dataset_of M.byte result ≡ dataset.now }
        ensures component { component_of M.byte result ≡ component.now }
    {
        let mut name = ArrayString::new();
        name.push_str(dataset.text());
        name.push(char::from(M::byte()));
        name.push_str(component);
        MarkedName {
            text: name,
            mark: PhantomData,
        }
    }

    /// Its text.
    pub fn text(&self) -> &str
        ensures same { result.now ≡ self.now }
        ensures name { IsName (Some M.byte) self.now }
        ensures parts { self.now ≡ dataset_of M.byte self.now ++ M.byte ∷ component_of M.byte self.now }
    {
        self.text.as_str()
    }

    /// The dataset's name, before the mark.
    pub fn dataset(&self) -> DatasetName
        ensures { result ≡ dataset_of M.byte self.now }
    {
        let (dataset, _) = split_at_mark(self.text.as_str(), M::byte());
        DatasetName::of(dataset)
    }

    /// The component behind the mark.
    pub fn component(&self) -> &str
        ensures same { result.now ≡ component_of M.byte self.now }
        ensures component { IsComponent result.now }
    {
        let (_, component) = split_at_mark(self.text.as_str(), M::byte());
        component
    }

    /// The same name, which takes no memory.
    pub fn duplicate(&self) -> MarkedName<M>
        ensures { result ≡ self.now }
    {
        MarkedName {
            text: self.text,
            mark: PhantomData,
        }
    }
}

impl<M: Mark> PartialEq for MarkedName<M> {
    ghost eq = { λ a b. pointwise nat_eq a b };

    ghost laws = { partial_equiv_from_equiv nat_list_eq_equiv };

    fn eq(&self, other: &Self) -> bool {
        self.text() == other.text()
    }
}

impl<M: Mark> Eq for MarkedName<M> {
    ghost laws = { nat_list_eq_equiv };
}

impl<M: Mark> PartialOrd for MarkedName<M> {
    ghost partial_cmp = { λ a b. Some (slice_cmp nat_cmp a b) };

    ghost laws = { texts_po };

    fn partial_cmp(&self, other: &Self) -> Option<Ordering> {
        Some(self.cmp(other))
    }
}

impl<M: Mark> Ord for MarkedName<M> {
    ghost cmp = { λ a b. slice_cmp nat_cmp a b };

    ghost total = { nat_list_cmp_total };

    ghost matches_partial_cmp = { λ a b. refl };

    ghost matches_eq = { texts_ties };

    fn cmp(&self, other: &Self) -> Ordering {
        self.text().cmp(other.text())
    }
}

ghost use Rattle.std.specs.Prelude.{◌≡◌, ◌∷◌, ◌++◌, ◌↔◌, ℕ, List, [], true, IfSome, IsSome, IsTrue};
ghost use Rattle.zst_model.specs.fields.Guids.{is_rising, IsGuidSet};

use arrayvec::ArrayVec;
use std::marker::Model;

/// At most sixteen guids, rising.
#[derive(Drop)]
pub struct GuidSet {
    guids: ArrayVec<u64, 16>,
}

impl Model for GuidSet {
    ghost Value = { List ℕ };

    ghost view = { λ s. s.guids.items };

    ghost invariant = { λ s. IsGuidSet s.guids.items };
}

impl GuidSet {
    /// The set of no guids.
    pub fn empty() -> GuidSet
        ensures { result ≡ [] }
    {
        GuidSet {
            guids: ArrayVec::new(),
        }
    }

    /// The set of these guids, where they rise and are no more than a set takes.
    pub fn from_slice(guids: &[u64]) -> Option<GuidSet>
        ensures found { IfSome result (λ set. set ≡ guids.now) }
        ensures exact { IsSome result ↔ IsGuidSet guids.now }
    {
        let mut set = GuidSet::empty();
        for guid in guids {
            if !set.insert_last(*guid) {
                return None;
            }
        }
        Some(set)
    }

    /// The guids, rising.
    pub fn as_slice(&self) -> &[u64]
        ensures same { result.now ≡ self.now }
        ensures set { IsGuidSet self.now }
    {
        self.guids.as_slice()
    }

    /// The same set, which takes no memory.
    pub fn duplicate(&self) -> GuidSet
        ensures { result ≡ self.now }
    {
        let mut guids = ArrayVec::new();
        let _ = guids.try_extend_from_slice(self.guids.as_slice());
        GuidSet { guids }
    }

    /// Adds a guid above all others, where one more has room. Tells whether it did.
    pub fn insert_last(&mut self, guid: u64) -> bool
        ensures added { IsTrue result → self.new ≡ self.old ++ guid ∷ [] }
        ensures exact { IsTrue result ↔ IsGuidSet (self.old ++ guid ∷ []) }
        ensures set { IsGuidSet self.new }
    {
        if self.guids.is_full() || !rises_to(self.guids.as_slice(), guid) {
            return false;
        }
        self.guids.push(guid);
        true
    }
}

// Whether a guid is above guids that rise.
fn rises_to(guids: &[u64], guid: u64) -> bool
    requires { is_rising guids.now ≡ true }
    ensures { result ≡ is_rising (guids.now ++ guid ∷ []) }
{
    match guids.last() {
        Some(last) => *last < guid,
        None => true,
    }
}

ghost use Rattle.std.specs.Prelude.{◌≡◌, ◌-◌, ◌<◌, ◌≤◌, ◌++◌, ◌∷◌, [], OnOk, if◌then◌else◌, nat_lt};

use std::alloc::{AllocError, Global};
use std::marker::Model;
use zst_space::Extent;

/// Some of the sectors of a pool, by one bit for each. A clause sees the words that have the bits.
#[derive(Drop)]
pub struct Marks {
    words: Vec<u64>,
}

impl Model for Marks {
    ghost use Rattle.std.specs.Prelude.{ℕ, List};

    ghost Value = { List ℕ };

    ghost view = { λ marks. marks.words.items };
}

impl Marks {
    ghost use Rattle.std.specs.Prelude.{◌≡◌, ◌↔◌, ◌⊎◌, ◌+◌, ◌^◌, ◌<◌, ◌≤◌, ℕ, IfOk, IsTrue, length};
    ghost use Rattle.zst_space.specs.FreeSectors.{IsInSome, IsWithin};
    ghost use Rattle.zst_marks.specs.Marks.{IsMarked, HasRoomFor, IsUnmarked, Apart};

    /// Room for so many sectors, none of them marked.
    pub fn new(alloc: Global, sectors: u64) -> Result<Marks, AllocError>
        ensures none { IfOk result (λ marks. (sector : ℕ) → ¬ IsMarked marks sector) }
        ensures room { IfOk result (λ marks. HasRoomFor marks sectors) }
    {
        let words = vec![in alloc; 0; (sectors / 64) as usize + 1]?;
        Ok(Marks { words })
    }

    /// The same marks, once more.
    pub fn copy(&self, alloc: Global) -> Result<Marks, AllocError>
        ensures { IfOk result (λ marks. marks ≡ self.now) }
    {
        let mut words = Vec::new(alloc);
        words.extend_from_slice(&self.words)?;
        Ok(Marks { words })
    }

    /// Marks sectors in a row.
    pub fn mark(&mut self, first: u64, count: u64)
        requires room { HasRoomFor self.old (first + count) }
        requires small { first + count < 2 ^ 64 }
        ensures marked { (sector : ℕ) → IsMarked self.new sector ↔ (IsWithin first count sector ⊎ IsMarked self.old sector) }
        ensures room { length self.new ≡ length self.old }
    {
        for k in 0..count {
            self.mark_one(first + k);
        }
    }

    // Marks one sector.
    fn mark_one(&mut self, sector: u64)
        requires { HasRoomFor self.old (sector + 1) }
        ensures marked { (other : ℕ) → IsMarked self.new other ↔ ((other ≡ sector) ⊎ IsMarked self.old other) }
        ensures room { length self.new ≡ length self.old }
    {
        let i = (sector / 64) as usize;
        self.words[i] |= 1 << (sector % 64);
    }

    /// Whether a sector is marked.
    pub fn has(&self, sector: u64) -> bool
        requires { HasRoomFor self.now (sector + 1) }
        ensures { IsTrue result ↔ IsMarked self.now sector }
    {
        let word = self.words[(sector / 64) as usize];
        word >> (sector % 64) & 1 == 1
    }

    /// The extents of the sectors from one on and below another that aren't marked: they rise, and no
    /// two of them touch.
    pub fn unmarked(&self, alloc: Global, from: u64, end: u64) -> Result<Vec<Extent>, AllocError>
        requires room { HasRoomFor self.now end }
        requires order { from ≤ end }
        ensures rise { IfOk result (λ extents. Apart from extents.items end) }
        ensures are { IfOk result (λ extents. (sector : ℕ) → IsInSome extents.items sector ↔ IsUnmarked self.now from end sector) }
    {
        let mut extents = Vec::new(alloc);
        // What isn't marked from here on, up to the sector that is looked at.
        let mut first = from;
        for sector in from..end {
            if self.has(sector) {
                put(&mut extents, first, sector)?;
                first = sector + 1;
            }
        }
        put(&mut extents, first, end)?;
        Ok(extents)
    }
}

// Puts the sectors from one on and below another as an extent, where there are any.
fn put(extents: &mut Vec<Extent>, first: u64, below: u64) -> Result<(), AllocError>
    requires { first ≤ below }
    ensures { OnOk result (extents.new.items ≡ extents.old.items ++ (if nat_lt first below then record { first = first; count = below - first } ∷ [] else [])) }
{
    if first < below {
        extents.push(Extent {
            first,
            count: below - first,
        })?;
    }
    Ok(())
}

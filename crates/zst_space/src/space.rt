ghost use Rattle.std.specs.Prelude.{◌≡◌};
ghost use Rattle.zst_space.specs.FreeSectors.{greatest};

use std::alloc::{AllocError, Global};
use std::marker::Model;

/// Sectors in a row.
#[derive(Clone, Copy, Debug, PartialEq, Eq)]
pub struct Extent {
    /// The first sector.
    pub first: u64,
    /// How many sectors.
    pub count: u64,
}

/// No free extent has `need` sectors: the longest one has `largest`. What is free from the end on
/// counts as one.
#[derive(Clone, Copy, Debug, PartialEq, Eq)]
pub struct SpaceFault {
    pub need: u64,
    pub largest: u64,
}

/// The free sectors of a pool: those of the free extents, and all from `end` on.
#[derive(Drop)]
pub struct Space {
    end: u64,
    sectors: u64,
    free: Vec<Extent>,
}

impl Model for Space {
    ghost use Rattle.zst_space.specs.FreeSectors.{FreeSectors};

    ghost Value = { FreeSectors };

    ghost view = { λ s. record { end = s.end; sectors = s.sectors; free = s.free.items } };
}

impl Space {
    ghost use Rattle.std.specs.Prelude.{◌≡◌, ◌↔◌, ◌+◌, ◌-◌, ◌<◌, ◌≤◌, ◌==◌, ℕ, length, nat_le, IfOk, OnOk, OnErr, IfErr, IsOk, IsErr, slice_index_or};
    ghost use Rattle.std.specs.List.{position, remove};
    ghost use Rattle.std.specs.Prelude.{slice_set, if◌then◌else◌};
    ghost use Rattle.zst_space.specs.FreeSectors.{FreeSectors, IsSpace, IsSpaceFrom, largest_of, room};
    ghost use Rattle.zst_space.specs.TakenExtents.{Takes, place_of, without};

    /// The sectors of a pool of so many, of which those of the free extents and all from `end` on
    /// are free.
    pub fn new(end: u64, sectors: u64, free: Vec<Extent>) -> Space
        ensures { result ≡ record { end = end; sectors = sectors; free = free.items } }
    {
        Space { end, sectors, free }
    }

    /// The sector from which on all are free.
    pub fn end(&self) -> u64
        ensures { result ≡ self.now.end }
    {
        self.end
    }

    /// The free extents below the end.
    pub fn extents(&self) -> &[Extent]
        ensures { result.now ≡ self.now.free }
    {
        &self.free
    }

    /// The same sectors, once more.
    pub fn copy(&self, alloc: Global) -> Result<Space, AllocError>
        ensures { IfOk result (λ space. space ≡ self.now) }
    {
        let mut free = Vec::new(alloc);
        free.extend_from_slice(&self.free)?;
        Ok(Space {
            end: self.end,
            sectors: self.sectors,
            free,
        })
    }

    /// How many sectors in a row are free at most, in an extent or from `end` on.
    pub fn largest(&self) -> u64
        requires { IsSpace self.now }
        ensures { result ≡ largest_of self.now }
    {
        greatest_of(&self.free, self.sectors - self.end)
    }

    /// Takes `count` sectors in a row and gives the first one. They stand in the first free extent
    /// that has so many, and else at `end`.
    pub fn take(&mut self, count: u64) -> Result<u64, SpaceFault>
        requires { IsSpace self.old }

        // They are the front of the first extent that has so many, or stand at the end, and are free no longer.
        ensures first { IfOk result (λ first. first ≡ place_of self.old count) }
        ensures after { OnOk result (self.new ≡ without self.old count) }
        ensures takes { IfOk result (λ first. Takes self.old self.new first count) }

        // Where none is long enough, nothing changes.
        ensures fits { IsOk result ↔ (count ≤ largest_of self.old) }
        ensures full { IfErr result (λ full. full ≡ record { need = count; largest = largest_of self.old }) }
        ensures unchanged { OnErr result (self.new ≡ self.old) }

        ensures kept { (from : ℕ) → IsSpaceFrom from self.old → IsSpaceFrom from self.new }
    {
        let largest = self.largest();
        if largest < count {
            return Err(SpaceFault {
                need: count,
                largest,
            });
        }
        match self.fitting(count) {
            Some(i) => Ok(self.cut(i, count)),
            None => Ok(self.pass_end(count)),
        }
    }

    // The first free extent that has so many sectors.
    fn fitting(&self, count: u64) -> Option<usize>
        ensures { result ≡ position (λ e. nat_le count e.count) self.now.free }
    {
        self.free.iter().position(|extent| count <= extent.count)
    }

    // Takes the first sectors of the first free extent that has so many.
    fn cut(&mut self, i: usize, count: u64) -> u64
        requires space { IsSpace self.old }
        requires fits { position (λ e. nat_le count e.count) self.old.free ≡ Some i }
        ensures first { result ≡ place_of self.old count }
        ensures after { self.new ≡ without self.old count }
    {
        prove!(self.end <= self.sectors);
        let extent = self.free[i];
        if extent.count == count {
            self.free.remove(i);
        } else {
            self.free[i] = Extent {
                first: extent.first + count,
                count: extent.count - count,
            };
        }
        extent.first
    }

    // Takes sectors from the end on, where no free extent has so many.
    fn pass_end(&mut self, count: u64) -> u64
        requires none { position (λ e. nat_le count e.count) self.old.free ≡ None }
        requires room { self.old.end + count ≤ self.old.sectors }
        ensures first { result ≡ place_of self.old count }
        ensures after { self.new ≡ without self.old count }
    {
        prove!(self.end <= self.sectors);
        let first = self.end;
        self.end += count;
        first
    }
}

// The greatest count of the extents, or this one.
fn greatest_of(extents: &[Extent], least: u64) -> u64
    ensures { result ≡ greatest extents.now least }
{
    let mut largest = least;
    for extent in extents {
        largest = largest.max(extent.count);
    }
    largest
}

ghost use Rattle.std.specs.Prelude.{◌≡◌, ◌↔◌, ◌⊎◌, [], nat_eq, Contains, IsTrue, false};
ghost use Rattle.lru.specs.LruCache.{lru_cache, promoted, put_entries};
ghost use Rattle.zst_block.specs.KeptBlocks.{KeepsNone, IsApart, AreApart};

use crate::boxed_node::BoxedNode;
use crate::node::Node;
use lru::LruCache;
use std::alloc::Global;
use std::marker::Model;
use std::num::NonZeroUsize;

// How many blocks are kept at most: half a megabyte, 64 * 8,192 bytes. A path through a tree has at
// most 15 nodes, so the paths of an object set and of an object in it stay beside those of another.
const MOST: usize = 64;

/// Blocks of 8,192 bytes that were read or saved, by their first sectors. A clause sees the pairs,
/// the most recently used first.
#[derive(Drop)]
pub struct Cache {
    // None where no memory was left: nothing is kept then. Nodes stand in boxes, since an entry is moved.
    blocks: Option<LruCache<u64, BoxedNode>>,
    alloc: Global,
}

impl Model for Cache {
    ghost use Rattle.std.specs.Prelude.{◌≡◌, ℕ, List, [], IfSome};
    ghost use Rattle.std.specs.Option.{option_map_or};

    ghost Value = { List (ℕ × List ℕ) };

    ghost view = { λ cache. option_map_or (λ blocks. blocks.entries) cache.blocks [] };

    ghost invariant = { λ cache. IfSome cache.blocks (λ blocks. blocks.cap ≡ 64) };
}

impl Cache {
    ghost use Rattle.std.specs.Prelude.{◌≡◌, ◌↔◌, [], nat_eq, Contains, IsTrue, false};
    ghost use Rattle.lru.specs.LruCache.{promoted};
    ghost use Rattle.zst_block.specs.KeptBlocks.{KeepsNone, AreApart, Keeps, Forgets};

    /// No block, and room for `MOST`, or for none where no memory is left.
    pub(crate) fn new(alloc: Global) -> Cache
        ensures { result ≡ [] }
    {
        let room = NonZeroUsize::new(MOST).unwrap();
        Cache {
            blocks: LruCache::new(alloc, room).ok(),
            alloc,
        }
    }

    /// Gives the block that is kept of a sector, which is then the last to be forgotten.
    pub(crate) fn give(&mut self, sector: u64, into: &mut Node) -> bool
        ensures given { IsTrue result → Contains self.old (sector, into.new) }
        ensures missed { result ≡ false → KeepsNone self.old sector }
        ensures untouched { result ≡ false → into.new ≡ into.old }
        // The block that is given goes first, and all others stay.
        ensures order { self.new ≡ promoted (nat_eq sector) self.old }
    {
        let Some(blocks) = &mut self.blocks else {
            return false;
        };
        give_from(blocks, sector, into)
    }

    /// Keeps a block, unless no memory is left for one more.
    pub(crate) fn keep(&mut self, sector: u64, node: &Node)
        ensures { Keeps self.old self.new sector node.now }
    {
        if let Some(blocks) = &mut self.blocks {
            keep_in(blocks, self.alloc, sector, node);
        }
    }

    /// Forgets each block that meets these sectors in a row: all blocks, where there is one.
    pub(crate) fn forget(&mut self, first: u64, count: u64)
        ensures { Forgets self.old self.new first count }
    {
        if self.meets(first, count) {
            self.clear();
        }
    }

    // Whether a block that is kept meets these sectors.
    fn meets(&self, first: u64, count: u64) -> bool
        ensures { (result ≡ false) ↔ AreApart self.now first count }
    {
        match &self.blocks {
            Some(blocks) => meets_in(blocks, first, count),
            None => false,
        }
    }

    /// Forgets all blocks.
    pub(crate) fn clear(&mut self)
        ensures { self.new ≡ [] }
    {
        if let Some(blocks) = &mut self.blocks {
            blocks.clear();
        }
    }
}

// Gives the block of a sector from those that are kept.
fn give_from(blocks: &mut LruCache<u64, BoxedNode>, sector: u64, into: &mut Node) -> bool
    ensures given { IsTrue result → Contains blocks.old.entries (sector, into.new) }
    ensures missed { result ≡ false → KeepsNone blocks.old.entries sector }
    ensures untouched { result ≡ false → into.new ≡ into.old }
    ensures order { blocks.new ≡ lru_cache (promoted (nat_eq sector) blocks.old.entries) blocks.old.cap }
{
    match blocks.get(&sector) {
        Some(node) => {
            into.put_bytes(0, node.as_slice());
            true
        }
        None => false,
    }
}

// Keeps a copy of a block, unless no memory is left for one more.
fn keep_in(blocks: &mut LruCache<u64, BoxedNode>, alloc: Global, sector: u64, node: &Node)
    ensures { (blocks.new ≡ lru_cache (put_entries nat_eq blocks.old sector node.now) blocks.old.cap) ⊎ ((blocks.new ≡ blocks.old) × KeepsNone blocks.old.entries sector) ⊎ (blocks.new ≡ lru_cache [] blocks.old.cap) }
{
    let mut copy = Node::new();
    copy.put_bytes(0, node.as_slice());
    let Ok(copy) = BoxedNode::new(alloc, copy) else {
        blocks.clear();
        return;
    };
    match blocks.put(sector, copy) {
        Ok(_) => {}
        Err(_) => {}
    }
}

// Whether one of the blocks that are kept meets these sectors.
fn meets_in(blocks: &LruCache<u64, BoxedNode>, first: u64, count: u64) -> bool
    ensures { (result ≡ false) ↔ AreApart blocks.now.entries first count }
{
    for (sector, _) in blocks.iter() {
        if !is_apart(*sector, first, count) {
            return true;
        }
    }
    false
}

// Whether the 16 sectors of a block from this one on meet none of these in a row.
fn is_apart(sector: u64, first: u64, count: u64) -> bool
    ensures { IsTrue result ↔ IsApart sector first count }
{
    if sector < first {
        16 <= first - sector
    } else {
        count <= sector - first
    }
}

// A range of indices gets one leaf, on a copy of the path or of the two paths to its ends.
ghost use Rattle.std.specs.Prelude.{◌≡◌, ◌⊎◌, ◌+◌, ◌-◌, ◌*◌, ◌<◌, ◌≤◌, ℕ, List, IfOk, OnOk, true, false, length};
ghost use Rattle.zst_space.specs.FreeSectors.{FreeSectors};
ghost use Rattle.zst_block.specs.Blocks.{SparesTaken};
ghost use Rattle.zst_block.specs.IoStates.{IsHonest, blocks_of, disk_of, io_of, IsSparedBy};
ghost use Rattle.zst_block.specs.Ptr.{is_flat, is_lawful};
ghost use Rattle.zst_block.specs.IoCalls.{Looks, Works, stop_of};
ghost use Rattle.zst_block.specs.declared.ptr.Ptr.{Ptr};
ghost use Rattle.zst_tree.specs.Damage.{HangsBelow, IsBelow, IsSummedBelow, IsWithin, MayHave, NamesDamage, NamesNode, SumsUp};
ghost use Rattle.zst_tree.specs.Indices.{Map, child, span, greatest, kind_over, Same, Subtree, SameBeside, Changed, Delivers};
ghost use Rattle.zst_tree.specs.Changes.{PutsChild, FillsChildren, IsPutRoot, Parts, SplitsRange, most};

use crate::nodes::{child_at, load_node};
use crate::spans::{place_of, span_of};
use zst_block::{BlockFault, Io, Node, Ptr, save};
use zst_outside::Disk;

/// Puts a pointer at one place of a node.
pub fn put_child(node: &mut Node, k: usize, ptr: &Ptr)
    requires { k < 128 }
    ensures puts { PutsChild node.old node.new k ptr.now }
    ensures before { length node.old ≡ 8192 }
{
    node.put_child(k, ptr);
}

// Puts one pointer at each place of a range of a node.
pub(crate) fn fill(node: &mut Node, from: usize, below: usize, ptr: &Ptr)
    requires order { from ≤ below }
    requires below { below ≤ 128 }
    ensures fills { FillsChildren node.old node.new from below ptr.now }
    ensures long { from < below → length node.new ≡ 8192 }
    ensures still_long { length node.old ≡ 8192 → length node.new ≡ 8192 }
{
    for k in from..below {
        put_child(node, k, ptr);
    }
}

// Fills the node with the pointers below this one.
pub(crate) fn open<D: Disk>(io: &mut Io<'_, D>, level: u8, ptr: Ptr) -> Result<(), BlockFault>
    requires inner { 0 < level }
    ensures parts { (base : ℕ) (map : Map) → IsHonest io.new → Subtree (blocks_of io.old) level ptr base map → Delivers (λ done. Parts (blocks_of io.old) (level - 1) io.new.node base map) result }
    ensures below { IsHonest io.new → OnOk result ((k : ℕ) → k < 128 → IsBelow (IsSparedBy io.old) (disk_of io.old).size NamesNode level ptr (IsSparedBy io.old) (level - 1) (child io.new.node k)) }
    ensures sums { IsHonest io.new → OnOk result ((k : ℕ) → k < 128 → IsSummedBelow (IsSparedBy io.old) (disk_of io.old).size level ptr (IsSparedBy io.old) (level - 1) (child io.new.node k)) }
    ensures hangs { IsHonest io.new → OnOk result ((k : ℕ) → k < 128 → (found : Ptr) → HangsBelow (MayHave (IsSparedBy io.old)) (level - 1) (child io.new.node k) found → HangsBelow (MayHave (IsSparedBy io.old)) level ptr found) }
    ensures damaged { IsHonest io.new → NamesDamage (IsSparedBy io.old) (disk_of io.old).size NamesNode level ptr result }
    ensures looks { Looks (io_of io.old) (io_of io.new) (stop_of result) }
{
    if ptr.is_flat() {
        fill(&mut io.node, 0, 128, &ptr);
        return Ok(());
    }
    load_node(io, level, ptr)
}

// What a pointer to a node says of it.
#[derive(Clone, Copy)]
pub(crate) struct Summary {
    pub kind: u8,
    pub number: u64,
}

fn summary_of(node: &Node) -> Summary
    ensures number { result.number ≡ greatest node.now 128 }
    ensures kind { result.kind ≡ kind_over node.now }
{
    let mut number = 0;
    let mut some = false;
    for k in 0..128 {
        let child = child_at(node, k);
        number = child.number.max(number);
        let present = child.is_present();
        some = present | some;
    }
    Summary {
        kind: if some { 3 } else { 4 },
        number,
    }
}

// Writes the node into free sectors.
pub(crate) fn close<D: Disk>(io: &mut Io<'_, D>, level: u8) -> Result<Ptr, BlockFault>
    requires inner { 0 < level }
    ensures whole { (base : ℕ) (map : Map) → Parts (blocks_of io.old) (level - 1) io.old.node base map → Delivers (λ made. Subtree (blocks_of io.new) level made base map) result }
    ensures wrote { IfOk result (λ made. blocks_of io.new made io.old.node) }
    ensures names { IfOk result (NamesNode level) }
    ensures sums { IfOk result (SumsUp (IsSparedBy io.new) level) }
    ensures never_damaged { (sector : ℕ) (stated found : List ℕ) → ¬ (result ≡ Err (BlockFault.Damaged sector stated found)) }
    ensures works { Works 16 16 (io_of io.old) (io_of io.new) (stop_of result) }
{
    let summary = summary_of(&io.node);
    let ptr = save(io, level, summary.number)?;
    Ok(Ptr {
        kind: summary.kind,
        ..ptr
    })
}

// One child is put in place of another.
pub(crate) fn mend_one<D: Disk>(
    io: &mut Io<'_, D>,
    level: u8,
    ptr: Ptr,
    child: usize,
    new: Ptr,
) -> Result<Ptr, BlockFault>
    requires inner { 0 < level }
    requires child { child < 128 }
    ensures mended { (base : ℕ) (map put : Map) → IsHonest io.new → Subtree (blocks_of io.old) level ptr base map
        → Subtree (blocks_of io.old) (level - 1) new (base + child * span (level - 1)) put
        → SameBeside map put base (base + child * span (level - 1)) (base + child * span (level - 1) + span (level - 1)) (base + span level)
        → Delivers (λ made. Subtree (blocks_of io.new) level made base put) result }
    ensures damaged { IsHonest io.new → NamesDamage (IsSparedBy io.old) (disk_of io.old).size NamesNode level ptr result }
    ensures names { IfOk result (NamesNode level) }
    ensures within { (leaf : Ptr) (image : List ℕ) (space : FreeSectors) → IsHonest io.new → ((c : List ℕ) → IsSparedBy io.old c → SparesTaken space image c)
        → IsWithin (SparesTaken space image) (disk_of io.old).size level ptr leaf (IsSparedBy io.old) (level - 1) new
        → IfOk result (IsWithin (SparesTaken space image) (disk_of io.old).size level ptr leaf (IsSparedBy io.new) level) }
    ensures sums { (image : List ℕ) (space : FreeSectors) → IsHonest io.new → ((c : List ℕ) → IsSparedBy io.old c → SparesTaken space image c)
        → IsSummedBelow (SparesTaken space image) (disk_of io.old).size level ptr (IsSparedBy io.old) (level - 1) new
        → IfOk result (IsSummedBelow (SparesTaken space image) (disk_of io.old).size level ptr (IsSparedBy io.new) level) }
    ensures works { Works 16 16 (io_of io.old) (io_of io.new) (stop_of result) }
{
    open(io, level, ptr)?;
    put_child(&mut io.node, child, &new);
    close(io, level)
}

// The first and the last child that a range reaches, and what is put in their place.
#[derive(Clone, Copy)]
struct ChildPair {
    low: usize,
    new_low: Ptr,
    high: usize,
    new_high: Ptr,
}

// Two children are put in place of others, and one leaf between them.
fn mend_two<D: Disk>(
    io: &mut Io<'_, D>,
    level: u8,
    ptr: Ptr,
    mend: ChildPair,
    leaf: Ptr,
) -> Result<Ptr, BlockFault>
    requires inner { 0 < level }
    requires order { mend.low < mend.high }
    requires high { mend.high < 128 }
    requires flat { is_flat leaf ≡ true }
    requires lawful { is_lawful leaf ≡ true }
    ensures mended { (base : ℕ) (map put : Map) → IsHonest io.new → Subtree (blocks_of io.old) level ptr base map
        → Subtree (blocks_of io.old) (level - 1) mend.new_low (base + mend.low * span (level - 1)) put
        → Subtree (blocks_of io.old) (level - 1) mend.new_high (base + mend.high * span (level - 1)) put
        → SameBeside map put base (base + mend.low * span (level - 1)) (base + mend.high * span (level - 1) + span (level - 1)) (base + span level)
        → Same put (base + mend.low * span (level - 1) + span (level - 1)) (base + mend.high * span (level - 1)) leaf
        → Delivers (λ made. Subtree (blocks_of io.new) level made base put) result }
    ensures damaged { IsHonest io.new → NamesDamage (IsSparedBy io.old) (disk_of io.old).size NamesNode level ptr result }
    ensures names { IfOk result (NamesNode level) }
    ensures within { (image : List ℕ) (space : FreeSectors) → IsHonest io.new → ((c : List ℕ) → IsSparedBy io.old c → SparesTaken space image c)
        → IsWithin (SparesTaken space image) (disk_of io.old).size level ptr leaf (IsSparedBy io.old) (level - 1) mend.new_low
        → IsWithin (SparesTaken space image) (disk_of io.old).size level ptr leaf (IsSparedBy io.old) (level - 1) mend.new_high
        → IfOk result (IsWithin (SparesTaken space image) (disk_of io.old).size level ptr leaf (IsSparedBy io.new) level) }
    ensures works { Works 16 16 (io_of io.old) (io_of io.new) (stop_of result) }
{
    open(io, level, ptr)?;
    put_child(&mut io.node, mend.low, &mend.new_low);
    fill(&mut io.node, mend.low + 1, mend.high, &leaf);
    put_child(&mut io.node, mend.high, &mend.new_high);
    close(io, level)
}

// Whether a range is all that stands below a pointer.
fn is_whole(level: u8, first: u64, below: u64) -> bool
    requires level { level ≤ 7 }
    requires some { first < below }
    requires below { below ≤ span level }
    ensures whole { result ≡ true → (first ≡ 0) × (below ≡ span level) }
    ensures part { result ≡ false → (0 < level) × ((first ≡ 0) → below < span level) }
{
    first == 0 && below == span_of(level)
}

// Where a range begins and ends: the first child and the last, and offsets below them.
#[derive(Clone, Copy)]
struct Ends {
    low: usize,
    first: u64,
    high: usize,
    below: u64,
}

fn ends_of(level: u8, first: u64, below: u64) -> Ends
    requires level { level ≤ 7 }
    requires inner { 0 < level }
    requires some { first < below }
    requires below { below ≤ span level }
    requires part { (first ≡ 0) → below < span level }
    ensures { SplitsRange level first below result }
{
    let left = place_of(level, first);
    let right = place_of(level, below - 1);
    Ends {
        low: left.child,
        first: left.rest,
        high: right.child,
        below: right.rest + 1,
    }
}

// Gives the leaf to the offsets of a range below a pointer, and gives the pointer to what is then
// there.
pub(crate) fn put_in<D: Disk>(
    io: &mut Io<'_, D>,
    level: u8,
    ptr: Ptr,
    first: u64,
    below: u64,
    leaf: Ptr,
) -> Result<Ptr, BlockFault>
    requires level { level ≤ 7 }
    requires some { first < below }
    requires below { below ≤ span level }
    requires leaf { (is_flat leaf ≡ true) ⊎ (below ≡ first + 1) }
    requires lawful { is_lawful leaf ≡ true }
    ensures put { (base : ℕ) (map put : Map) → IsHonest io.new → Subtree (blocks_of io.old) level ptr base map
        → Changed map put base (base + first) (base + below) (base + span level) leaf
        → Delivers (λ made. Subtree (blocks_of io.new) level made base put) result }
    ensures damaged { IsHonest io.new → NamesDamage (IsSparedBy io.old) (disk_of io.old).size NamesNode level ptr result }
    ensures root { IfOk result (IsPutRoot level leaf) }
    ensures within { IsHonest io.new → IfOk result (IsWithin (IsSparedBy io.old) (disk_of io.old).size level ptr leaf (IsSparedBy io.new) level) }
    ensures works { Works (16 * most level first below) 16 (io_of io.old) (io_of io.new) (stop_of result) }
{
    if is_whole(level, first, below) {
        return Ok(leaf);
    }
    let ends = ends_of(level, first, below);
    open(io, level, ptr)?;
    let low = child_at(&io.node, ends.low);
    if ends.low == ends.high {
        let made = put_in(io, level - 1, low, ends.first, ends.below, leaf)?;
        return mend_one(io, level, ptr, ends.low, made);
    }
    let high = child_at(&io.node, ends.high);
    let part = span_of(level - 1);
    let new_low = put_in(io, level - 1, low, ends.first, part, leaf)?;
    let new_high = put_in(io, level - 1, high, 0, ends.below, leaf)?;
    let mend = ChildPair {
        low: ends.low,
        new_low,
        high: ends.high,
        new_high,
    };
    mend_two(io, level, ptr, mend, leaf)
}

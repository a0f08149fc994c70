ghost use Rattle.std.specs.Prelude.{◌≡◌, ◌/◌, ◌+◌, ◌<◌, ◌≤◌, ℕ, true, List, length, IfErr, IfOk, IfSome, OnOk, Some};
ghost use Rattle.zst_space.specs.FreeSectors.{FreeSectors};
ghost use Rattle.zst_block.specs.Blocks.{Has};
ghost use Rattle.zst_block.specs.IoStates.{IsHonest, blocks_of, disk_of, io_of, IsSparedBy};
ghost use Rattle.zst_block.specs.IoCalls.{Looks};
ghost use Rattle.zst_block.specs.declared.ptr.Ptr.{Ptr};
ghost use Rattle.zst_dnode.specs.Dnode.{DnodeFits};
ghost use Rattle.zst_dnode.specs.Slot.{SlotFits};
ghost use Rattle.zst_model.specs.pools.Pool.{untouched};
ghost use Rattle.zst_model.specs.pools.Soundness.{DatedUpTo};
ghost use Rattle.zst_model.specs.states.DatedState.{DatedState};
ghost use Rattle.zst_model.specs.declared.refusals.faults.Quantity.TheVariants as quantities;
ghost use Rattle.zst_model.specs.states.State.{Object, IsHead, index_bound, is_spill_size, largest_bonus, number_bound};
ghost use Rattle.zst_tree.specs.Damage.{IsSeen, NamesNode, SumsUp};
ghost use Rattle.zst_tree.specs.Indices.{Blocks};
ghost use Rattle.zst_tree.specs.Steps.{LooksAtMost};
ghost use Rattle.zst_objset.specs.Answers.{Changes, FindsObject, FindsSlot, IsOfBlock, LimitOnly, NotLimit, ReadsBlock, stop_of};
ghost use Rattle.zst_objset.specs.Changes.{block_written, found_at, holes_made, object_put, objects_freed, range_redacted, spill_put};
ghost use Rattle.zst_objset.specs.Damage.{DamageFact, IfSetDamaged, TellsWithin};
ghost use Rattle.zst_objset.specs.Searches.{FindsNext};
ghost use Rattle.zst_objset.specs.SetChanges.{ChangesSet, ChangesTightSet};

use crate::fault::ObjFault;
use zst_block::Io;
use zst_dnode::{Dnode, Slot};
use zst_model::{Cell, ObjectHead};
use zst_outside::Disk;

/// A set of objects over the blocks of a disk.
///
/// What a call makes of the dated state that the set holds is what the definition of that name
/// makes of it. It is refused as the definition is, is full only where the definition accepts, and
/// finds no damage where the set is held. Which damage it may tell, where the set isn't held, is a
/// member of the trait. At a refusal the set is as it was.
pub trait Objects<D: Disk> {
    /// The set holds this dated state, over the blocks that are there. Of `ObjSet` the laws of what
    /// is held are clauses of `sets_hold_states`.
    ghost holds: { Self → Blocks → DatedState → Type 0 };

    /// It holds the state tightly: no slot of it tells a later date than its number or one of its
    /// indices has, and no pointer a later one than all that the state has. Each change keeps it so,
    /// of a state that is dated up to the change's number.
    ghost tight: { Self → Blocks → DatedState → Type 0 };

    /// The set fits the bytes in which it is named: its levels aren't too many.
    ghost fits: { Self → Type 0 };

    /// A damage may be told by a call that looks at the slots of a set, where these images may stand
    /// on a disk of so many bytes.
    ghost slot_damage: { (List ℕ → Type 0) → ℕ → Self → DamageFact };

    /// By one that also looks at the tree of an object or changes it, where the pointers of its nodes
    /// have to be right. After a change no more may be told than before it.
    ghost tree_damage: { (List ℕ → Type 0) → ℕ → (ℕ → Ptr → Type 0) → Self → DamageFact };

    /// By one that also reads a block of an object, of so many bytes.
    ghost block_damage: { (List ℕ → Type 0) → ℕ → ℕ → Self → DamageFact };

    /// The set of no objects, which nothing touched.
    fn empty() -> Self
        ensures held { (image : List ℕ) (space : FreeSectors) → holds result (Has image space) untouched }
        ensures tight { (image : List ℕ) (space : FreeSectors) → tight result (Has image space) untouched }
        ensures levels { fits result };

    /// The dnode of an object.
    fn attr(&self, io: &mut Io<'_, D>, object: u64) -> Result<Option<Dnode>, ObjFault>
        requires object { 0 < object }
        ensures found { (state : DatedState) → IsHonest io.new → holds self.now (blocks_of io.old) state
            → FindsObject (blocks_of io.new) state object result }
        ensures ranges { IfOk result (λ found. IfSome found DnodeFits) }
        ensures known { IfErr result IsOfBlock }
        ensures damaged { IsHonest io.new → IfSetDamaged result (slot_damage (IsSeen (disk_of io.old).seen) (disk_of io.old).size self.now) }
        ensures looks { LooksAtMost 8 (io_of io.old) (io_of io.new) (stop_of result) };

    /// What stands at a number: of an absent one its date.
    fn slot(&self, io: &mut Io<'_, D>, object: u64) -> Result<Slot, ObjFault>
        requires object { (0 < object) × (object < number_bound) }
        ensures found { (state : DatedState) → IsHonest io.new → holds self.now (blocks_of io.old) state
            → FindsSlot (blocks_of io.new) state object result }
        ensures ranges { IfOk result SlotFits }
        ensures known { IfErr result IsOfBlock }
        ensures damaged { IsHonest io.new → IfSetDamaged result (slot_damage (IsSeen (disk_of io.old).seen) (disk_of io.old).size self.now) }
        ensures looks { LooksAtMost 8 (io_of io.old) (io_of io.new) (stop_of result) };

    /// The first object from a number on, with its number. A run of holes costs one look.
    fn next_object(&self, io: &mut Io<'_, D>, from: u64) -> Result<Option<(u64, Dnode)>, ObjFault>
        requires from { 0 < from }
        ensures found { (state : DatedState) → IsHonest io.new → holds self.now (blocks_of io.old) state
            → FindsNext (blocks_of io.new) state from result }
        ensures ranges { IfOk result (λ found. IfSome found (λ next. (from ≤ next.0) × (next.0 < number_bound) × DnodeFits next.1)) }
        ensures known { IfErr result IsOfBlock }
        ensures damaged { IsHonest io.new → IfSetDamaged result (slot_damage (IsSeen (disk_of io.old).seen) (disk_of io.old).size self.now) }
        ensures looks { Looks (io_of io.old) (io_of io.new) (stop_of result) };

    /// Reads one index of an object, whose blocks are as long as the buffer.
    fn read_block(
        &self,
        io: &mut Io<'_, D>,
        object: u64,
        index: u64,
        into: &mut [u8],
    ) -> Result<Cell, ObjFault>
        requires object { 0 < object }
        ensures read { (state : DatedState) → IsHonest io.new → holds self.now (blocks_of io.old) state
            → ((there : Object) → state.state object ≡ Some there → length into.old ≡ there.attr.block_size)
            → ReadsBlock (found_at object index state) into.new result }
        ensures limits { IfErr result (LimitOnly quantities.Block index_bound (index + 1)) }
        ensures damaged { IsHonest io.new → IfSetDamaged result (block_damage (IsSeen (disk_of io.old).seen) (disk_of io.old).size (length into.old) self.now) }
        ensures looks { LooksAtMost 16 (io_of io.old) (io_of io.new) (stop_of result) };

    /// Allocates an object, or gives it other attributes.
    fn put_object(
        &mut self,
        io: &mut Io<'_, D>,
        object: u64,
        head: ObjectHead,
        bonus: &[u8],
        keep_spill: bool,
        number: u64,
    ) -> Result<(), ObjFault>
        requires object { 0 < object }
        requires head { IsHead head }
        requires bonus { length bonus.now ≤ largest_bonus }
        ensures changes { ChangesTightSet holds tight fits number (object_put number object head bonus.now keep_spill) (LimitOnly quantities.Object number_bound (object + 1))
            (slot_damage (IsSparedBy io.old) (disk_of io.old).size self.old) 640 16 (io_of io.old) (io_of io.new) self.old self.new result }
        ensures within { IsHonest io.new → OnOk result ((sector : ℕ) (stated found : List ℕ) → slot_damage (IsSparedBy io.new) (disk_of io.old).size self.new sector stated found
            → slot_damage (IsSparedBy io.old) (disk_of io.old).size self.old sector stated found) }
        ensures trees { IsHonest io.new → OnOk result (TellsWithin (tree_damage (IsSparedBy io.new) (disk_of io.old).size (SumsUp (IsSparedBy io.new)) self.new) (tree_damage (IsSparedBy io.old) (disk_of io.old).size (SumsUp (IsSparedBy io.old)) self.old)) };

    /// Gives an object another spill block.
    fn put_spill(
        &mut self,
        io: &mut Io<'_, D>,
        object: u64,
        bytes: &[u8],
        number: u64,
    ) -> Result<(), ObjFault>
        requires object { 0 < object }
        requires spill { is_spill_size (length bytes.now) ≡ true }
        ensures changes { ChangesTightSet holds tight fits number (spill_put number object bytes.now) NotLimit
            (slot_damage (IsSparedBy io.old) (disk_of io.old).size self.old) (640 + length bytes.now / 512) (length bytes.now / 512) (io_of io.old) (io_of io.new) self.old self.new result }
        ensures trees { IsHonest io.new → OnOk result (TellsWithin (tree_damage (IsSparedBy io.new) (disk_of io.old).size (SumsUp (IsSparedBy io.new)) self.new) (tree_damage (IsSparedBy io.old) (disk_of io.old).size (SumsUp (IsSparedBy io.old)) self.old)) };

    /// Frees `count` numbers.
    fn free_objects(
        &mut self,
        io: &mut Io<'_, D>,
        first: u64,
        count: u64,
        number: u64,
    ) -> Result<(), ObjFault>
        requires first { 0 < first }
        ensures changes { ChangesSet holds (objects_freed number first count) (LimitOnly quantities.Object number_bound (first + count))
            (slot_damage (IsSparedBy io.old) (disk_of io.old).size self.old) 1280 16 (io_of io.old) (io_of io.new) self.old self.new result }
        ensures tight { (state : DatedState) → IsHonest io.new → tight self.old (blocks_of io.old) state → DatedUpTo number state
            → Changes (tight self.new (blocks_of io.new)) (objects_freed number first count state) result }
        ensures trees { IsHonest io.new → OnOk result (TellsWithin (tree_damage (IsSparedBy io.new) (disk_of io.old).size (SumsUp (IsSparedBy io.new)) self.new) (tree_damage (IsSparedBy io.old) (disk_of io.old).size (SumsUp (IsSparedBy io.old)) self.old)) }
        ensures levels { fits self.old → fits self.new };

    /// Writes the whole block of one index.
    fn write_block(
        &mut self,
        io: &mut Io<'_, D>,
        object: u64,
        index: u64,
        bytes: &[u8],
        number: u64,
    ) -> Result<(), ObjFault>
        requires object { 0 < object }
        ensures changes { ChangesTightSet holds tight fits number (block_written number object index bytes.now) (LimitOnly quantities.Block index_bound (index + 1))
            (tree_damage (IsSparedBy io.old) (disk_of io.old).size NamesNode self.old) (640 + length bytes.now / 512) (length bytes.now / 512) (io_of io.old) (io_of io.new) self.old self.new result }
        ensures trees { IsHonest io.new → OnOk result (TellsWithin (tree_damage (IsSparedBy io.new) (disk_of io.old).size (SumsUp (IsSparedBy io.new)) self.new) (tree_damage (IsSparedBy io.old) (disk_of io.old).size (SumsUp (IsSparedBy io.old)) self.old)) };

    /// Makes holes of `count` indices.
    fn punch(
        &mut self,
        io: &mut Io<'_, D>,
        object: u64,
        first: u64,
        count: u64,
        number: u64,
    ) -> Result<(), ObjFault>
        requires object { 0 < object }
        ensures changes { ChangesTightSet holds tight fits number (holes_made number object first count) (LimitOnly quantities.Block index_bound (first + count))
            (tree_damage (IsSparedBy io.old) (disk_of io.old).size (SumsUp (IsSparedBy io.old)) self.old) 1280 16 (io_of io.old) (io_of io.new) self.old self.new result }
        ensures trees { IsHonest io.new → OnOk result (TellsWithin (tree_damage (IsSparedBy io.new) (disk_of io.old).size (SumsUp (IsSparedBy io.new)) self.new) (tree_damage (IsSparedBy io.old) (disk_of io.old).size (SumsUp (IsSparedBy io.old)) self.old)) };

    /// Redacts `count` indices.
    fn redact_range(
        &mut self,
        io: &mut Io<'_, D>,
        object: u64,
        first: u64,
        count: u64,
        number: u64,
    ) -> Result<(), ObjFault>
        requires object { 0 < object }
        ensures changes { ChangesTightSet holds tight fits number (range_redacted number object first count) (LimitOnly quantities.Block index_bound (first + count))
            (tree_damage (IsSparedBy io.old) (disk_of io.old).size NamesNode self.old) 1280 16 (io_of io.old) (io_of io.new) self.old self.new result }
        ensures trees { IsHonest io.new → OnOk result (TellsWithin (tree_damage (IsSparedBy io.new) (disk_of io.old).size (SumsUp (IsSparedBy io.new)) self.new) (tree_damage (IsSparedBy io.old) (disk_of io.old).size (SumsUp (IsSparedBy io.old)) self.old)) };
}

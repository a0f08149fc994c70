//! Which indices of an object of the snapshot are wanted.
ghost use Rattle.std.specs.Prelude.{◌≤◌, ◌<◌, ◌^◌, ◌∷◌, ℕ, IfOk, IfSome};
ghost use Rattle.std.specs.List.{AllZip};
ghost use Rattle.zst_block.specs.IoStates.{IsHonest, blocks_of, disk_of, io_of};
ghost use Rattle.zst_block.specs.IoCalls.{Looks, stop_of};
ghost use Rattle.zst_dnode.specs.Dnode.{DnodeFits};
ghost use Rattle.zst_model.specs.states.DatedState.{DatedState};
ghost use Rattle.zst_model.specs.states.State.{IsObject, Object};
ghost use Rattle.zst_tree.specs.Damage.{IsSeen};
ghost use Rattle.zst_tree.specs.Indices.{Delivers, Map};
ghost use Rattle.zst_tree.specs.declared.tree.ObjSet.{ObjSet};
ghost use Rattle.zst_objset.specs.Damage.{IfDamaged, StandsIn};
ghost use Rattle.zst_objset.specs.Dnodes.{ObjectIs};
ghost use Rattle.zst_objset.specs.Sets.{SetHolds};
ghost use Rattle.zst_traverse.specs.Damage.{IsDamagedCell};
ghost use Rattle.zst_redact.specs.Damage.{IsDamagedAmong};
ghost use Rattle.zst_redact.specs.Passes.{AheadFits, FindsRunIn, HoldStates, States, RunFitsIn, TellsAhead, are_data};
ghost use Rattle.zst_redact.specs.Wanted.{are_wanted, is_of_kind, sets_beside, wanted_pairs};

use crate::ahead::Ahead;
use crate::late::late_from;
use crate::wanted::Wanted;
use std::sync::ledger::Ledger;
use zst_block::{BlockFault, Io};
use zst_dnode::{Dnode, Slot};
use zst_model::is_user_data;
use zst_objset::{slot_at, tree_of};
use zst_outside::Disk;
use zst_tree::{ObjSet, Steps};

/// The kinds of the pointers of data and of redacted blocks.
const DATA: u8 = 1;

const REDACTED: u8 = 2;

// What lies ahead of an index of an object, where those of a kind are wanted: the indices that are alike
// are passed over together, and told together.
#[tactic(auto, unfolding(zst_model::specs::states::State::index_bound))]
fn kind_from<D: Disk, L: Ledger>(
    io: &mut Io<'_, D>,
    dnode: &Dnode,
    kind: u8,
    from: u64,
    steps: &mut Steps<L>,
) -> Result<Ahead, BlockFault>
    requires kind { 0 < kind }
    requires dnode { DnodeFits dnode.now }
    requires from { from < dnode.now.end }
    ensures tells { (own : Object) (date : ℕ) (dates : ℕ → ℕ) (map : Map) → IsHonest io.new → IsObject own → ObjectIs (blocks_of io.old) dnode.now own date dates map
        → Delivers (TellsAhead (is_of_kind own kind) from) result }
    ensures range { IfOk result (AheadFits from dnode.now.end) }
    ensures damaged { (snap : ObjSet) → IsHonest io.new → StandsIn (IsSeen (disk_of io.old).seen) snap dnode.now → IfDamaged result (IsDamagedCell (IsSeen (disk_of io.old).seen) (disk_of io.old).size snap) }
    ensures looks { Looks (io_of io.old) (io_of io.new) (stop_of result) }
{
    let (ptr, alike) = tree_of(dnode).get(io, from, steps)?;
    if ptr.kind == kind {
        let count = alike.min(dnode.end - from);
        Ok(Ahead::Here(count))
    } else {
        Ok(Ahead::Later(from + alike))
    }
}

// What lies ahead of an index of an object, where data are wanted that each set dates after a number. They
// are told one by one, since each has a date of its own.
#[tactic(auto, unfolding(zst_model::specs::states::State::index_bound))]
fn unkept_from<D: Disk, L: Ledger>(
    io: &mut Io<'_, D>,
    dnode: &Dnode,
    redactions: &[ObjSet],
    number: u64,
    object: u64,
    from: u64,
    steps: &mut Steps<L>,
) -> Result<Ahead, BlockFault>
    requires object { (0 < object) × (object < 2 ^ 48) }
    requires dnode { DnodeFits dnode.now }
    requires from { from < dnode.now.end }
    ensures tells { (own : Object) (date : ℕ) (dates : ℕ → ℕ) (map : Map) (kept : States) → IsHonest io.new → IsObject own → ObjectIs (blocks_of io.old) dnode.now own date dates map
        → AllZip (SetHolds (blocks_of io.old)) redactions.now kept → Delivers (TellsAhead (are_data own number kept object) from) result }
    ensures range { IfOk result (AheadFits from dnode.now.end) }
    ensures damaged { (snap : ObjSet) → IsHonest io.new → StandsIn (IsSeen (disk_of io.old).seen) snap dnode.now → IfDamaged result (IsDamagedAmong (IsSeen (disk_of io.old).seen) (disk_of io.old).size (snap ∷ redactions.now)) }
    ensures looks { Looks (io_of io.old) (io_of io.new) (stop_of result) }
{
    match late_from(io, redactions, number, object, from, steps)? {
        None => Ok(Ahead::Never),
        Some(late) => {
            if late > from {
                return Ok(Ahead::Later(late));
            }
            let ahead = kind_from(io, dnode, DATA, from, steps)?;
            Ok(ahead.first_alone())
        }
    }
}

// What lies ahead of an index of an object.
fn ahead_from<D: Disk, L: Ledger>(
    io: &mut Io<'_, D>,
    dnode: &Dnode,
    wanted: Wanted<'_>,
    object: u64,
    from: u64,
    steps: &mut Steps<L>,
) -> Result<Ahead, BlockFault>
    requires object { (0 < object) × (object < 2 ^ 48) }
    requires dnode { DnodeFits dnode.now }
    requires from { from < dnode.now.end }
    ensures tells { (own : Object) (date : ℕ) (dates : ℕ → ℕ) (map : Map) (kept : States) → IsHonest io.new → IsObject own → ObjectIs (blocks_of io.old) dnode.now own date dates map
        → AllZip (SetHolds (blocks_of io.old)) (sets_beside wanted.entry) kept → Delivers (TellsAhead (are_wanted wanted.entry own kept object) from) result }
    ensures range { IfOk result (AheadFits from dnode.now.end) }
    ensures damaged { (snap : ObjSet) → IsHonest io.new → StandsIn (IsSeen (disk_of io.old).seen) snap dnode.now → IfDamaged result (IsDamagedAmong (IsSeen (disk_of io.old).seen) (disk_of io.old).size (snap ∷ sets_beside wanted.entry)) }
    ensures looks { Looks (io_of io.old) (io_of io.new) (stop_of result) }
{
    match wanted {
        Wanted::Unkept { number, redactions } => {
            unkept_from(io, dnode, redactions, number, object, from, steps)
        }
        Wanted::Redacted => kind_from(io, dnode, REDACTED, from, steps),
    }
}

// The least index of an object from one on that is wanted, and so many from there on that all are.
#[tactic(auto, unfolding(zst_model::specs::states::State::index_bound))]
fn run_from<D: Disk, L: Ledger>(
    io: &mut Io<'_, D>,
    dnode: &Dnode,
    wanted: Wanted<'_>,
    object: u64,
    from: u64,
    steps: &mut Steps<L>,
) -> Result<Option<(u64, u64)>, BlockFault>
    requires object { (0 < object) × (object < 2 ^ 48) }
    requires dnode { DnodeFits dnode.now }
    ensures found { (own : Object) (date : ℕ) (dates : ℕ → ℕ) (map : Map) (kept : States) → IsHonest io.new → IsObject own → ObjectIs (blocks_of io.old) dnode.now own date dates map
        → AllZip (SetHolds (blocks_of io.old)) (sets_beside wanted.entry) kept → Delivers (FindsRunIn (are_wanted wanted.entry own kept object) from (2 ^ 43)) result }
    ensures range { IfOk result (λ found. IfSome found (RunFitsIn from)) }
    ensures damaged { (snap : ObjSet) → IsHonest io.new → StandsIn (IsSeen (disk_of io.old).seen) snap dnode.now → IfDamaged result (IsDamagedAmong (IsSeen (disk_of io.old).seen) (disk_of io.old).size (snap ∷ sets_beside wanted.entry)) }
    ensures looks { Looks (io_of io.old) (io_of io.new) (stop_of result) }
{
    let mut at = from;
    while at < dnode.end {
        match ahead_from(io, dnode, wanted, object, at, steps)? {
            Ahead::Here(count) => return Ok(Some((at, count))),
            Ahead::Later(to) => at = to,
            Ahead::Never => return Ok(None),
        }
    }
    Ok(None)
}

/// The least index of an object of the snapshot from one on that is wanted, and so many from there on that
/// all are.
pub(crate) fn run_in<D: Disk, L: Ledger>(
    io: &mut Io<'_, D>,
    snap: &ObjSet,
    wanted: Wanted<'_>,
    object: u64,
    from: u64,
    steps: &mut Steps<L>,
) -> Result<Option<(u64, u64)>, BlockFault>
    requires object { (0 < object) × (object < 2 ^ 48) }
    ensures found { (state : DatedState) (kept : States) → IsHonest io.new → HoldStates (blocks_of io.old) snap.now (sets_beside wanted.entry) state kept
        → Delivers (FindsRunIn (wanted_pairs wanted.entry state kept object) from (2 ^ 43)) result }
    ensures range { IfOk result (λ found. IfSome found (RunFitsIn from)) }
    ensures damaged { IsHonest io.new → IfDamaged result (IsDamagedAmong (IsSeen (disk_of io.old).seen) (disk_of io.old).size (snap.now ∷ sets_beside wanted.entry)) }
    ensures looks { Looks (io_of io.old) (io_of io.new) (stop_of result) }
{
    let slot = slot_at(snap, io, object)?;
    match slot {
        Slot::Absent { .. } => Ok(None),
        Slot::There(dnode) => {
            if is_user_data(dnode.type_) {
                run_from(io, &dnode, wanted, object, from, steps)
            } else {
                Ok(None)
            }
        }
    }
}

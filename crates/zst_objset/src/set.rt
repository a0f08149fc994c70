//! The object set over a tree of dnodes.
use crate::allocation::put_object;
use crate::answers::{attr, read_block, slot};
use crate::block_writes::write_block;
use crate::changes::put_spill;
use crate::fault::ObjFault;
use crate::freed_numbers::free_objects;
use crate::objects::Objects;
use crate::ranges::{RangeChange, change_range};
use crate::searches::next_object;
use zst_block::Io;
use zst_dnode::{Dnode, Slot};
use zst_model::{Cell, ObjectHead};
use zst_outside::Disk;
use zst_tree::ObjSet;

impl<D: Disk> Objects<D> for ObjSet {
    ghost use Rattle.zst_objset.specs.Damage.{IsDamagedBlock, IsDamagedObject, IsDamagedSet};
    ghost use Rattle.zst_objset.specs.Sets.{SetHolds};
    ghost use Rattle.zst_objset.specs.TightSets.{SetIsTight};
    ghost use Rattle.zst_tree.specs.Sets.{SetFits};

    ghost holds = { λ set has state. SetHolds has set state };

    ghost tight = { λ set has state. SetIsTight has set state };

    ghost fits = { λ set. SetFits set };

    ghost slot_damage = { λ images size set. IsDamagedSet images size set };

    ghost tree_damage = { λ images size right set. IsDamagedObject images size right set };

    ghost block_damage = { λ images size count set. IsDamagedBlock images size count set };

    #[tactic(auto, using(crate::proofs::SetLaws::empty, crate::proofs::TightLaws::tight_empty))]
    fn empty() -> Self {
        ObjSet::empty()
    }

    fn attr(&self, io: &mut Io<'_, D>, object: u64) -> Result<Option<Dnode>, ObjFault> {
        attr(self, io, object)
    }

    #[tactic(auto, unfolding(zst_model::specs::states::State::number_bound))]
    fn slot(&self, io: &mut Io<'_, D>, object: u64) -> Result<Slot, ObjFault> {
        slot(self, io, object)
    }

    #[tactic(auto, unfolding(zst_model::specs::states::State::number_bound))]
    fn next_object(&self, io: &mut Io<'_, D>, from: u64) -> Result<Option<(u64, Dnode)>, ObjFault> {
        next_object(self, io, from)
    }

    fn read_block(
        &self,
        io: &mut Io<'_, D>,
        object: u64,
        index: u64,
        into: &mut [u8],
    ) -> Result<Cell, ObjFault> {
        read_block(self, io, object, index, into)
    }

    fn put_object(
        &mut self,
        io: &mut Io<'_, D>,
        object: u64,
        head: ObjectHead,
        bonus: &[u8],
        keep_spill: bool,
        number: u64,
    ) -> Result<(), ObjFault> {
        put_object(self, io, object, head, bonus, keep_spill, number)
    }

    fn put_spill(
        &mut self,
        io: &mut Io<'_, D>,
        object: u64,
        bytes: &[u8],
        number: u64,
    ) -> Result<(), ObjFault> {
        put_spill(self, io, object, bytes, number)
    }

    fn free_objects(
        &mut self,
        io: &mut Io<'_, D>,
        first: u64,
        count: u64,
        number: u64,
    ) -> Result<(), ObjFault> {
        free_objects(self, io, first, count, number)
    }

    fn write_block(
        &mut self,
        io: &mut Io<'_, D>,
        object: u64,
        index: u64,
        bytes: &[u8],
        number: u64,
    ) -> Result<(), ObjFault> {
        write_block(self, io, object, index, bytes, number)
    }

    fn punch(
        &mut self,
        io: &mut Io<'_, D>,
        object: u64,
        first: u64,
        count: u64,
        number: u64,
    ) -> Result<(), ObjFault> {
        change_range(self, io, object, RangeChange::Punch, first, count, number)
    }

    fn redact_range(
        &mut self,
        io: &mut Io<'_, D>,
        object: u64,
        first: u64,
        count: u64,
        number: u64,
    ) -> Result<(), ObjFault> {
        change_range(self, io, object, RangeChange::Redact, first, count, number)
    }
}

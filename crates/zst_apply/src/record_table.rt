//! The table of what each record does.
ghost use Rattle.std.specs.Prelude.{◌≡◌, ◌==◌, length, bit_and};
ghost use Rattle.zst_block.specs.IoStates.{io_of};
ghost use Rattle.zst_model.specs.sends.Headers.{spill_block};
ghost use Rattle.zst_record.specs.Heads.{payload_len};
ghost use Rattle.zst_stream.specs.Items.{items_by, keeps_spill};
ghost use Rattle.zst_apply.specs.AppliedRecords.{IsOfStream, received_all};
ghost use Rattle.zst_apply.specs.Changed.{Changed};
ghost use Rattle.zst_apply.specs.Costs.{record_block, record_cost};

use crate::blocks::{Fill, fill_range, write_block};
use crate::cut_ranges::cut;
use zst_block::Io;
use zst_model::ObjectHead;
use zst_model::limits::NUMBER_BOUND;
use zst_objset::{ObjFault, Objects};
use zst_outside::Disk;
use zst_record::{Head, Record};
use zst_tree::ObjSet;

// Each object with a spill block has a SPILL behind its OBJECT (DRR_FLAG_SPILL_BLOCK).
const SPILL_BLOCK: u32 = 1 << 3;

// Whether an OBJECT keeps the spill block, in a stream with these flags.
#[tactic(auto, unfolding(zst_model::specs::sends::Headers::spill_block))]
fn keeps_spill(flags: u32) -> bool
    ensures { result ≡ keeps_spill flags }
{
    flags & SPILL_BLOCK == 0
}

/// Applies a record of a stream with these flags to a set of objects, in the commit of this number.
///
/// What it makes of the dated state that the set holds is what its item makes of it; BEGIN and END
/// say none, and FREEOBJECTS is of numbers that objects have: there is no object 0, and none from
/// 2^48 on. A refusal is E21 with the first fault that the definition finds, E23 of an index, or that
/// of a block; the set is then as it was.
pub fn apply<D: Disk>(
    io: &mut Io<'_, D>,
    set: &mut ObjSet,
    covered: &Record<'_>,
    flags: u32,
    number: u64,
) -> Result<(), ObjFault>
    requires record { IsOfStream covered.now.head.now }
    requires payload { length covered.now.payload.now ≡ payload_len covered.now.head.now }
    // Whatever it answers it takes no more sectors than the record costs, and E24 is of a block of a tree or of its own.
    ensures changed { Changed number (λ index. received_all number index (items_by flags covered.now.payload.now covered.now.head.now)) (record_cost covered.now.head.now) (record_block covered.now.head.now)
        (io_of io.old) (io_of io.new) set.old set.new result }
{
    match covered.head {
        Head::Object {
            object,
            type_,
            bonus_type,
            block_size,
            bonus_len,
            ..
        } => {
            let head = ObjectHead {
                type_: *type_,
                bonus_type: *bonus_type,
                block_size: *block_size,
            };
            let bonus = &covered.payload[..*bonus_len as usize];
            set.put_object(io, *object, head, bonus, keeps_spill(flags), number)
        }
        Head::FreeObjects { first, count, .. } => {
            let numbers = cut(*first, *count, 1, NUMBER_BOUND);
            set.free_objects(io, numbers.first, numbers.count, number)
        }
        Head::Write { object, offset, .. } => {
            write_block(io, set, *object, *offset, covered.payload, number)
        }
        Head::Free {
            object,
            offset,
            length,
            ..
        } => fill_range(io, set, *object, Fill::Holes, *offset, *length, number),
        Head::Spill { object, .. } => set.put_spill(io, *object, covered.payload, number),
        Head::Redact {
            object,
            offset,
            length,
            ..
        } => fill_range(io, set, *object, Fill::Redacted, *offset, *length, number),
        Head::Begin { .. } | Head::End { .. } => Ok(()),
    }
}

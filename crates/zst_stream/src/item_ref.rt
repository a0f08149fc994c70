ghost use Rattle.std.specs.Prelude.{◌≡◌, ◌≤◌, ◌+◌, ◌*◌, ◌/◌, false, pred, length};
ghost use Rattle.zst_model.specs.declared.states.item.Change.TheVariants.{Put};
ghost use Rattle.zst_model.specs.declared.states.item.Item.TheVariants.{At};
ghost use Rattle.zst_record.specs.declared.head.Head.TheVariants.{Free};
ghost use Rattle.zst_stream.specs.FoundItems.{HasBonus, found_item};
ghost use Rattle.zst_stream.specs.Records.{item_head, padded_bonus};
ghost use Rattle.zst_model.specs.states.State.{largest_bonus};

use zst_bytes::{pad8, put_bytes};
use zst_model::ObjectHead;
use zst_record::Head;

/// An item as a sender finds it, with its bytes borrowed. Offsets and lengths are in bytes.
#[derive(Clone, Copy)]
pub enum ItemRef<'a> {
    /// A range of numbers without objects.
    Absent {
        first: u64,
        count: u64,
    },
    /// An object: what it is, its bonus, and one more than its greatest index that isn't a hole, or 0.
    Object {
        object: u64,
        head: ObjectHead,
        bonus: &'a [u8],
        end: u64,
    },
    /// The spill block of an object.
    Spill {
        object: u64,
        bytes: &'a [u8],
    },
    /// All of an object from an offset on, which are holes.
    Tail {
        object: u64,
        offset: u64,
    },
    /// A range of holes of an object.
    Holes {
        object: u64,
        offset: u64,
        length: u64,
    },
    /// A range of an object that is redacted.
    Redacted {
        object: u64,
        offset: u64,
        length: u64,
    },
    /// A block of an object of this type.
    Block {
        object: u64,
        type_: u32,
        offset: u64,
        bytes: &'a [u8],
    },
}

fn free(object: u64, offset: u64, length: u64, to: u64) -> Head
    ensures { result ≡ Free object offset length to }
{
    Head::Free {
        object,
        offset,
        length,
        to,
    }
}

fn object_head(object: u64, head: &ObjectHead, bonus: &[u8], end: u64, to: u64) -> Head
    requires { length bonus.now ≤ largest_bonus }
    ensures { result ≡ item_head to (At object (Put head.now bonus.now false (pred end))) }
{
    Head::Object {
        object,
        type_: head.type_,
        bonus_type: head.bonus_type,
        block_size: head.block_size,
        bonus_len: bonus.len() as u32,
        max_block: end.saturating_sub(1),
        to,
    }
}

/// What the record of an item says, in a stream to this guid.
pub fn head_of(item: &ItemRef<'_>, to: u64) -> Head
    requires { HasBonus item.now }
    ensures { result ≡ item_head to (found_item item.now) }
{
    match *item {
        ItemRef::Absent { first, count } => Head::FreeObjects { first, count, to },
        ItemRef::Object {
            object,
            head,
            bonus,
            end,
        } => object_head(object, &head, bonus, end, to),
        ItemRef::Spill { object, bytes } => Head::Spill {
            object,
            length: bytes.len() as u64,
            to,
        },
        ItemRef::Tail { object, offset } => free(object, offset, u64::MAX, to),
        ItemRef::Holes {
            object,
            offset,
            length,
        } => free(object, offset, length, to),
        ItemRef::Redacted {
            object,
            offset,
            length,
        } => Head::Redact {
            object,
            offset,
            length,
            to,
        },
        ItemRef::Block {
            object,
            type_,
            offset,
            bytes,
        } => Head::Write {
            object,
            type_,
            offset,
            length: bytes.len() as u64,
            to,
        },
    }
}

/// What follows the record of an object: its bonus, padded in the room. The payload of a spill block or of a block is its
/// own bytes, and no other item has one.
pub fn pad_bonus<'a>(bonus: &[u8], room: &'a mut [u8]) -> &'a [u8]
    requires bonus { length bonus.now ≤ largest_bonus }
    requires room { largest_bonus ≤ length room.old }
    ensures padded { result.now ≡ padded_bonus bonus.now }
    ensures len { length result.now ≡ (length bonus.now + 7) / 8 * 8 }
{
    let len = pad8(bonus.len() as u64) as usize;
    let padded = &mut room[..len];
    padded.fill(0);
    put_bytes(padded, 0, bonus);
    padded
}

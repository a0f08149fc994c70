use zst_block::Ptr;
use zst_bytes::{le8, le32, le64, put_bytes, put8, put32, put64};

/// What an object set has of an object: all but its blocks and the bytes of its spill block
/// (`dnode_phys_t` of dnode.h, with a layout of this project).
#[derive(Clone, Copy, Debug, PartialEq, Eq)]
pub struct Dnode {
    /// Its type (`dmu_object_type` of dmu.h), not 0.
    pub type_: u32,
    /// The type of its bonus.
    pub bonus_type: u32,
    /// The size of its blocks, in bytes.
    pub block_size: u32,
    /// The length of its bonus in bytes, at most 320.
    pub bonus_len: u32,
    /// The date of the object number.
    pub date: u64,
    /// The levels of the tree of its blocks, at most 7.
    pub levels: u8,
    /// The date of every index past the span of that tree.
    pub past: u64,
    /// One more than its greatest index that isn't a hole, or 0.
    pub end: u64,
    /// The root of the tree of its blocks.
    pub root: Ptr,
    /// The pointer to its spill block, or a hole.
    pub spill: Ptr,
    /// Its bonus, and zeros behind it.
    pub bonus: [u8; 320],
}

impl Dnode {
    ghost use Rattle.std.specs.Prelude.{◌≡◌, length};
    ghost use Rattle.zst_bytes.specs.Fields.{lay};
    ghost use Rattle.zst_dnode.specs.Dnode.{dnode_at, dnode_fields, head_fields, tree_fields};

    /// Writes its fields into the 512 bytes of a slot.
    pub(crate) fn put(&self, slot: &mut [u8])
        requires { length slot.old ≡ 512 }
        ensures { slot.new ≡ lay (dnode_fields self.now) slot.old }
    {
        self.put_head(slot);
        self.put_tree(slot);
        self.root.put(slot, 48);
        self.spill.put(slot, 112);
        put_bytes(slot, 192, &self.bonus);
    }

    fn put_head(&self, slot: &mut [u8])
        requires { length slot.old ≡ 512 }
        ensures { slot.new ≡ lay (head_fields self.now) slot.old }
    {
        put32(slot, 0, self.type_);
        put32(slot, 4, self.bonus_type);
        put32(slot, 8, self.block_size);
        put32(slot, 12, self.bonus_len);
        put64(slot, 16, self.date);
    }

    fn put_tree(&self, slot: &mut [u8])
        requires { length slot.old ≡ 512 }
        ensures { slot.new ≡ lay (tree_fields self.now) slot.old }
    {
        put8(slot, 24, self.levels);
        put64(slot, 32, self.past);
        put64(slot, 40, self.end);
    }

    /// What the fields of a slot's 512 bytes say, in their ranges or not.
    pub(crate) fn get(slot: &[u8]) -> Dnode
        requires { length slot.now ≡ 512 }
        ensures { result ≡ dnode_at slot.now }
    {
        Dnode {
            type_: le32(slot, 0),
            bonus_type: le32(slot, 4),
            block_size: le32(slot, 8),
            bonus_len: le32(slot, 12),
            date: le64(slot, 16),
            levels: le8(slot, 24),
            past: le64(slot, 32),
            end: le64(slot, 40),
            root: Ptr::get(slot, 48),
            spill: Ptr::get(slot, 112),
            bonus: bonus_of(slot),
        }
    }
}

ghost use Rattle.std.specs.Prelude.{◌≡◌, length};
ghost use Rattle.zst_bytes.specs.Bytes.{bytes_at};

// The bytes of a slot for the bonus and the zeros behind it.
#[tactic(auto, unfolding(zst_bytes::specs::Bytes::bytes_at))]
fn bonus_of(slot: &[u8]) -> [u8; 320]
    requires { length slot.now ≡ 512 }
    ensures { result ≡ bytes_at slot.now 192 320 }
{
    let mut bonus = [0; 320];
    bonus.copy_from_slice(&slot[192..512]);
    bonus
}

use crate::dnode::Dnode;
use zst_bytes::{le32, le64, put_bytes, put64};

/// What a leaf of an object set says of an object number.
#[derive(Clone, Copy, Debug, PartialEq, Eq)]
pub enum Slot {
    /// There is no such object since the commit with this number.
    Absent { date: u64 },
    /// There is this one.
    There(Dnode),
}

impl Slot {
    ghost use Rattle.std.specs.Prelude.{◌≡◌, ◌+◌, ◌≤◌, ◌↔◌, IfSome, IsTrue, Some, length};
    ghost use Rattle.zst_bytes.specs.Bytes.{bytes_at, written};
    ghost use Rattle.zst_dnode.specs.Slot.{slot_at, slot_bytes, SlotFits};
    ghost use Rattle.zst_dnode.specs.declared.slot.Slot.{Slot};

    /// Reads the slot in the 512 bytes from a place on. None where no slot in its ranges has these bytes.
    pub fn get(bytes: &[u8], at: usize) -> Option<Slot>
        requires { at + 512 ≤ length bytes.now }
        // What was written of a slot is read as that slot.
        ensures back { (slot : Slot) → SlotFits slot → bytes_at bytes.now at 512 ≡ slot_bytes slot → result ≡ Some slot }
        // What is read has exactly these bytes, so that each byte that no field names is zero.
        ensures spelled { IfSome result (λ slot. SlotFits slot × (bytes_at bytes.now at 512 ≡ slot_bytes slot)) }
        ensures none { result ≡ None → (slot : Slot) → SlotFits slot → bytes_at bytes.now at 512 ≡ slot_bytes slot → ⊥ }
    {
        let bytes = &bytes[at..at + 512];
        let slot = Slot::read(bytes);
        if slot.is_spelled(bytes) {
            Some(slot)
        } else {
            None
        }
    }

    // What the fields of 512 bytes say, in their ranges or not.
    fn read(bytes: &[u8]) -> Slot
        requires { length bytes.now ≡ 512 }
        ensures { result ≡ slot_at bytes.now }
    {
        if le32(bytes, 0) == 0 {
            Slot::Absent {
                date: le64(bytes, 16),
            }
        } else {
            Slot::There(Dnode::get(bytes))
        }
    }

    // Whether it is in its ranges, and these are its bytes.
    fn is_spelled(&self, bytes: &[u8]) -> bool
        requires { length bytes.now ≡ 512 }
        ensures { IsTrue result ↔ (SlotFits self.now × (bytes.now ≡ slot_bytes self.now)) }
    {
        self.is_in_range() && self.encode().as_slice() == bytes
    }

    /// Whether each of its values is in its range.
    pub fn is_in_range(self) -> bool
        ensures { IsTrue result ↔ SlotFits self }
    {
        match self {
            Slot::Absent { date: _ } => true,
            Slot::There(dnode) => dnode.is_in_range(),
        }
    }

    /// Writes the 512 bytes of the slot at a place, and leaves all others.
    pub fn put(&self, into: &mut [u8], at: usize)
        requires inside { at + 512 ≤ length into.old }
        requires fits { SlotFits self.now }
        ensures { into.new ≡ written at 512 (slot_bytes self.now) into.old }
    {
        put_bytes(into, at, &self.encode());
    }

    // Its 512 bytes.
    #[tactic(auto, unfolding(crate::specs::Slot::slot_bytes, zst_bytes::specs::Fields::zeros))]
    fn encode(&self) -> [u8; 512]
        ensures { result ≡ slot_bytes self.now }
    {
        let mut bytes = [0; 512];
        match self {
            Slot::Absent { date } => put64(&mut bytes, 16, *date),
            Slot::There(dnode) => dnode.put(&mut bytes),
        }
        bytes
    }
}

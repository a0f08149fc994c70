// A dnode, its bytes as the table has them, and what slots say of them.
use zst_block::Ptr;
use zst_dnode::{Dnode, Slot};
use zst_fletcher::Sum;

// A pointer to a block of pointers.
const ROOT: Ptr = Ptr {
    kind: 3,
    level: 2,
    length: 8192,
    sector: 0x0102_0304_0506_0708,
    number: 18,
    sum: Sum {
        a: 0x11,
        b: 0x22,
        c: 0x33,
        d: 0x44,
    },
};

// A pointer to a spill block.
const SPILL: Ptr = Ptr {
    kind: 1,
    level: 0,
    length: 1536,
    sector: 9,
    number: 17,
    sum: Sum {
        a: 1,
        b: 2,
        c: 3,
        d: 4,
    },
};

// The dnode that `example` spells.
pub(super) fn dnode() -> Dnode {
    let mut bonus = [0; 320];
    bonus[0] = 0xb1;
    bonus[2] = 0xb3;
    Dnode {
        type_: 19,
        bonus_type: 44,
        block_size: 131_072,
        bonus_len: 3,
        date: 0x1122_3344_5566_7788,
        levels: 2,
        past: 5,
        end: 16_384,
        root: ROOT,
        spill: SPILL,
        bonus,
    }
}

// Writes a text at a place.
pub(super) fn lay(bytes: &mut [u8; 512], at: usize, text: &[u8]) {
    for (k, byte) in text.iter().enumerate() {
        if let Some(to) = bytes.get_mut(at.wrapping_add(k)) {
            *to = *byte;
        }
    }
}

// The bytes of the dnode, by the table.
pub(super) fn example() -> [u8; 512] {
    let mut bytes = [0; 512];
    lay(&mut bytes, 0, b"\x13\0\0\0\x2c\0\0\0\0\0\x02\0\x03\0\0\0");
    lay(&mut bytes, 16, b"\x88\x77\x66\x55\x44\x33\x22\x11\x02");
    lay(&mut bytes, 32, b"\x05\0\0\0\0\0\0\0\0\x40");
    lay(
        &mut bytes,
        48,
        b"\x03\x02\0\0\0\x20\0\0\x08\x07\x06\x05\x04\x03\x02\x01\x12",
    );
    lay(
        &mut bytes,
        72,
        b"\x11\0\0\0\0\0\0\0\x22\0\0\0\0\0\0\0\x33\0\0\0\0\0\0\0\x44",
    );
    lay(
        &mut bytes,
        112,
        b"\x01\0\0\0\0\x06\0\0\x09\0\0\0\0\0\0\0\x11",
    );
    lay(
        &mut bytes,
        136,
        b"\x01\0\0\0\0\0\0\0\x02\0\0\0\0\0\0\0\x03\0\0\0\0\0\0\0\x04",
    );
    lay(&mut bytes, 192, b"\xb1\0\xb3");
    bytes
}

// Whether the example is a slot with this text at a place.
pub(super) fn is_slot_with(at: usize, text: &[u8]) -> bool {
    let mut bytes = example();
    lay(&mut bytes, at, text);
    Slot::get(&bytes, 0).is_some()
}

// Whether the bytes of the slot that is read are written again, and no others.
pub(super) fn is_written_again(bytes: &[u8; 512]) -> bool {
    let Some(slot) = Slot::get(bytes, 0) else {
        return false;
    };
    let mut node = [0xee; 514];
    slot.put(&mut node, 1);
    node[0] == 0xee
        && node[513] == 0xee
        && Slot::get(&node, 1) == Some(slot)
        && &node[1..513] == bytes.as_slice()
}

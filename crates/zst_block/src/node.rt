ghost use Rattle.std.specs.Prelude.{◌≡◌, List, ℕ, length};

use crate::block_reads::read_block;
use crate::fault::BlockFault;
use crate::ptr::Ptr;
use std::marker::Model;
use zst_outside::Disk;

/// The 8,192 bytes of one block of a tree: 128 pointers, or 16 slots of objects. A clause sees
/// the bytes.
#[derive(Drop)]
pub struct Node {
    bytes: [u8; 8192],
}

impl Model for Node {
    ghost Value = { List ℕ };

    ghost view = { λ node. node.bytes };

    ghost invariant = { λ node. length node.bytes ≡ 8192 };
}

impl Node {
    ghost use Rattle.std.specs.Prelude.{◌≡◌, ◌+◌, ◌*◌, ◌<◌, ◌≤◌, ℕ, length, OnOk};
    ghost use Rattle.zst_bytes.specs.Bytes.{written};
    ghost use Rattle.zst_block.specs.Blocks.{IsPlaced};
    ghost use Rattle.zst_block.specs.Faults.{HasDiskCause};
    ghost use Rattle.zst_block.specs.Ptr.{ptr_at, ptr_bytes, PtrFits};
    ghost use Rattle.zst_block.specs.ReadAnswers.{ReadAnswers};
    ghost use Rattle.zst_fletcher.specs.WeightSum.{weight_sum};
    ghost use Rattle.zst_outside.specs.Images.{OnlyReads};

    /// A block of zeros.
    pub fn new() -> Node
        ensures long { length result ≡ 8192 }
    {
        Node { bytes: [0; 8192] }
    }

    /// The bytes.
    pub fn as_slice(&self) -> &[u8]
        ensures bytes { result.now ≡ self.now }
        ensures long { length self.now ≡ 8192 }
    {
        &self.bytes
    }

    /// The pointer at one of the 128 places.
    pub fn child(&self, k: usize) -> Ptr
        requires { k < 128 }
        ensures child { result ≡ ptr_at self.now (64 * k) }
        ensures fits { PtrFits result }
        ensures long { length self.now ≡ 8192 }
    {
        Ptr::get(&self.bytes, 64 * k)
    }

    /// Puts a pointer at one of the 128 places, and leaves all others.
    pub fn put_child(&mut self, k: usize, ptr: &Ptr)
        requires { k < 128 }
        ensures bytes { self.new ≡ written (64 * k) 64 (ptr_bytes ptr.now) self.old }
        ensures fits { PtrFits ptr.now }
        ensures before { length self.old ≡ 8192 }
        ensures long { length self.new ≡ 8192 }
    {
        ptr.put(&mut self.bytes, 64 * k);
    }

    /// Copies bytes to a place, and leaves all outside it.
    pub fn put_bytes(&mut self, at: usize, bytes: &[u8])
        requires { at + length bytes.now ≤ 8192 }
        ensures bytes { self.new ≡ written at (length bytes.now) bytes.now self.old }
        ensures before { length self.old ≡ 8192 }
        ensures long { length self.new ≡ 8192 }
    {
        zst_bytes::put_bytes(&mut self.bytes, at, bytes);
    }

    // Reads the block that a pointer names.
    pub(crate) fn read<D: Disk>(&mut self, disk: &mut D, ptr: &Ptr) -> Result<(), BlockFault>
        requires { ptr.now.length ≡ 8192 }
        ensures answer { (D.state disk.new).honest → ReadAnswers (D.state disk.old).seen (D.state disk.old).size ptr.now self.new result }
        ensures sum { OnOk result (weight_sum self.new ≡ ptr.now.sum) }
        ensures placed { OnOk result (IsPlaced (D.state disk.old).size ptr.now) }
        ensures never_full { (need largest : ℕ) → ¬ (result ≡ Err (BlockFault.Full need largest)) }
        ensures reads { OnlyReads (D.state disk.old) (D.state disk.new) }
        ensures calls { (D.state disk.new).calls ≤ (D.state disk.old).calls + 1 }
        ensures cause { HasDiskCause (D.state disk.old).faults (D.state disk.new).faults result }
        ensures long { length self.new ≡ 8192 }
    {
        read_block(disk, ptr, &mut self.bytes)
    }
}

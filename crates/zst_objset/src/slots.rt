//! The sixteen slots of a leaf, in a node.
ghost use Rattle.std.specs.Prelude.{◌≡◌, ◌⊎◌, ◌*◌, ◌<◌, ◌≤◌, ℕ, IfNone, OnSome, Some, length};
ghost use Rattle.zst_bytes.specs.Bytes.{bytes_at};
ghost use Rattle.zst_dnode.specs.Slot.{slot_bytes, SlotFits};
ghost use Rattle.zst_dnode.specs.declared.slot.Slot.{Slot};
ghost use Rattle.zst_objset.specs.Damage.{HasAllSlots, LacksSlot};
ghost use Rattle.zst_objset.specs.Sets.{any_there, date_in, is_there, latest, Spells};

use zst_block::Node;
use zst_dnode::Slot;

/// What the slots of a leaf tell together.
#[derive(Clone, Copy)]
pub(crate) struct Summary {
    /// The latest date.
    pub number: u64,
    /// Whether an object is there.
    pub there: bool,
}

/// The latest date that a slot tells.
pub fn date_in(slot: &Slot) -> u64
    ensures { result ≡ date_in slot.now }
{
    match slot {
        Slot::Absent { date } => *date,
        Slot::There(dnode) => dnode.date.max(dnode.past.max(dnode.root.number)),
    }
}

fn is_there(slot: &Slot) -> bool
    ensures { result ≡ is_there slot.now }
{
    match slot {
        Slot::Absent { .. } => false,
        Slot::There(_) => true,
    }
}

impl Summary {
    ghost use Rattle.std.specs.Prelude.{◌≡◌, ◌||◌, max};
    ghost use Rattle.zst_objset.specs.Sets.{date_in, is_there};

    // With what another slot tells.
    fn with(self, slot: &Slot) -> Summary
        ensures { result ≡ record { number = max self.number (date_in slot.now); there = self.there || is_there slot.now } }
    {
        Summary {
            number: self.number.max(date_in(slot)),
            there: self.there || is_there(slot),
        }
    }
}

/// What the slots of a node tell together, or none where some slot isn't one.
pub(crate) fn summed_up(node: &Node) -> Option<Summary>
    ensures none { IfNone result (LacksSlot node.now) }
    ensures some { OnSome result (HasAllSlots node.now) }
    ensures told { (slots : ℕ → Slot) → Spells node.now slots → result ≡ Some (record { number = latest slots 16; there = any_there slots 16 }) }
{
    let mut all = Summary {
        number: 0,
        there: false,
    };
    for place in 0..16 {
        let slot = Slot::get(node.as_slice(), 512 * place)?;
        all = all.with(&slot);
    }
    Some(all)
}

/// Puts a slot at each place from one on and below another.
pub(crate) fn put_slots(node: &mut Node, from: usize, below: usize, slot: &Slot)
    requires from { from ≤ below }
    requires below { below ≤ 16 }
    requires fits { SlotFits slot.now }
    ensures put { (s : ℕ) → from ≤ s → s < below → bytes_at node.new (512 * s) 512 ≡ slot_bytes slot.now }
    ensures kept { (s : ℕ) → s < 16 → (s < from) ⊎ (below ≤ s) → bytes_at node.new (512 * s) 512 ≡ bytes_at node.old (512 * s) 512 }
    ensures long { from < below → length node.new ≡ 8192 }
    ensures fits { SlotFits slot.now }
{
    let mut bytes = [0; 512];
    slot.put(&mut bytes, 0);
    for place in from..below {
        node.put_bytes(512 * place, &bytes);
    }
}

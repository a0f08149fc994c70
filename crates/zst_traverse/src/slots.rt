//! What the slots of a leaf show of the numbers that may be included.
ghost use Rattle.std.specs.Prelude.{◌≡◌, ◌+◌, ◌*◌, ◌^◌, ◌<◌, ◌≤◌, ℕ, true, IfNone, IfSome};
ghost use Rattle.zst_dnode.specs.declared.slot.Slot.{Slot};
ghost use Rattle.zst_objset.specs.Damage.{HasSlot, LacksSlot};
ghost use Rattle.zst_objset.specs.Sets.{Spells};
ghost use Rattle.zst_traverse.specs.Slots.{AreGone, FindsSlot, GlanceFits, HasGlance, ShowsLate};

use crate::dates::is_after;
use zst_block::Node;
use zst_dnode::{Dnode, Slot};
use zst_objset::date_in;

/// What a glance at a leaf shows.
#[derive(Clone, Copy)]
pub(crate) enum Glance {
    /// So many absent numbers of late dates.
    Absent { first: u64, count: u64 },
    /// The dnode at a place tells a late date.
    There { place: usize, dnode: Dnode },
    /// No slot tells one.
    Nothing,
}

// The first slot from a place on that tells a date after the source; nothing is told where some
// slot before it isn't one.
fn late_slot(node: &Node, source: Option<u64>, from: usize) -> Option<Option<(usize, Slot)>>
    requires from { from ≤ 16 }
    ensures none { IfNone result (LacksSlot node.now) }
    ensures found { IfSome result (λ found. (held : ℕ → Slot) → Spells node.now held → FindsSlot held source from found) }
    ensures ranges { IfSome result (λ found. IfSome found (λ late. (from ≤ late.0) × (late.0 < 16) × HasSlot node.now late.0 late.1)) }
{
    for place in from..16 {
        let slot = Slot::get(node.as_slice(), 512 * place)?;
        if is_after(source, date_in(&slot)) {
            return Some(Some((place, slot)));
        }
    }
    Some(None)
}

// Whether an absent slot of a date after the source stands at a place.
fn is_gone(node: &Node, source: Option<u64>, place: usize) -> bool
    requires place { place < 16 }
    ensures { (held : ℕ → Slot) → Spells node.now held → result ≡ true → AreGone held source place (place + 1) }
{
    match Slot::get(node.as_slice(), 512 * place) {
        Some(Slot::Absent { date }) => is_after(source, date),
        Some(Slot::There(_)) => false,
        None => false,
    }
}

// The place up to which absent slots of late dates follow one at a place.
fn gone_to(node: &Node, source: Option<u64>, from: usize) -> usize
    requires from { from < 16 }
    ensures gone { (held : ℕ → Slot) → Spells node.now held → AreGone held source (from + 1) result }
    ensures range { (from < result) × (result ≤ 16) }
{
    for place in from + 1..16 {
        if !is_gone(node, source, place) {
            return place;
        }
    }
    16
}

/// What the slots of a leaf show from a place on; nothing is told where some slot isn't one.
pub(crate) fn glance_at(node: &Node, source: Option<u64>, leaf: u64, from: usize) -> Option<Glance>
    requires leaf { leaf < 2 ^ 44 }
    requires from { from ≤ 16 }
    ensures none { IfNone result (LacksSlot node.now) }
    ensures shows { IfSome result (λ seen. (held : ℕ → Slot) → Spells node.now held → ShowsLate held source leaf from seen) }
    ensures ranges { IfSome result (GlanceFits leaf from) }
    ensures stands { IfSome result (HasGlance node.now) }
{
    match late_slot(node, source, from)? {
        None => Some(Glance::Nothing),
        Some((place, Slot::There(dnode))) => Some(Glance::There { place, dnode }),
        Some((place, Slot::Absent { .. })) => {
            let count = gone_to(node, source, place) - place;
            Some(Glance::Absent {
                first: 16 * leaf + place as u64,
                count: count as u64,
            })
        }
    }
}

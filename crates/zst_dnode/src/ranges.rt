//! Whether the values of a dnode are in their ranges.
ghost use Rattle.std.specs.Prelude.{◌≡◌, ◌↔◌, ◌≤◌, ◌^◌, ◌<◌, true, All, IsTrue, length};
ghost use Rattle.zst_model.specs.states.State.{index_bound, is_odd_size, IsHead};
ghost use Rattle.zst_dnode.specs.Dnode.{IsBonusField, is_root, is_spill};

use crate::dnode::Dnode;
use zst_block::Ptr;
use zst_model::limits::{INDEX_BOUND, LARGEST_BONUS, is_block_size, is_spill_size};

// Whether an object may have these types and this block size.
fn is_head(type_: u32, bonus_type: u32, block_size: u32) -> bool
    ensures { IsTrue result ↔ IsHead (record { type_ = type_; bonus_type = bonus_type; block_size = block_size }) }
{
    0 < type_ && is_block_size(u64::from(block_size))
}

// Whether an object of blocks of this size may have this end.
#[tactic(auto, unfolding(zst_model::specs::states::State::index_bound))]
fn is_end(end: u64, block_size: u32) -> bool
    ensures { IsTrue result ↔ ((end ≤ index_bound) × (is_odd_size block_size ≡ true → end ≤ 1)) }
{
    end <= 1 || (end <= INDEX_BOUND && block_size.is_power_of_two())
}

// Whether a tree of so many levels over blocks of this size may have this root.
fn is_root(levels: u8, block_size: u32, root: &Ptr) -> bool
    ensures { result ≡ is_root levels block_size root.now }
{
    root.kind == 0
        || root.kind == 2
        || if levels == 0 {
            root.kind == 1 && root.length == block_size
        } else {
            root.kind == 3 || root.kind == 4
        }
}

// Whether this may be the pointer to a spill block, or stand for none.
fn is_spill(spill: &Ptr) -> bool
    ensures { result ≡ is_spill spill.now }
{
    spill.kind == 0 || (spill.kind == 1 && is_spill_size(u64::from(spill.length)))
}

// Whether each byte is zero.
fn is_zeros(bytes: &[u8]) -> bool
    ensures { IsTrue result ↔ All (λ byte. byte ≡ 0) bytes.now }
{
    bytes.iter().all(|byte| *byte == 0)
}

// Whether a bonus has so many bytes, and zeros behind them.
fn is_bonus(bonus_len: u32, bonus: &[u8]) -> bool
    requires { length bonus.now ≡ 320 }
    ensures { IsTrue result ↔ IsBonusField bonus_len bonus.now }
{
    bonus_len <= LARGEST_BONUS && is_zeros(&bonus[bonus_len as usize..])
}

impl Dnode {
    ghost use Rattle.std.specs.Prelude.{◌↔◌, IsTrue};
    ghost use Rattle.zst_dnode.specs.Dnode.{DnodeFits};

    /// Whether it is in its ranges.
    pub(crate) fn is_in_range(self) -> bool
        ensures { IsTrue result ↔ DnodeFits self }
    {
        is_head(self.type_, self.bonus_type, self.block_size)
            && is_bonus(self.bonus_len, &self.bonus)
            && self.levels <= 7
            && is_end(self.end, self.block_size)
            && self.root.is_lawful()
            && is_root(self.levels, self.block_size, &self.root)
            && self.spill.is_lawful()
            && is_spill(&self.spill)
    }
}

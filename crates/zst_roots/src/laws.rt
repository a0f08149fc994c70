ghost use Rattle.std.specs.Prelude.{◌↔◌, ℕ, List, Option};
ghost use Rattle.zst_block.specs.Blocks.{Has, IsBlock};
ghost use Rattle.zst_dir.specs.Rows.{Rows};
ghost use Rattle.zst_image.specs.Reads.{RunsBy};
ghost use Rattle.zst_model.specs.pools.Pool.{Pool};
ghost use Rattle.zst_reach.specs.Reached.{SparesReached};
ghost use Rattle.zst_space.specs.FreeSectors.{FreeSectors, IsFree};
ghost use Rattle.zst_roots.specs.ReachedRows.{RowsReach};

/// What rows stand for they stand for whatever sectors become free that they don't reach.
pub fn rows_stand_over_what_is_unreached()
    ensures { (bound : Option ℕ) (image : List ℕ) (space more : FreeSectors) (rows : Rows) (running : Pool) → RunsBy bound (Has image space) rows running
        → ((sector : ℕ) → RowsReach (IsBlock image) rows sector → IsFree more sector → IsFree space sector) → RunsBy bound (Has image more) rows running }
{}

/// What rows reach they reach whatever bytes stand elsewhere, and nothing else: it is the same on another image that
/// has the same bytes in these sectors.
pub fn rows_reach_the_same_whatever_is_unreached()
    ensures { (old new : List ℕ) (rows : Rows) → SparesReached (RowsReach (IsBlock old) rows) old new → (sector : ℕ) → RowsReach (IsBlock old) rows sector ↔ RowsReach (IsBlock new) rows sector }
{}

// What the definitions of a pool say of one another.
ghost use Rattle.std.specs.Prelude.{◌≡◌, ℕ, Bool, Option};
ghost use Rattle.zst_outside.specs.Images.{Leaves};
ghost use Rattle.zst_space.specs.FreeSectors.{FreeSectors};
ghost use Rattle.zst_block.specs.Blocks.{FillsFree, FitsDisk, Has};
ghost use Rattle.zst_image.specs.Bodies.{Body};
ghost use Rattle.zst_model.specs.pools.KeptPool.{KeepsAll, kept_of};
ghost use Rattle.zst_model.specs.pools.Pool.{Partial, Pool};
ghost use Rattle.zst_dir.specs.Rows.{Rows};
ghost use Rattle.zst_dir.specs.declared.rows.Partial.{Partial as Row};
ghost use Rattle.zst_image.specs.declared.pool_state.PoolState.{PoolState};
ghost use Rattle.zst_image.specs.Reads.{IsNamedBy, PartialIs, Reads, Rests, kept_rows};
ghost use Rattle.zst_pool.specs.Calls.{CanCommit, IsAtRest, IsUnderWay};
ghost use Rattle.zst_pool.specs.Plans.{bare_pool};

use zst_outside::Disk;

/// A body and its rows name a pool, whatever the object sets and the lists hold: one whose objects nothing
/// touched yet.
pub fn rows_name_a_pool()
    ensures { (body : Body) (rows : Rows) → IsNamedBy body rows (bare_pool body rows) }
{}

/// A pool that was just opened is at rest; as each pool that an image reads as keeps all its partial
/// states, it is what is kept of it.
pub fn opened_is_at_rest<D: Disk>()
    ensures rests { (tight : Bool) (disk : D) (kept : PoolState) (rows : Rows) (pool : Pool) → Rests tight (D.state disk) kept.body rows pool → kept.dir ≡ kept_rows rows → IsAtRest tight (D.state disk) kept pool }
    ensures same { (pool : Pool) → KeepsAll pool → kept_of pool ≡ pool }
{}

/// Blocks that are written between a pool's events leave it at rest, and its event under way: inside it each image reads as
/// what is kept of the pool, the next commit can still be made, and each partial state that was there still is.
pub fn blocks_leave_it_at_rest<D: Disk>()
    ensures rests { (tight : Bool) (start now : D) (space : FreeSectors) (kept : PoolState) (running : Pool) → IsUnderWay tight (D.state start) (D.state now) space kept running → IsAtRest tight (D.state now) kept running }
    ensures moments { (tight : Bool) (start now : D) (space : FreeSectors) (kept : PoolState) (running : Pool) → IsUnderWay tight (D.state start) (D.state now) space kept running → Leaves (D.state start) (D.state now) (Reads tight (kept_of running)) }
    ensures under_way { (tight : Bool) (start old new : D) (space less : FreeSectors) (kept : PoolState) (running : Pool) → IsUnderWay tight (D.state start) (D.state old) space kept running
        → FillsFree (D.state old) space (D.state new) less → IsUnderWay tight (D.state start) (D.state new) less kept running }
    ensures commits { (old new : D) (space less : FreeSectors) (kept : PoolState) → CanCommit (D.state old) space kept.body → FillsFree (D.state old) space (D.state new) less
        → FitsDisk (D.state new).size less → less.sectors ≡ space.sectors → CanCommit (D.state new) less kept.body }
    ensures partial { (bound : Option ℕ) (old new : D) (space less : FreeSectors) (row : Row) (partial : Partial) → PartialIs bound (Has (D.state old).seen space) row partial
        → FillsFree (D.state old) space (D.state new) less → PartialIs bound (Has (D.state new).seen less) row partial }
{}

ghost use Rattle.std.specs.Prelude.{[], false, true};
ghost use Rattle.zst_image.specs.Commits.{Ready};
ghost use Rattle.zst_image.specs.declared.pool_state.PoolState.{PoolState};
ghost use Rattle.zst_model.specs.pools.Pool.{Pool};
ghost use Rattle.zst_pool.specs.Calls.{IsAtRest};
ghost use Rattle.zst_sessions.specs.Engines.{Stands};
ghost use Rattle.zst_sessions.specs.Replay.{opened};

use zst_outside::Disk;

/// Two pools that were just opened, and no session, stand for the world that begins with them.
pub fn opened_pools_stand<D: Disk, E: Disk>()
    ensures { (one : D) (two : E) (kept other : PoolState) (running elsewhere : Pool)
        → Ready (D.state one) kept.body → IsAtRest true (D.state one) kept running → Ready (E.state two) other.body → IsAtRest true (E.state two) other elsewhere
        → Stands true (record { disk = D.state one; tells = D.tells_images; state = kept; failed = false }) (record { disk = E.state two; tells = E.tells_images; state = other; failed = false }) [] [] (opened running elsewhere) }
{}

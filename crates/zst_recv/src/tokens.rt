ghost use Rattle.std.specs.Prelude.{◌≡◌, ◌≤◌, ℕ, Bool, List, Option, IfErr, IfOk, find, option_map};
ghost use Rattle.zst_block.specs.Blocks.{Has};
ghost use Rattle.zst_dir.specs.RowNames.{AreNamed};
ghost use Rattle.zst_dir.specs.Rows.{is_for};
ghost use Rattle.zst_image.specs.Reads.{RunsBy};
ghost use Rattle.zst_model.specs.pools.Pool.{Pool as Plain};
ghost use Rattle.zst_model.specs.states.State.{number_bound};
ghost use Rattle.zst_pool.specs.Calls.{IsAtRest};
ghost use Rattle.zst_recv.specs.Tokens.{token_told};
ghost use Rattle.zst_space.specs.FreeSectors.{FreeSectors};
ghost use Rattle.zst_token.specs.Spelling.{IsToken};

use zst_dir::Partial;
use zst_model::PlanFault;
use zst_names::DatasetName;
use zst_outside::Disk;
use zst_pool::Pool;
use zst_token::Token;

// The partial state of this target.
fn partial_for<'a>(partials: &'a [Partial], target: &DatasetName) -> Option<&'a Partial>
    ensures { option_map (λ partial. partial.now) result ≡ find (is_for target.now) partials.now }
{
    partials.iter().find(|partial| partial.target == *target)
}

/// The token with which a cut receive into this dataset goes on (`receive_resume_token` of zfsprops(7)); E14 where the dataset
/// has no partial state that is kept. Nothing is read of the disk, and no memory is taken.
pub fn token<D: Disk>(pool: &Pool<'_, D>, dataset: &DatasetName) -> Result<Token, PlanFault>
    // The rows alone tell it, whatever the object sets hold.
    ensures named { (running : Plain) → AreNamed pool.now.kept.dir running → result ≡ token_told dataset.now running }
    ensures runs { (bound : Option ℕ) (image : List ℕ) (space : FreeSectors) (running : Plain) → RunsBy bound (Has image space) pool.now.kept.dir running → result ≡ token_told dataset.now running }
    ensures rests { (tight : Bool) (disk : D) (running : Plain) → IsAtRest tight (D.state disk) pool.now.kept running → result ≡ token_told dataset.now running }
    ensures known { IfErr result (λ fault. fault ≡ PlanFault.NoPartial dataset.now) }
    // It is one that is read again, unless its point is behind all objects that there can be.
    ensures token { IfOk result (λ token. token.point.object ≤ number_bound → IsToken token) }
{
    let dir = &pool.kept.dir;
    // It is known to be lawful from here.
    let _lawful = dir.datasets();
    match partial_for(dir.partials(), dataset) {
        Some(partial) if partial.keep => Ok(Token::of(&partial.header, partial.point)),
        _ => Err(PlanFault::NoPartial(dataset.duplicate())),
    }
}

// The line that tells a token.
ghost use Rattle.zst_run.specs.Tokens.{TellsToken, Tokens};

use crate::reply::print_line;
use std::alloc::Global;
use zst_image::PoolState;
use zst_model::Refusal;
use zst_names::DatasetName;
use zst_outside::{Disk, Sink};
use zst_pool::Pool;
use zst_recv::token;
use zst_token::Token;

/// The token that the pool of an image tells of a dataset.
fn token_of_image<D: Disk>(
    alloc: Global,
    here: &mut D,
    dataset: &DatasetName,
) -> Result<Token, Refusal>
    ensures { TellsToken dataset.now (D.state here.old) (D.state here.new) result }
{
    let kept = PoolState::open(alloc, here)?;
    let pool = Pool::new(alloc, here, kept);
    let told = token(&pool, dataset);
    // Only of a disk that was given back is it known what stands on it.
    pool.into_disk();
    Ok(told?)
}

/// Tells the token of a dataset's partial state, and writes its text as the line of the reply.
pub(crate) fn tell_token<D: Disk, K: Sink>(
    alloc: Global,
    here: &mut D,
    dataset: &DatasetName,
    out: &mut K,
) -> Result<(), Refusal>
    ensures { Tokens dataset.now (D.state here.old) (D.state here.new) (K.state out.old) (K.state out.new) result }
{
    let token = token_of_image(alloc, here, dataset)?;
    match print_line(token.print().as_str().as_bytes(), out) {
        Ok(()) => Ok(()),
        Err(_) => Err(Refusal::SinkFault),
    }
}

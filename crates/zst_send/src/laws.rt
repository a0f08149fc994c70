//! What ties sends to one another.
ghost use Rattle.std.specs.Prelude.{ℕ, List, Some};
ghost use Rattle.zst_space.specs.FreeSectors.{FreeSectors};
ghost use Rattle.zst_block.specs.Blocks.{Has};
ghost use Rattle.zst_dir.specs.Rows.{Rows};
ghost use Rattle.zst_image.specs.Reads.{RunsBy};
ghost use Rattle.zst_model.specs.pools.Pool.{Pool};
ghost use Rattle.zst_plan.specs.Receipts.{TellsDates};
ghost use Rattle.zst_send.specs.HeldPointers.{HeldSendsStand, SendsOutlast};
ghost use Rattle.zst_send.specs.Openings.{RowsStandForSends};
ghost use Rattle.zst_send.specs.SentBytes.{RestsAreBytes, SentAreBytes};
ghost use Rattle.zst_send.specs.Sends.{EqualViewsAreSentAlike, SameViewsSameRest, SendsGoOn};

use zst_laws::plans_are_of_pool;
use zst_objset::sets_hold_states;
use zst_reach::unreached_sectors_may_be_free;
use zst_stream::text_is_bytes;

/// What others do between two takes doesn't matter, as long as the send's blocks stay.
pub fn sends_go_on()
    ensures { SendsGoOn }
{
    sets_hold_states();
}

/// A send goes on whatever sectors become free that it doesn't hold (`Send::held`), and what it holds stands.
pub fn sends_outlast_reclaims()
    ensures outlast { SendsOutlast }
    ensures stand { HeldSendsStand }
{
    unreached_sectors_may_be_free();
}

/// Sends of equal views give equal bytes, from the beginning and from each point.
pub fn equal_views_are_sent_alike()
    ensures alike { EqualViewsAreSentAlike }
    ensures rest { SameViewsSameRest }
{}

/// What is sent of a lawful pool is bytes, from its beginning and from a token's point.
pub fn sent_are_bytes()
    ensures sent { SentAreBytes }
    ensures rest { RestsAreBytes }
{
    plans_are_of_pool();
    text_is_bytes();
}

/// Tight sets tell the dates of a pool's heads to a plan of a receive.
pub fn tight_sets_tell_dates()
    ensures { (number : ℕ) (image : List ℕ) (space : FreeSectors) (rows : Rows) (pool : Pool) → RunsBy (Some number) (Has image space) rows pool
        → TellsDates rows pool }
{}

/// What a send needs of the rows of its pool stands where they stand for all of the pool.
pub fn rows_stand_for_sends()
    ensures { RowsStandForSends }
{}

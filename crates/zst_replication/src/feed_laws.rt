ghost use Rattle.zst_replication.specs.AlikeReceives.{EqualPiecesTellAlike};
ghost use Rattle.zst_replication.specs.FeedFaults.{FaultsKeepFront, OthersLeaveAll, UnkeptLeaveNothing, UnplannedLeaveAll};
ghost use Rattle.zst_replication.specs.KeptReceives.{KeptAsAsked, PiecesGoFurther, TextsHaveTokens, TokensAgree, TokensAreOfKept, ViewsHaveTokens};

use crate::laws::{cut_leaves_nothing, pieces_are_applied};

/// Whatever was read: a refusal of the stream or of a record leaves of a receive with `-s` exactly what the records before it
/// make, and any other refusal what stood after the pieces before; a plan that refuses leaves the pool as it was, and so does
/// any refusal of a receive without `-s`, but for the number and a head that went back.
pub fn refusals_leave_front()
    ensures front { FaultsKeepFront }
    ensures others { OthersLeaveAll }
    ensures unplanned { UnplannedLeaveAll }
    ensures unkept { UnkeptLeaveNothing }
{
    zst_laws::received_is_state();
    zst_stream::fronts_agree();
}

/// What a receive begins with `-s` is kept, piece after piece, and no piece takes back what an earlier one left.
pub fn pieces_are_kept()
    ensures kept { KeptAsAsked }
    ensures further { PiecesGoFurther }
{
    zst_laws::received_is_state();
    zst_stream::fronts_agree();
}

/// A token is told of a partial state that is kept, and of no other; equal headers and points have equal tokens.
pub fn tokens_are_of_kept()
    ensures kept { TokensAreOfKept }
    ensures agree { TokensAgree }
{}

/// Receives that have read the same bytes tell one token, whatever their pools hold, and so do those of two sends of one view that
/// were cut at the same byte: no token depends on what redacted blocks held.
pub fn texts_have_tokens()
    ensures texts { TextsHaveTokens }
    ensures views { ViewsHaveTokens }
{
    pieces_are_applied();
    tokens_are_of_kept();
    zst_send::equal_views_are_sent_alike();
}

/// Whatever is read: two receives of equal pieces into targets that began alike leave equal tokens, whatever else their pools hold.
pub fn equal_pieces_tell_alike()
    ensures { EqualPiecesTellAlike }
{
    pieces_are_kept();
    cut_leaves_nothing();
    zst_laws::keeping_is_done();
    zst_laws::received_is_state();
    zst_stream::fronts_agree();
}

// The lines that send a snapshot, or the rest of it that a token tells: the stream is written piece by piece, as it is read of the image.
ghost use Rattle.std.specs.Prelude.{Option, ◌≡◌, ◌≤◌, false, length, IfErr, IfSome, OnOk, Some, Ok, Err};
ghost use Rattle.zst_outside.specs.Images.{OnlyReads};
ghost use Rattle.zst_outside.specs.States.{SinkState};
ghost use Rattle.zst_block.specs.IoStates.{IsHonest, blocks_of, disk_of, io_of};
ghost use Rattle.zst_dir.specs.RowNames.{AreNamed};
ghost use Rattle.zst_model.specs.pools.Pool.{Pool as Plain};
ghost use Rattle.zst_model.specs.declared.refusals.plan_fault.PlanFault.{PlanFault};
ghost use Rattle.zst_model.specs.declared.sends.header.Point.{Point};
ghost use Rattle.zst_model.specs.sends.Headers.{Sent};
ghost use Rattle.zst_reader.specs.InputReads.{stream_limit};
ghost use Rattle.zst_send.specs.Openings.{StandsPlanned};
ghost use Rattle.zst_run.specs.declared.send.SendRequest.TheVariants.{Named, Rest};
ghost use Rattle.zst_run.specs.LaterDisks.{IsLater};
ghost use Rattle.zst_run.specs.Sends.{IsDamagedRequest, IsSendRefusal, OfGiving, ReadsForSends, Sends, SendsBy, SentAlike, TellsLong, TellsOf, TwoWorldsAreSentAlike, start_of, to_give, to_send};
ghost use Rattle.zst_run.specs.SendPieces.{Advances, GivesPieces, IfUnplanned, OpensFor, Passed, PieceLeaves, Sending, WhySendEnds, WritesPiece};

use crate::reply::hand_on;
use std::alloc::Global;
use zst_dir::bytes_are_one_directory;
use zst_extents::root_has_one_set_of_extents;
use zst_image::PoolState;
use zst_leaves::root_has_one_text;
use zst_model::{Quantity, Refusal};
use zst_outside::{Disk, Sink, write_all};
use zst_pool::{Pool, PoolFault};
use zst_reader::STREAM_LIMIT;
use zst_send::{Send, SendAsk, rest_plan, rows_stand_for_sends};
use zst_token::Token;

/// The bytes of a piece, which stay in a processor's cache from where they are read to where they are written.
const PIECE: usize = 262_144;

/// What is asked to be sent.
#[derive(Drop)]
pub(crate) enum SendRequest {
    /// A snapshot, by the names of the line.
    Named(SendAsk),
    /// The rest of what a token is of.
    Rest(Token),
}

/// What a token asks for.
pub(crate) fn ask_rest(token: &Token) -> SendRequest
    ensures { result ≡ Rest token.now }
{
    SendRequest::Rest(Token {
        large: token.large,
        to: token.to,
        from: token.from,
        point: token.point,
        redact: token.redact.duplicate(),
        from_redact: token.from_redact.duplicate(),
    })
}

// Writes a piece behind so many bytes, which it makes more. After the last one all is handed on.
fn write_piece<K: Sink>(
    piece: &[u8],
    is_last: bool,
    count: &mut u64,
    out: &mut K,
) -> Option<Result<(), Refusal>>
    requires { count.old ≤ stream_limit }
    ensures { WritesPiece piece.now is_last count.old count.new (K.state out.old) (K.state out.new) result }
{
    if piece.len() as u64 > STREAM_LIMIT - *count {
        let refusal = Refusal::Limit {
            which: Quantity::Stream,
            number: STREAM_LIMIT,
        };
        return Some(hand_on(Err(refusal), out));
    }
    match write_all(out, piece) {
        Ok(()) if is_last => Some(hand_on(Ok(()), out)),
        Ok(()) => {
            *count += piece.len() as u64;
            None
        }
        Err(_) => Some(Err(Refusal::SinkFault)),
    }
}

// One step: the next piece is taken and written, behind so many bytes, or the send ends.
fn pass_piece<D: Disk, K: Sink>(
    pool: &mut Pool<'_, D>,
    send: &mut Send,
    count: &mut u64,
    room: &mut [u8],
    out: &mut K,
) -> Option<Result<(), Refusal>>
    requires gives { GivesPieces pool.old send.old room.old }
    requires within { count.old ≤ stream_limit }
    ensures passed { (start : Option Point) (sent : Sent) (begun : SinkState) → IsHonest pool.new.io → Sending (blocks_of pool.old.io) start sent send.old begun (K.state out.old) count.old
        → Passed (blocks_of pool.new.io) start sent send.new (disk_of pool.old.io).faults (disk_of pool.new.io).faults begun (K.state out.new) count.new result }
    ensures advances { Advances count.old count.new result }
    ensures why { IfSome result (WhySendEnds pool.old pool.new send.old (K.state out.old) (K.state out.new)) }
    ensures leaves { PieceLeaves pool.old pool.new send.old send.new result }
    ensures room { length room.new ≡ length room.old }
    ensures reads { OnlyReads (disk_of pool.old.io) (disk_of pool.new.io) }
    ensures later { IsLater (io_of pool.old.io) (io_of pool.new.io) }
    ensures out_later { (K.state out.old).faults ≤ (K.state out.new).faults }
{
    match send.take(pool, room) {
        Ok(taken) => {
            let is_last = taken < room.len();
            write_piece(&room[..taken], is_last, count, out)
        }
        Err(fault) => Some(hand_on(Err(Refusal::from(fault)), out)),
    }
}

// Writes all that a send gives, and hands it on.
fn pass_all<D: Disk, K: Sink>(
    pool: &mut Pool<'_, D>,
    mut send: Send,
    room: &mut [u8],
    out: &mut K,
) -> Result<(), Refusal>
    requires { GivesPieces pool.old send room.old }
    ensures sends { (start : Option Point) (sent : Sent) → IsHonest pool.new.io → Sending (blocks_of pool.old.io) start sent send (K.state out.old) (K.state out.old) 0
        → SendsBy start (Ok sent) (disk_of pool.old.io).faults (disk_of pool.new.io).faults (K.state out.old) (K.state out.new) result }
    ensures why { WhySendEnds pool.old pool.new send (K.state out.old) (K.state out.new) result }
    ensures reads { OnlyReads (disk_of pool.old.io) (disk_of pool.new.io) }
    ensures later { IsLater (io_of pool.old.io) (io_of pool.new.io) }
{
    let mut count = 0;
    'pieces: loop {
        match pass_piece(pool, &mut send, &mut count, room, out) {
            Some(result) => return result,
            None => {}
        }
    }
}

// Opens a send of a snapshot by names.
fn open_named<D: Disk>(
    alloc: Global,
    pool: &mut Pool<'_, D>,
    ask: &SendAsk,
) -> Result<Send, PoolFault>
    requires { pool.old.io.failed ≡ false }
    ensures { OpensFor (Named ask.now) pool.old pool.new result }
{
    Send::open(pool, alloc, ask)
}

// Opens a send of the rest that a token tells.
fn open_rest<D: Disk>(
    alloc: Global,
    pool: &mut Pool<'_, D>,
    token: &Token,
) -> Result<Send, PoolFault>
    requires { pool.old.io.failed ≡ false }
    ensures { OpensFor (Rest token.now) pool.old pool.new result }
{
    let plan = rest_plan(&pool.kept.dir, token)?;
    Send::resume(pool, alloc, &plan, token.point)
}

// Opens a send, which reads the lists of its bookmarks, and of a redacted source snapshot which blocks are redacted.
fn open<D: Disk>(
    alloc: Global,
    pool: &mut Pool<'_, D>,
    request: &SendRequest,
) -> Result<Send, PoolFault>
    requires { pool.old.io.failed ≡ false }
    ensures { OpensFor request.now pool.old pool.new result }
{
    match request {
        SendRequest::Named(ask) => open_named(alloc, pool, ask),
        SendRequest::Rest(token) => open_rest(alloc, pool, token),
    }
}

// Sends what is asked from a pool that was opened.
fn send_from<D: Disk, K: Sink>(
    alloc: Global,
    pool: &mut Pool<'_, D>,
    request: &SendRequest,
    out: &mut K,
) -> Result<(), Refusal>
    requires works { pool.old.io.failed ≡ false }
    ensures sends { (running : Plain) → IsHonest pool.new.io → AreNamed pool.old.kept.dir running → StandsPlanned (blocks_of pool.old.io) pool.old.kept.dir running (to_send request.now running)
        → SendsBy (start_of request.now) (to_give request.now running) (disk_of pool.old.io).faults (disk_of pool.new.io).faults (K.state out.old) (K.state out.new) result }
    ensures planned { (running : Plain) → AreNamed pool.old.kept.dir running → IfUnplanned (to_send request.now running) (K.state out.old) (K.state out.new) result }
    ensures because { (running : Plain) (fault : PlanFault) → AreNamed pool.old.kept.dir running → result ≡ Err (Refusal.Plan fault) → to_send request.now running ≡ Err fault }
    ensures long { (running : Plain) → AreNamed pool.old.kept.dir running → TellsLong (to_send request.now running) (K.state out.old) (K.state out.new) result }
    ensures damaged { IsHonest pool.new.io → TellsOf (IsDamagedRequest request.now pool.old.io.space.end pool.old.kept.dir (disk_of pool.old.io)) result }
    ensures refused { IfErr result (IsSendRefusal OfGiving (disk_of pool.old.io) (disk_of pool.new.io) (K.state out.old) (K.state out.new)) }
    ensures reads { OnlyReads (disk_of pool.old.io) (disk_of pool.new.io) }
    // One that ends well has met no damaged block.
    ensures told { OnOk result (pool.new.io.checksum_errors ≡ pool.old.io.checksum_errors) }
    ensures later { IsLater (io_of pool.old.io) (io_of pool.new.io) }
{
    let send = open(alloc, pool, request)?;
    let Ok(mut room) = vec![in alloc; 0; PIECE] else {
        return Err(Refusal::OutOfMemory);
    };
    pass_all(pool, send, room.as_mut_slice(), out)
}

/// Sends what is asked from the pool of an image.
pub(crate) fn send<D: Disk, K: Sink>(
    alloc: Global,
    here: &mut D,
    request: &SendRequest,
    out: &mut K,
) -> Result<(), Refusal>
    ensures { Sends request.now (D.state here.old) (D.state here.new) (K.state out.old) (K.state out.new) result }
{
    root_has_one_text();
    root_has_one_set_of_extents();
    bytes_are_one_directory();
    let kept = PoolState::open(alloc, here)?;
    let mut pool = Pool::new(alloc, here, kept);
    let result = send_from(alloc, &mut pool, request, out);
    // Only of a disk that was given back is it known what stands on it.
    pool.into_disk();
    result
}

/// An image that reads as a pool reads so for each send.
pub fn pools_read_for_sends()
    ensures { ReadsForSends }
{
    rows_stand_for_sends();
}

/// Sends of equal views, both from the beginning or from one point, write equal bytes.
pub fn equal_views_are_written_alike<D: Disk, E: Disk>()
    ensures { (here now : D) (there later : E) → SentAlike (D.state here) (D.state now) (E.state there) (E.state later) }
{
    zst_send::equal_views_are_sent_alike();
}

/// Sends of pools that differ in what is redacted alone, and in what isn't asked for, write equal bytes.
pub fn two_worlds_are_sent_alike<D: Disk, E: Disk>()
    ensures { (here now : D) (there later : E) → TwoWorldsAreSentAlike (D.state here) (D.state now) (E.state there) (E.state later) }
{
    zst_laws::alike_pools_are_sent_alike();
    zst_send::equal_views_are_sent_alike();
}

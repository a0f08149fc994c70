// The line that receives a snapshot: its stream is read piece by piece, and each piece is one commit of the image.
ghost use Rattle.std.specs.Prelude.{◌≡◌, ◌++◌, ◌∷◌, ◌≤◌, ℕ, Bool, List, [], Err, IsSome, OnOk, Option, Some, codes, false, length, take, true};
ghost use Rattle.zst_outside.specs.Printing.{Prints};
ghost use Rattle.zst_outside.specs.States.{Gave, HandedOn};
ghost use Rattle.zst_space.specs.FreeSectors.{FreeSectors};
ghost use Rattle.zst_block.specs.Blocks.{Has};
ghost use Rattle.zst_block.specs.IoStates.{disk_of, io_of};
ghost use Rattle.zst_image.specs.Commits.{Ready};
ghost use Rattle.zst_model.specs.pools.Pool.{Pool as Plain};
ghost use Rattle.zst_model.specs.states.State.{AreBytes};
ghost use Rattle.zst_plan.specs.RecvPlan.{snapshot_name};
ghost use Rattle.zst_pool.specs.Calls.{IsAtRest};
ghost use Rattle.zst_recv.specs.ReceiveSteps.{Stage, left_by};
ghost use Rattle.zst_recv.specs.Stages.{Receives as HasTaken, RecvFits, ask_of, fed_of, is_live, received_by, stage_of};
ghost use Rattle.zst_dir.specs.Rows.{Rows};
ghost use Rattle.zst_run.specs.LaterDisks.{IsLater};
ghost use Rattle.zst_run.specs.Receives.{Receiving, SaysOfPlan, piece_size};
ghost use Rattle.zst_run.specs.Replies.{Replies, reply_text};
ghost use Rattle.zst_run.specs.ReceiveTurns.{CanFeed, Fed, Fills, HasFed, IsReady, IsUnfed, PlansOn, TurnBlocks, TurnLeaves, TurnPlans, TurnSets, Turns, WaitsForMore, WhyReceiveEnds, cut_refusal, line_of, told, turn_behind};

use itoa::Buffer;
use std::alloc::Global;
use zst_image::{PoolState, images_keep_partials};
use zst_model::{Refusal, guid_text};
use zst_outside::{Disk, Fault, Sink, Source, write_all};
use zst_pool::{Pool, opened_is_at_rest};
use zst_recv::{ReceivedSnapshot, Recv, RecvAsk};
use zst_replication::records_are_counted;
use zst_stream::fronts_agree;

/// How many bytes are read at once, and committed once.
const PIECE: usize = 1_048_576;

/// What an input gave for a piece.
#[derive(Clone, Copy)]
struct Piece {
    /// How many bytes it gave.
    count: usize,
    /// Whether it ended or failed behind them.
    end: Option<End>,
}

/// Why no more comes of an input.
#[derive(Clone, Copy)]
enum End {
    /// It ended.
    Ended,
    /// It failed.
    Failed,
}

// Fills the room from the input, as far as that goes.
fn read_piece<S: Source>(input: &mut S, room: &mut [u8]) -> Piece
    ensures within { result.count ≤ length room.new }
    ensures gave { Gave (S.state input.old) (S.state input.new) (take result.count room.new) }
    ensures bytes { AreBytes room.new }
    ensures fills { Fills (S.state input.old) (S.state input.new) (length room.new) result.count result.end }
    ensures later { (S.state input.old).faults ≤ (S.state input.new).faults }
    ensures room { length room.new ≡ length room.old }
{
    let mut count = 0;
    'reads: while count < room.len() {
        match input.read(&mut room[count..]) {
            Ok(0) => {
                return Piece {
                    count,
                    end: Some(End::Ended),
                };
            }
            Ok(got) => count += got,
            Err(Fault) => {
                return Piece {
                    count,
                    end: Some(End::Failed),
                };
            }
        }
    }
    Piece { count, end: None }
}

/// What a piece of a stream makes of a receive.
#[derive(Drop)]
enum Turn {
    /// More is to come.
    More,
    /// END was received.
    Received,
    /// The input gives no more, and END isn't covered.
    Over(End),
    /// The piece is refused.
    Refused(Refusal),
}

// What follows a piece that left the receive waiting.
fn turn_behind(end: Option<End>) -> Turn
    ensures { result ≡ turn_behind end }
{
    match end {
        Some(end) => Turn::Over(end),
        None => Turn::More,
    }
}

// One step: a piece is read and fed. It counts the records that were applied.
fn feed_piece<D: Disk, S: Source>(
    alloc: Global,
    pool: &mut Pool<'_, D>,
    recv: &mut Recv,
    room: &mut [u8],
    items: &mut u64,
    input: &mut S,
) -> Turn
    requires can_feed { CanFeed pool.old recv.old }
    requires room { length room.old ≡ piece_size }
    ensures turns { Turns (disk_of pool.old.io) (disk_of pool.new.io) pool.old.kept pool.new.kept recv.old recv.new items.old items.new (S.state input.old) (S.state input.new) result }
    // Whatever the image, the plan over the rows at the start says whether BEGIN is refused.
    ensures plans { (rows : Rows) (text piece : List ℕ) → Gave (S.state input.old) (S.state input.new) piece → PlansOn rows pool.old.kept recv.old text → TurnPlans rows (ask_of recv.old) pool.new.kept recv.new (text ++ piece) result }
    ensures blocks { TurnBlocks pool.old pool.new recv.old recv.new result }
    ensures sets { (text piece : List ℕ) → Gave (S.state input.old) (S.state input.new) piece → HasFed recv.old text → TurnSets pool.old pool.new recv.old recv.new (text ++ piece) result }
    ensures leaves { TurnLeaves pool.old pool.new recv.old recv.new result }
    ensures room { length room.new ≡ length room.old }
    ensures later { IsLater (io_of pool.old.io) (io_of pool.new.io) }
    ensures input_later { (S.state input.old).faults ≤ (S.state input.new).faults }
{
    records_are_counted();
    fronts_agree();
    let piece = read_piece(input, room);
    if piece.count == 0 {
        return turn_behind(piece.end);
    }
    match recv.feed(pool, alloc, &room[..piece.count]) {
        Ok(fed) => {
            *items = items.saturating_add(fed.applied);
            if fed.done {
                return Turn::Received;
            }
            turn_behind(piece.end)
        }
        Err(fault) => Turn::Refused(Refusal::from(fault)),
    }
}

// Ends a receive whose input gave no more.
fn cut<D: Disk>(pool: &mut Pool<'_, D>, recv: Recv, end: End) -> Refusal
    requires live { is_live (stage_of recv) ≡ true }
    requires recv { RecvFits pool.old.kept.dir recv }
    ensures is { result ≡ cut_refusal end (fed_of recv) }
    ensures rests { (tight : Bool) (bound : Option ℕ) (running : Plain) (image : List ℕ) (space : FreeSectors) (stage : Stage) (text : List ℕ) → IsAtRest tight (disk_of pool.old.io) pool.old.kept running
        → HasTaken bound (Has image space) recv text stage → IsAtRest tight (disk_of pool.new.io) pool.new.kept (left_by stage running) }
    ensures io { pool.new.io ≡ pool.old.io }
{
    match (recv.cut(pool), end) {
        (Err(fault), End::Ended) => Refusal::from(fault),
        (_, _) => Refusal::SourceFault,
    }
}

/// What a receive has made.
#[derive(Drop)]
struct Receipt {
    snapshot: ReceivedSnapshot,
    /// How many records stood between BEGIN and END.
    items: u64,
}

// The snapshot of a receive that came to END.
fn made_receipt(recv: &Recv, items: u64) -> Receipt
    requires { IsSome (received_by recv.now) }
    ensures snapshot { received_by recv.now ≡ Some result.snapshot }
    ensures items { result.items ≡ items }
{
    match recv.received() {
        Some(snapshot) => Receipt { snapshot, items },
        None => unreachable!(),
    }
}

// Feeds all that the input gives, up to END, and counts the records that were applied.
fn feed_all<D: Disk, S: Source>(
    alloc: Global,
    pool: &mut Pool<'_, D>,
    mut recv: Recv,
    room: &mut [u8],
    input: &mut S,
) -> Result<Receipt, Refusal>
    requires can_feed { CanFeed pool.old recv }
    requires unfed { IsUnfed recv }
    requires room { length room.old ≡ piece_size }
    ensures plans { (rows : Rows) (text : List ℕ) → Gave (S.state input.old) (S.state input.new) text → PlansOn rows pool.old.kept recv [] → SaysOfPlan rows (ask_of recv) text (told result) }
    ensures fed { Fed (λ tight start. WaitsForMore tight (disk_of pool.old.io) pool.old.kept recv (ask_of recv) start [] 0) pool.old.kept (disk_of pool.old.io) (disk_of pool.new.io) (ask_of recv) (S.state input.old) (S.state input.new) (told result) }
    ensures why { WhyReceiveEnds pool.old pool.new (ask_of recv) (S.state input.old) (S.state input.new) result }
    ensures later { IsLater (io_of pool.old.io) (io_of pool.new.io) }
    ensures input_later { (S.state input.old).faults ≤ (S.state input.new).faults }
{
    let mut items = 0;
    'pieces: loop {
        match feed_piece(alloc, pool, &mut recv, room, &mut items, input) {
            Turn::More => {}
            Turn::Received => return Ok(made_receipt(&recv, items)),
            Turn::Over(end) => return Err(cut(pool, recv, end)),
            Turn::Refused(refusal) => return Err(refusal),
        }
    }
}

// Receives what is asked into a pool that was opened.
fn receive_into<D: Disk, S: Source>(
    alloc: Global,
    pool: &mut Pool<'_, D>,
    ask: RecvAsk,
    input: &mut S,
) -> Result<Receipt, Refusal>
    requires works { pool.old.io.failed ≡ false }
    requires ready { Ready (disk_of pool.old.io) pool.old.kept.body }
    ensures plans { (text : List ℕ) → Gave (S.state input.old) (S.state input.new) text → SaysOfPlan pool.old.kept.dir ask text (told result) }
    ensures fed { Fed (λ tight. IsReady ask tight (disk_of pool.old.io) pool.old.kept) pool.old.kept (disk_of pool.old.io) (disk_of pool.new.io) ask (S.state input.old) (S.state input.new) (told result) }
    ensures why { WhyReceiveEnds pool.old pool.new ask (S.state input.old) (S.state input.new) result }
    ensures later { IsLater (io_of pool.old.io) (io_of pool.new.io) }
    ensures input_later { (S.state input.old).faults ≤ (S.state input.new).faults }
{
    let Ok(mut room) = vec![in alloc; 0; PIECE] else {
        return Err(Refusal::OutOfMemory);
    };
    let recv = Recv::open(pool, alloc, ask)?;
    feed_all(alloc, pool, recv, room.as_mut_slice(), input)
}

// Receives what is asked into the pool of an image.
fn receive_image<D: Disk, S: Source>(
    alloc: Global,
    here: &mut D,
    ask: RecvAsk,
    input: &mut S,
) -> Result<Receipt, Refusal>
    ensures { Receiving ask (D.state here.old) (D.state here.new) (S.state input.old) (S.state input.new) (told result) }
{
    images_keep_partials();
    opened_is_at_rest::<D>();
    let kept = PoolState::open(alloc, here)?;
    let mut pool = Pool::new(alloc, here, kept);
    let result = receive_into(alloc, &mut pool, ask, input);
    // Only of a disk that was given back is it known what stands on it.
    pool.into_disk();
    result
}

// Writes the name of a snapshot.
fn write_name<K: Sink>(snapshot: &ReceivedSnapshot, out: &mut K) -> Result<(), Fault>
    ensures { Prints (K.state out.old) (K.state out.new) (snapshot_name snapshot.now.target snapshot.now.component) result }
{
    write_all(out, snapshot.target.text().as_bytes())?;
    write_all(out, b"@")?;
    write_all(out, snapshot.component.as_bytes())
}

// Writes what a text says behind a word.
fn write_both<K: Sink>(word: &[u8], text: &[u8], out: &mut K) -> Result<(), Fault>
    ensures { Prints (K.state out.old) (K.state out.new) (word.now ++ text.now) result }
{
    write_all(out, word)?;
    write_all(out, text)
}

// Writes the line of a receive, and its line feed.
fn write_receipt<K: Sink>(receipt: &Receipt, out: &mut K) -> Result<(), Fault>
    ensures { Prints (K.state out.old) (K.state out.new) (line_of receipt.now ++ codes "\n") result }
{
    let guid = guid_text(receipt.snapshot.guid);
    write_all(out, b"received ")?;
    write_name(&receipt.snapshot, out)?;
    write_both(b" guid ", guid.as_str().as_bytes(), out)?;
    write_both(
        b" items ",
        Buffer::new().format(receipt.items).as_bytes(),
        out,
    )?;
    write_all(out, b"\n")
}

// Writes the line of a receive, and hands it on.
fn print_receipt<K: Sink>(receipt: &Receipt, out: &mut K) -> Result<(), Fault>
    ensures prints { Prints (K.state out.old) (K.state out.new) (reply_text (line_of receipt.now ∷ [])) result }
    ensures handed_on { OnOk result (HandedOn (K.state out.new)) }
{
    write_receipt(receipt, out)?;
    out.flush()
}

/// Receives what is asked into the pool of an image, and writes the line of the snapshot.
pub(crate) fn receive<D: Disk, S: Source, K: Sink>(
    alloc: Global,
    here: &mut D,
    ask: RecvAsk,
    input: &mut S,
    out: &mut K,
) -> Result<(), Refusal>
    ensures { Replies (Receiving ask (D.state here.old) (D.state here.new) (S.state input.old) (S.state input.new)) (K.state out.old) (K.state out.new) result }
{
    let receipt = receive_image(alloc, here, ask, input)?;
    match print_receipt(&receipt, out) {
        Ok(()) => Ok(()),
        Err(_) => Err(Refusal::SinkFault),
    }
}

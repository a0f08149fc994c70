ghost use Rattle.std.specs.Prelude.{◌<◌, ◌≤◌};
ghost use Rattle.zst_outside.specs.States.{SourceState, SinkState};
ghost use Rattle.zst_reader.specs.InputReads.{stream_limit};
ghost use Rattle.zst_reader.specs.StandsFor.{pushed_of, room_of};
ghost use Rattle.zst_run.specs.Dumps.{Dumps, HasOneAnswer};
ghost use Rattle.zst_run.specs.DumpTurns.{Dumping, IsLast, TakesMore, Turned};

use crate::reply::hand_on;
use std::alloc::Global;
use zst_dump::{Counts, line_of, summary};
use zst_model::{Quantity, Refusal, StreamFault};
use zst_outside::{Sink, Source};
use zst_reader::{Reader, STREAM_LIMIT, Step};

// After as many bytes as a stream may have: the input has to end there.
fn refusal_at_limit<S: Source>(input: &mut S) -> Refusal
    ensures { IsLast (S.state input.old) (S.state input.new) stream_limit result }
{
    match input.read(&mut [0; 1]) {
        Ok(0) => Refusal::Stream(StreamFault::Truncated { at: STREAM_LIMIT }),
        Ok(_) => Refusal::Limit {
            which: Quantity::Stream,
            number: STREAM_LIMIT,
        },
        Err(_) => Refusal::SourceFault,
    }
}

// Takes more of the input, where some comes.
fn take_more<S: Source>(reader: &mut Reader, input: &mut S) -> Result<(), Refusal>
    requires room { 0 < room_of reader.old }
    requires within { pushed_of reader.old ≤ stream_limit }
    ensures { TakesMore (S.state input.old) (S.state input.new) reader.old reader.new result }
{
    if reader.pushed() == STREAM_LIMIT {
        return Err(refusal_at_limit(input));
    }
    match reader.fill(input) {
        Ok(0) => Err(Refusal::Stream(StreamFault::Truncated {
            at: reader.pushed(),
        })),
        Ok(_) => Ok(()),
        Err(_) => Err(Refusal::SourceFault),
    }
}

// One step: the line of a record is written, or more of the input is taken, or the dump ends.
fn turn<S: Source, K: Sink>(
    reader: &mut Reader,
    counts: &mut Counts,
    input: &mut S,
    out: &mut K,
) -> Option<Result<(), Refusal>>
    requires { (start : SourceState) × (begun : SinkState) × Dumping start (S.state input.old) begun (K.state out.old) reader.old counts.old }
    ensures { (start : SourceState) (begun : SinkState) → Dumping start (S.state input.old) begun (K.state out.old) reader.old counts.old
        → Turned start (S.state input.new) begun (K.state out.new) reader.old reader.new counts.new result }
{
    match reader.next() {
        Ok(Step::Record(record)) => match line_of(&record, out) {
            Ok(()) => {
                counts.add(&record.head);
                None
            }
            Err(_) => Some(Err(Refusal::SinkFault)),
        },
        // The lines so far are seen before more of the input is waited for.
        Ok(Step::NeedMore) => match out.flush() {
            Ok(()) => match take_more(reader, input) {
                Ok(()) => None,
                Err(refusal) => Some(Err(refusal)),
            },
            Err(_) => Some(Err(Refusal::SinkFault)),
        },
        Ok(Step::End) => match summary(counts, out) {
            Ok(()) => Some(hand_on(Ok(()), out)),
            Err(_) => Some(Err(Refusal::SinkFault)),
        },
        Err(fault) => Some(hand_on(Err(Refusal::from(fault)), out)),
    }
}

/// Writes a line for each covered record of the stream that the input is, and after END two last lines.
pub(crate) fn dump<S: Source, K: Sink>(
    alloc: Global,
    input: &mut S,
    out: &mut K,
) -> Result<(), Refusal>
    ensures { Dumps (S.state input.old) (S.state input.new) (K.state out.old) (K.state out.new) result }
{
    let Ok(mut reader) = Reader::open(alloc) else {
        return Err(Refusal::OutOfMemory);
    };
    let mut counts = Counts::new();
    'turns: for turned in 0..u64::MAX {
        match turn(&mut reader, &mut counts, input, out) {
            Some(result) => return result,
            None => {}
        }
    }
    unreachable!()
}

/// The ends of a dump exclude one another: its answer is told by what was read, and by which counts of faults rose.
pub fn dumps_have_one_answer()
    ensures { HasOneAnswer }
{}

// The line that runs a script on two images, event by event.
ghost use Rattle.std.specs.Prelude.{◌≡◌, []};
ghost use Rattle.zst_run.specs.Replays.{Replays, finds_no_memory};
ghost use Rattle.zst_run.specs.ReplayTurns.{RunsAll, RunsEvent, RunsSaid, SaysInRange, TurnsLine};
ghost use Rattle.zst_script.specs.Lines.{IsEvent};
ghost use Rattle.zst_script.specs.ScriptLines.{HasLines};
ghost use Rattle.zst_outside.specs.States.{SourceState};
ghost use Rattle.zst_sessions.specs.EngineSteps.{EngineFits};
ghost use Rattle.zst_sessions.specs.EventReplies.{answer_of};

use crate::event_replies::print_answer;
use std::alloc::{AllocError, Global};
use zst_image::{PoolState, images_keep_partials};
use zst_model::{Quantity, Refusal};
use zst_outside::{Disk, Sink, Source};
use zst_pool::{Pool, opened_is_at_rest};
use zst_script::{
    Event, NextLine, SCRIPT_LIMIT, ScriptLines, event_of, read_lines_are_scripts, scripts_go_on,
};
use zst_sessions::{Engine, EventReply, Room, runs_go_on};

/// Whether a script goes on behind a line.
#[derive(Clone, Copy)]
enum Behind {
    More,
    /// All of it was read.
    End,
}

/// Whether an event found no memory, which ends the replay.
fn finds_no_memory(answer: &Result<EventReply, Refusal>) -> bool
    ensures { result ≡ finds_no_memory (answer_of answer.now) }
{
    matches!(answer, Err(Refusal::OutOfMemory))
}

// Runs an event, and writes its reply.
fn run_event<D: Disk, E: Disk, K: Sink>(
    alloc: Global,
    engine: &mut Engine<'_, '_, D, E>,
    event: Event,
    out: &mut K,
) -> Result<(), Refusal>
    requires event { IsEvent event }
    requires fits { EngineFits engine.old }
    ensures { RunsEvent event engine.old engine.new (K.state out.old) (K.state out.new) result }
{
    let answer = engine.step(alloc, event);
    if finds_no_memory(&answer) {
        return Err(Refusal::OutOfMemory);
    }
    match print_answer(&answer, out) {
        Ok(()) => Ok(()),
        Err(_) => Err(Refusal::SinkFault),
    }
}

// Runs the event that the line with this number says.
fn run_said<D: Disk, E: Disk, K: Sink>(
    alloc: Global,
    engine: &mut Engine<'_, '_, D, E>,
    said: Result<Option<Event>, AllocError>,
    number: u64,
    out: &mut K,
) -> Result<Behind, Refusal>
    requires event { SaysInRange said }
    requires fits { EngineFits engine.old }
    ensures { RunsSaid said number engine.old engine.new (K.state out.old) (K.state out.new) result }
{
    match said {
        Ok(Some(event)) => {
            run_event(alloc, engine, event, out)?;
            Ok(Behind::More)
        }
        Ok(None) => Err(Refusal::Usage { place: number }),
        Err(_) => Err(Refusal::OutOfMemory),
    }
}

// Runs the next line of a script.
fn run_line<D: Disk, E: Disk, S: Source, K: Sink>(
    alloc: Global,
    engine: &mut Engine<'_, '_, D, E>,
    lines: &mut ScriptLines,
    input: &mut S,
    out: &mut K,
) -> Result<Behind, Refusal>
    requires fits { EngineFits engine.old }
    ensures { TurnsLine engine.old engine.new lines.old lines.new (S.state input.old) (S.state input.new) (K.state out.old) (K.state out.new) result }
{
    match lines.next(input) {
        NextLine::Passed => Ok(Behind::More),
        NextLine::Line(line) => {
            let said = event_of(alloc, line);
            run_said(alloc, engine, said, lines.number(), out)
        }
        NextLine::Overlong => Err(Refusal::Usage {
            place: lines.number(),
        }),
        NextLine::End => Ok(Behind::End),
        NextLine::Limit => Err(Refusal::Limit {
            which: Quantity::Script,
            number: SCRIPT_LIMIT,
        }),
        NextLine::Fault => Err(Refusal::SourceFault),
    }
}

// Runs all lines of a script.
fn run_lines<D: Disk, E: Disk, S: Source, K: Sink>(
    alloc: Global,
    engine: &mut Engine<'_, '_, D, E>,
    lines: &mut ScriptLines,
    input: &mut S,
    out: &mut K,
) -> Result<(), Refusal>
    requires fits { EngineFits engine.old }
    requires unread { (state : SourceState) → HasLines state lines.old [] [] }
    ensures { RunsAll engine.old engine.new (S.state input.old) (S.state input.new) (K.state out.old) (K.state out.new) result }
{
    read_lines_are_scripts();
    scripts_go_on();
    runs_go_on();
    'lines: loop {
        match run_line(alloc, engine, lines, input, out) {
            Ok(Behind::More) => {}
            Ok(Behind::End) => return Ok(()),
            Err(refusal) => return Err(refusal),
        }
    }
}

/// Runs the script that the input is on two images, each event at once, and writes the replies as they come. Its own memory
/// is taken before an image is opened.
pub(crate) fn replay<D: Disk, E: Disk, S: Source, K: Sink>(
    alloc: Global,
    now: u64,
    here: &mut D,
    there: &mut E,
    input: &mut S,
    out: &mut K,
) -> Result<(), Refusal>
    ensures { Replays now (D.state here.old) (D.state here.new) D.tells_images (E.state there.old) (E.state there.new) E.tells_images
        (S.state input.old) (S.state input.new) (K.state out.old) (K.state out.new) result }
{
    images_keep_partials();
    opened_is_at_rest::<D>();
    opened_is_at_rest::<E>();
    let Ok(room) = Room::new(alloc) else {
        return Err(Refusal::OutOfMemory);
    };
    let Ok(mut lines) = ScriptLines::new(alloc) else {
        return Err(Refusal::OutOfMemory);
    };
    let kept = PoolState::open(alloc, here)?;
    let other = PoolState::open(alloc, there)?;
    let first = Pool::new(alloc, here, kept);
    let second = Pool::new(alloc, there, other);
    let mut engine = Engine::new(room, first, second, now);
    let result = run_lines(alloc, &mut engine, &mut lines, input, out);
    // Only of a disk that was given back is it known what stands on it.
    let (first, second) = engine.finish();
    first.into_disk();
    second.into_disk();
    result
}

//! The lines of sessions that aren't read as command lines are.
ghost use Rattle.std.specs.Prelude.{◌≢◌, ◌∷◌, map, codes, string_bytes};
ghost use Rattle.zst_script.specs.EventWords.{BeginWith, WordsSay};
ghost use Rattle.zst_script.specs.Lines.{word_for};
ghost use Rattle.zst_script.specs.declared.event.Side.{Side};

use crate::event::{Event, Side};
use crate::words::{count_of, dataset_of, id_of};

/// The event of a line that pumps, by the words behind its first one.
fn pump_event(words: &[String]) -> Option<Event>
    ensures { WordsSay (codes "pump" ∷ map string_bytes words.now) result }
{
    let [sends, receives, count] = words else {
        return None;
    };
    Some(Event::Pump {
        send: id_of(sends.as_str())?,
        receive: id_of(receives.as_str())?,
        count: count_of(count.as_str())?,
    })
}

/// The event of a line that drops bytes of a send.
fn drop_event(words: &[String]) -> Option<Event>
    ensures { WordsSay (codes "drop" ∷ map string_bytes words.now) result }
{
    let [sends, count] = words else { return None };
    Some(Event::Drop {
        send: id_of(sends.as_str())?,
        count: count_of(count.as_str())?,
    })
}

/// The event of a line that closes a send.
fn close_event(words: &[String]) -> Option<Event>
    ensures { WordsSay (codes "close" ∷ map string_bytes words.now) result }
{
    let [sends] = words else { return None };
    Some(Event::Close {
        send: id_of(sends.as_str())?,
    })
}

/// The event of a line that ends a receive.
fn cut_event(words: &[String]) -> Option<Event>
    ensures { WordsSay (codes "cut" ∷ map string_bytes words.now) result }
{
    let [receives] = words else { return None };
    Some(Event::Cut {
        receive: id_of(receives.as_str())?,
    })
}

/// The event of a line whose first word stands for no pool.
pub fn session_event(first: &str, words: &[String]) -> Option<Event>
    requires { (side : Side) → first.now ≢ word_for side }
    ensures { WordsSay (first.now ∷ map string_bytes words.now) result }
{
    match first {
        "pump" => pump_event(words),
        "drop" => drop_event(words),
        "close" => close_event(words),
        "cut" => cut_event(words),
        _ => None,
    }
}

/// The event of a line that opens a send with a token that the other pool tells.
pub fn resume_event(side: Side, words: &[String]) -> Option<Event>
    requires { BeginWith (codes "resume") (map string_bytes words.now) }
    ensures { WordsSay (word_for side ∷ map string_bytes words.now) result }
{
    let [_, sends, dataset] = words else {
        return None;
    };
    Some(Event::Resume {
        side,
        send: id_of(sends.as_str())?,
        dataset: dataset_of(dataset.as_str())?,
    })
}

/// The event of a line that opens a pool again.
pub fn reopen_event(side: Side, words: &[String]) -> Option<Event>
    requires { BeginWith (codes "reopen") (map string_bytes words.now) }
    ensures { WordsSay (word_for side ∷ map string_bytes words.now) result }
{
    match words {
        [_] => Some(Event::Reopen { side }),
        _ => None,
    }
}

ghost use Rattle.std.specs.Prelude.{map, string_bytes};
ghost use Rattle.zst_line.specs.Line.{LineAnswers};

use crate::kind::kind_of;
use crate::kind_lines::spelled;
use crate::line::{Line, LineFault};
use crate::places::{first_misplaced, first_misread, places};
use std::alloc::Global;

/// The line that the words behind the program's name say. Words are judged for their places from left to right, then
/// for names and tokens.
pub fn parse(alloc: Global, words: &[String]) -> Result<Line, LineFault>
    ensures { LineAnswers (map string_bytes words.now) result }
{
    let Some((first, rest)) = words.split_first() else {
        return Err(LineFault::Usage { place: 0 });
    };
    let Some(kind) = kind_of(first.as_str()) else {
        return Err(LineFault::Usage { place: 0 });
    };
    let slots = places(alloc, kind, rest)?;
    if let Some(index) = first_misplaced(slots.as_slice(), rest) {
        return Err(LineFault::Usage {
            place: index as u64 + 1,
        });
    }
    if let Some(fault) = first_misread(slots.as_slice(), rest) {
        return Err(fault);
    }
    Ok(spelled(alloc, kind, rest)?)
}

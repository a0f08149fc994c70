// Where a receive stands behind a record.
ghost use Rattle.std.specs.Prelude.{◌≡◌, ◌<◌, ◌+◌, ◌^◌, ◌==◌, ℕ, List, length, if◌then◌else◌};
ghost use Rattle.zst_model.specs.sends.Points.{point_of};
ghost use Rattle.zst_record.specs.Heads.{payload_len};
ghost use Rattle.zst_recv.specs.TakenRecords.{EndFits};
ghost use Rattle.zst_stream.specs.Items.{items_by};

use zst_model::Point;
use zst_model::limits::NUMBER_BOUND;
use zst_record::Head;

// Past a range of an object's bytes.
fn past(object: u64, offset: u64, length: u64) -> Point
    ensures { offset + length < 2 ^ 64 → result ≡ record { object = object; offset = offset + length } }
{
    Point {
        object,
        offset: offset.saturating_add(length),
    }
}

// OBJECT moves only into another object.
fn within(point: Point, object: u64) -> Point
    ensures { result ≡ (if object == point.object then point else record { object = object; offset = 0 }) }
{
    if object == point.object {
        point
    } else {
        Point { object, offset: 0 }
    }
}

/// The point behind a record that was applied: past its range; OBJECT moves only into another object, SPILL and a FREE to the
/// end leave it, and FREEOBJECTS is cut at 2^48.
pub(crate) fn point_behind(point: Point, head: &Head) -> Point
    ensures { (flags : ℕ) (payload : List ℕ) → EndFits head.now → length payload ≡ payload_len head.now → result ≡ point_of point (items_by flags payload head.now) }
{
    match head {
        Head::Object { object, .. } => within(point, *object),
        Head::FreeObjects { first, count, .. } => Point {
            object: first.saturating_add(*count).min(NUMBER_BOUND),
            offset: 0,
        },
        Head::Write {
            object,
            offset,
            length,
            ..
        } => past(*object, *offset, *length),
        Head::Free {
            object,
            offset,
            length,
            ..
        } => {
            if *length == u64::MAX {
                point
            } else {
                past(*object, *offset, *length)
            }
        }
        Head::Redact {
            object,
            offset,
            length,
            ..
        } => past(*object, *offset, *length),
        Head::Begin { .. } | Head::End { .. } | Head::Spill { .. } => point,
    }
}

ghost use Rattle.std.specs.Prelude.{◌≡◌};
ghost use Rattle.zst_model.specs.sends.ItemRanges.{HasPlace, ChangeHasPlace};
ghost use Rattle.zst_model.specs.declared.states.item.Item.TheVariants.{At};
ghost use Rattle.zst_model.specs.sends.Points.{point_after, stated_point};

use crate::limits::NUMBER_BOUND;
use crate::sends::header::Point;
use crate::states::item::{Change, Item};

/// Where a stream begins: at the origin, where it states no point.
pub fn stated_point(stated: Option<Point>) -> Point
    ensures { result ≡ stated_point stated }
{
    stated.unwrap_or(Point::ORIGIN)
}

/// Where a receiver stands after an item: past its range, whose end is a number of 64 bits.
#[tactic(auto, unfolding(crate::specs::states::State::number_bound))]
pub fn point_after(point: Point, item: &Item) -> Point
    requires { HasPlace item.now }
    ensures { result ≡ point_after point item.now }
{
    match item {
        Item::FreeObjects { first, count } => Point {
            object: first.saturating_add(*count).min(NUMBER_BOUND),
            offset: 0,
        },
        Item::At { object, change } => point_after_change(point, *object, change),
    }
}

fn point_after_change(point: Point, object: u64, change: &Change) -> Point
    requires { ChangeHasPlace change.now }
    ensures { result ≡ point_after point (At object change.now) }
{
    match change {
        Change::Put {
            head: _,
            bonus: _,
            keep_spill: _,
            max_block: _,
        } => {
            if object == point.object {
                point
            } else {
                Point { object, offset: 0 }
            }
        }
        Change::Spill { bytes: _ } => point,
        Change::FreeFrom { offset: _ } => point,
        Change::Free { offset, length } => Point {
            object,
            offset: offset + length,
        },
        Change::Redact { offset, length } => Point {
            object,
            offset: offset + length,
        },
        Change::Write {
            offset,
            type_: _,
            bytes,
        } => Point {
            object,
            offset: offset + bytes.as_slice().len() as u64,
        },
    }
}

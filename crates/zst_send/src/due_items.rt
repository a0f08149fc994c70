ghost use Rattle.std.specs.Prelude.{◌≡◌, ◌==◌, ◌+◌, ◌^◌, ◌<◌, ◌≤◌, true, Some, None, IfSome, if◌then◌else◌};
ghost use Rattle.zst_model.specs.declared.sends.header.Point.{Point};
ghost use Rattle.zst_send.specs.DueItems.{DueFits, behind, due_of, is_run, joined_due, size_of_run};
ghost use Rattle.zst_traverse.specs.Cells.{FoundFits};

use zst_block::Ptr;
use zst_dnode::Dnode;
use zst_model::Cell;
use zst_traverse::WalkEntry;

/// What comes next in a stream, with the places of its bytes in the pool. Offsets and lengths are
/// in bytes.
#[derive(Clone, Copy)]
pub(crate) enum DueItems {
    /// Numbers without objects.
    Absent {
        first: u64,
        count: u64,
    },
    /// An object: OBJECT, SPILL where it has one, and the FREE of its tail.
    Object {
        object: u64,
        dnode: Dnode,
    },
    /// SPILL and the FREE of the tail, from this offset on.
    Spill {
        object: u64,
        ptr: Ptr,
        tail: u64,
    },
    /// The FREE of the tail.
    Tail {
        object: u64,
        offset: u64,
    },
    /// Holes of an object.
    Holes {
        object: u64,
        offset: u64,
        length: u64,
    },
    /// A redacted range of an object.
    Redacted {
        object: u64,
        offset: u64,
        length: u64,
    },
    /// A block of an object of this type.
    Block {
        object: u64,
        type_: u32,
        offset: u64,
        ptr: Ptr,
    },
}

/// What a walk found, where the point's object has this type and blocks of this size.
pub(crate) fn due_of(found: WalkEntry, type_: u32, block_size: u32) -> DueItems
    requires found { (point : Point) × FoundFits point found }
    requires size { (0 < block_size) × (block_size ≤ 131072) }
    ensures due { result ≡ due_of found type_ block_size }
    ensures fits { DueFits result }
{
    match found {
        WalkEntry::Object { number, dnode } => DueItems::Object {
            object: number,
            dnode,
        },
        WalkEntry::Gone { first, count } => DueItems::Absent { first, count },
        WalkEntry::Pairs {
            object,
            first,
            count,
            what,
            ptr,
        } => {
            let size = u64::from(block_size);
            let (offset, length) = (first * size, count * size);
            match what {
                Cell::Hole => DueItems::Holes {
                    object,
                    offset,
                    length,
                },
                Cell::Redacted => DueItems::Redacted {
                    object,
                    offset,
                    length,
                },
                Cell::Data => DueItems::Block {
                    object,
                    type_,
                    offset,
                    ptr,
                },
            }
        }
    }
}

impl DueItems {
    /// Whether what is found next may lengthen it.
    pub(crate) fn is_run(&self) -> bool
        ensures { result ≡ is_run self.now }
    {
        matches!(
            self,
            DueItems::Absent { .. } | DueItems::Holes { .. } | DueItems::Redacted { .. }
        )
    }

    /// What is due once its first record was put.
    pub(crate) fn behind(&self) -> Option<DueItems>
        requires { DueFits self.now }
        ensures behind { result ≡ behind self.now }
        ensures fits { IfSome result DueFits }
    {
        match *self {
            DueItems::Object { object, dnode } => Some(opened(object, &dnode)),
            DueItems::Spill {
                object,
                ptr: _,
                tail,
            } => Some(DueItems::Tail {
                object,
                offset: tail,
            }),
            _ => None,
        }
    }
}

// What is due behind the OBJECT of an object.
fn opened(object: u64, dnode: &Dnode) -> DueItems
    requires { DueFits (DueItems.Object object dnode.now) }
    ensures due { behind (DueItems.Object object dnode.now) ≡ Some result }
    ensures fits { DueFits result }
{
    let tail = dnode.end * u64::from(dnode.block_size);
    if dnode.spill.kind == 0 {
        DueItems::Tail {
            object,
            offset: tail,
        }
    } else {
        DueItems::Spill {
            object,
            ptr: dnode.spill,
            tail,
        }
    }
}

// A run from one place on, and from where it ends another, as one.
fn touching(first: u64, count: u64, next: u64, more: u64) -> Option<u64>
    requires { (first + count ≤ 2 ^ 60) × (next + more ≤ 2 ^ 60) }
    ensures { result ≡ (if first + count == next then Some (count + more) else None) }
{
    if first + count == next {
        Some(count + more)
    } else {
        None
    }
}

/// A run and what is found next, as one run, where they touch.
pub(crate) fn joined(run: &DueItems, next: &Option<DueItems>) -> Option<DueItems>
    requires run { DueFits run.now }
    requires next { IfSome next.now DueFits }
    ensures joined { result ≡ joined_due run.now next.now }
    ensures fits { IfSome result DueFits }
    ensures run { IfSome result (λ both. is_run both ≡ true) }
    ensures longer { IfSome result (λ both. size_of_run run.now < size_of_run both) }
{
    match (*run, *next) {
        (
            DueItems::Absent { first, count },
            Some(
                DueItems::Absent {
                    first: at,
                    count: more,
                },
            ),
        ) => {
            let count = touching(first, count, at, more)?;
            Some(DueItems::Absent { first, count })
        }
        (
            DueItems::Holes {
                object,
                offset,
                length,
            },
            Some(
                DueItems::Holes {
                    object: other,
                    offset: at,
                    length: more,
                },
            ),
        ) if object == other => {
            let length = touching(offset, length, at, more)?;
            Some(DueItems::Holes {
                object,
                offset,
                length,
            })
        }
        (
            DueItems::Redacted {
                object,
                offset,
                length,
            },
            Some(
                DueItems::Redacted {
                    object: other,
                    offset: at,
                    length: more,
                },
            ),
        ) if object == other => {
            let length = touching(offset, length, at, more)?;
            Some(DueItems::Redacted {
                object,
                offset,
                length,
            })
        }
        _ => None,
    }
}

// How many indices stand below a pointer, and where one of them is.
ghost use Rattle.std.specs.Prelude.{◌≡◌, ◌+◌, ◌-◌, ◌*◌, ◌^◌, ◌<◌, ◌≤◌};
ghost use Rattle.zst_tree.specs.Indices.{span};

/// Indices of a tree are below this, 2^44: twice as many as an object may have.
pub const TREE_INDEX_BOUND: u64 = 17592186044416;

/// How many indices stand below a pointer at a level.
pub fn span_of(level: u8) -> u64
    requires { level ≤ 7 }
    ensures { result ≡ span level }
{
    match level {
        0 => 1,
        1 => 128,
        2 => 16384,
        3 => 2097152,
        4 => 268435456,
        5 => 34359738368,
        6 => 4398046511104,
        _ => 562949953421312,
    }
}

// Where an offset below a pointer stands: the child, and the offset below it.
#[derive(Clone, Copy)]
pub(crate) struct ChildPlace {
    pub child: usize,
    pub rest: u64,
}

pub(crate) fn place_of(level: u8, offset: u64) -> ChildPlace
    requires level { level ≤ 7 }
    requires inner { 0 < level }
    requires offset { offset < span level }
    ensures child { result.child < 128 }
    ensures rest { result.rest < span (level - 1) }
    ensures sum { result.child * span (level - 1) + result.rest ≡ offset }
{
    let part = span_of(level - 1);
    ChildPlace {
        child: (offset / part) as usize,
        rest: offset % part,
    }
}

// Where the indices below a child begin.
pub(crate) fn start_of(level: u8, base: u64, child: usize) -> u64
    requires level { level ≤ 7 }
    requires inner { 0 < level }
    requires child { child < 128 }
    requires base { base + span level < 2 ^ 64 }
    ensures value { result ≡ base + child * span (level - 1) }
    ensures inside { result + span (level - 1) ≤ base + span level }
{
    base + child as u64 * span_of(level - 1)
}

//! What a path down to an index shows.
ghost use Rattle.std.specs.Prelude.{◌≡◌, ◌<◌, false};
ghost use Rattle.zst_block.specs.Ptr.{is_flat};
ghost use Rattle.zst_tree.specs.PathAnswer.{nearer_of, stands_throughout};

use zst_block::Ptr;

// Whether a pointer at a level stands for every index below it. One that doesn't names a node.
#[tactic(auto, using(crate::proofs::LoadedNodes::inner_level))]
pub(crate) fn stands_throughout(level: u8, ptr: &Ptr) -> bool
    ensures same { result ≡ stands_throughout level ptr.now }
    ensures inner { result ≡ false → (0 < level) × (is_flat ptr.now ≡ false) }
{
    level == 0 || ptr.is_flat()
}

// A subtree beside the path, with something in it that is looked for.
#[derive(Clone, Copy)]
pub(crate) struct Branch {
    pub level: u8,
    pub ptr: Ptr,
    pub base: u64,
}

// What a path shows: nothing that is looked for, the index itself, or a subtree beside the path.
#[derive(Clone, Copy)]
pub(crate) enum PathAnswer {
    Nothing,
    Here(u64),
    There(Branch),
}

// What the rest of the path shows, or else what is beside it here.
pub(crate) fn nearer(reach: PathAnswer, beside: Option<Branch>) -> PathAnswer
    ensures { result ≡ nearer_of reach beside }
{
    match reach {
        PathAnswer::Nothing => match beside {
            None => PathAnswer::Nothing,
            Some(beside) => PathAnswer::There(beside),
        },
        PathAnswer::Here(index) => PathAnswer::Here(index),
        PathAnswer::There(nearest) => PathAnswer::There(nearest),
    }
}

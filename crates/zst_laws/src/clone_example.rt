ghost use Rattle.zst_model.specs.pools.Soundness.{Sound};
ghost use Rattle.zst_laws.specs.CloneExample.{clones, ClonesStand, MadeOfOne};

/// Of a clone of a clone: each snapshot and bookmark stands before what came of it, and before nothing else; the pool is sound.
pub fn clones_stand()
    ensures stand { ClonesStand }
    ensures sound { Sound clones }
{}

/// A bookmark is made of no snapshot of another dataset, guid or number.
pub fn bookmarks_are_of_one()
    ensures { MadeOfOne }
{}

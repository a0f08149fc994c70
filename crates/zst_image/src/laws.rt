ghost use Rattle.std.specs.Prelude.{◌≡◌, ℕ, Bool, true, false, List};
ghost use Rattle.zst_block.specs.Blocks.{SparesTaken};
ghost use Rattle.zst_model.specs.pools.KeptPool.{KeepsAll};
ghost use Rattle.zst_model.specs.pools.Pool.{Pool};
ghost use Rattle.zst_dir.specs.Rows.{Rows};
ghost use Rattle.zst_image.specs.Bodies.{Body, free_by};
ghost use Rattle.zst_image.specs.Reads.{ReadsAs};

use zst_dir::bytes_are_one_directory;
use zst_extents::root_has_one_set_of_extents;
use zst_leaves::root_has_one_text;
use zst_list::root_has_one_list;
use zst_objset::sets_hold_states;

/// What an image reads as is kept by what is written into free sectors alone.
pub fn reads_are_kept()
    ensures { (tight : Bool) (body : Body) (rows : Rows) (pool : Pool) (old new : List ℕ) → SparesTaken (free_by body) old new → ReadsAs tight body rows pool old → ReadsAs tight body rows pool new }
{}

/// An image reads as one pool, by one body with its free extents, and by one directory.
pub fn reads_as_one()
    ensures body { (tight : Bool) (body other : Body) (rows others : Rows) (pool another : Pool) (image : List ℕ) → ReadsAs tight body rows pool image → ReadsAs tight other others another image → body ≡ other }
    ensures rows { (tight : Bool) (body other : Body) (rows others : Rows) (pool another : Pool) (image : List ℕ) → ReadsAs tight body rows pool image → ReadsAs tight other others another image → rows ≡ others }
    ensures pool { (tight : Bool) (body other : Body) (rows others : Rows) (pool another : Pool) (image : List ℕ) → ReadsAs tight body rows pool image → ReadsAs tight other others another image → pool ≡ another }
{
    root_has_one_text();
    root_has_one_set_of_extents();
    bytes_are_one_directory();
    sets_hold_states();
    root_has_one_list();
}

/// A pool that an image reads as keeps all of its partial states.
pub fn images_keep_partials()
    ensures { (tight : Bool) (body : Body) (rows : Rows) (pool : Pool) (image : List ℕ) → ReadsAs tight body rows pool image → KeepsAll pool }
{}

/// What reads as a pool by tight object sets reads as it.
pub fn tight_sets_hold()
    ensures { (body : Body) (rows : Rows) (pool : Pool) (image : List ℕ) → ReadsAs true body rows pool image → ReadsAs false body rows pool image }
{}

// What the definitions of blocks say of one another.
ghost use Rattle.zst_space.specs.FreeSectors.{FreeSectors};
ghost use Rattle.zst_block.specs.Blocks.{FillsFree, Follows, KeepsBlocks};

use zst_outside::Disk;

/// Who writes into free sectors alone leaves every block that was there, in what is read and in each image that a crash may leave.
pub fn blocks_outlive_writes<D: Disk>()
    ensures read { (old new : D) (space less : FreeSectors) → FillsFree (D.state old) space (D.state new) less → KeepsBlocks (D.state old).seen space (D.state new).seen less }
    ensures crash { (old new : D) (space less : FreeSectors) → FillsFree (D.state old) space (D.state new) less → Follows (D.state old).images space (D.state new).images less }
{}

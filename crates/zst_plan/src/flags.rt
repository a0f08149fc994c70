//! The flags and the feature that each send has in BEGIN.
ghost use Rattle.zst_plan.specs.Plans.{FlagsAreDefined};

/// The source is of another dataset (DRR_FLAG_CLONE of zfs_ioctl.h).
pub const CLONE: u32 = 1 << 0;

/// Each number that the snapshot lacks is freed (DRR_FLAG_FREERECORDS).
pub const FREE_RECORDS: u32 = 1 << 2;

/// Each object with a spill block has a SPILL behind its OBJECT (DRR_FLAG_SPILL_BLOCK).
pub const SPILL_BLOCK: u32 = 1 << 3;

/// A stream that may have SPILL records (DMU_BACKUP_FEATURE_SA_SPILL).
pub const SA_SPILL: u32 = 1 << 2;

/// Law: the flags and the feature in code are those of the definitions.
#[tactic(auto, unfolding(zst_model::specs::sends::Headers::clone_flag, zst_model::specs::sends::Headers::free_records, zst_model::specs::sends::Headers::spill_block, zst_model::specs::sends::Features::sa_spill))]
pub fn flags_are_defined()
    ensures { FlagsAreDefined }
{}

//! The features of a stream, bits of `drr_versioninfo` above those of the header type (zfs_ioctl.h).
ghost use Rattle.zst_record.specs.Laws.{FeaturesAreDefined};

/// `DMU_BACKUP_FEATURE_DEDUP`.
pub const DEDUP_BIT: u32 = 0;

/// `DMU_BACKUP_FEATURE_DEDUPPROPS`.
pub const DEDUP_PROPS_BIT: u32 = 1;

/// `DMU_BACKUP_FEATURE_EMBED_DATA`.
pub const EMBED_DATA_BIT: u32 = 16;

/// `DMU_BACKUP_FEATURE_LZ4`.
pub const LZ4_BIT: u32 = 17;

/// `DMU_BACKUP_FEATURE_COMPRESSED`.
pub const COMPRESSED_BIT: u32 = 22;

/// `DMU_BACKUP_FEATURE_RAW`.
pub const RAW_BIT: u32 = 24;

/// A stream that may have blocks over 131,072 bytes (`DMU_BACKUP_FEATURE_LARGE_BLOCKS`).
pub const LARGE_BLOCKS: u32 = 1 << 19;

/// The features that are never accepted: those of other forms of streams, and those without a name.
pub const OTHER_FEATURES: u32 = 0x3f47_fffb;

/// Law: the features in code are those of the definitions.
#[tactic(auto, unfolding(zst_model::specs::sends::Features::sa_spill, zst_model::specs::sends::Features::resuming, zst_model::specs::sends::Features::redacts))]
pub fn features_are_defined()
    ensures { FeaturesAreDefined }
{}

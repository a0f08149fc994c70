ghost use Rattle.std.specs.Prelude.{◌≡◌, ◌==◌, ◌||◌};

use crate::fields::bytes::Bytes;

/// The types of user data (`dmu_object_type` of dmu.h): DMU_OT_PLAIN_FILE_CONTENTS and DMU_OT_ZVOL.
const FILE_CONTENTS: u32 = 19;

const VOLUME: u32 = 23;

/// What an object is, apart from its bonus, its spill block and its blocks (`drr_object` of zfs_ioctl.h).
#[derive(Clone, Copy)]
pub struct ObjectHead {
    /// Its type (`dmu_object_type` of dmu.h): 19 for the contents of a file, 23 for those of a volume.
    pub type_: u32,
    /// The type of its bonus.
    pub bonus_type: u32,
    /// The size of its blocks, in bytes.
    pub block_size: u32,
}

/// The attributes of an object, all that it has but its blocks.
#[derive(Drop)]
pub struct Attr {
    /// Its type (`dmu_object_type` of dmu.h): 19 for the contents of a file, 23 for those of a volume.
    pub type_: u32,
    /// The type of its bonus.
    pub bonus_type: u32,
    /// The size of its blocks, in bytes.
    pub block_size: u32,
    /// Its bonus, at most 320 bytes.
    pub bonus: Bytes,
    /// Its spill block, where it has one: what doesn't fit into the bonus.
    pub spill: Option<Bytes>,
}

/// Whether objects of a type have user data, the contents of a file or of a volume: no others' blocks are ever
/// redacted.
pub fn is_user_data(type_: u32) -> bool
    ensures { result ≡ (type_ == 19 || type_ == 23) }
{
    type_ == FILE_CONTENTS || type_ == VOLUME
}

//! The numbers of the records' types (`drr_type` of zfs_ioctl.h).
ghost use Rattle.zst_record.specs.Laws.{TypesAreDefined};

/// `DRR_BEGIN`.
pub const BEGIN: u32 = 0;

/// `DRR_OBJECT`.
pub const OBJECT: u32 = 1;

/// `DRR_FREEOBJECTS`.
pub const FREE_OBJECTS: u32 = 2;

/// `DRR_WRITE`.
pub const WRITE: u32 = 3;

/// `DRR_FREE`.
pub const FREE: u32 = 4;

/// `DRR_END`.
pub const END: u32 = 5;

/// `DRR_WRITE_BYREF`.
pub const WRITE_BY_REFERENCE: u32 = 6;

/// `DRR_SPILL`.
pub const SPILL: u32 = 7;

/// `DRR_WRITE_EMBEDDED`.
pub const WRITE_EMBEDDED: u32 = 8;

/// `DRR_OBJECT_RANGE`.
pub const OBJECT_RANGE: u32 = 9;

/// `DRR_REDACT`.
pub const REDACT: u32 = 10;

/// Law: the numbers in code are those of the definitions.
pub fn types_are_defined()
    ensures { TypesAreDefined }
{}

use crate::fields::guids::GuidSet;
use crate::fields::name::NameText;

/// A place in a stream's order: by object number, then by byte offset in the object.
#[derive(Clone, Copy, Debug, PartialEq, Eq)]
pub struct Point {
    pub object: u64,
    pub offset: u64,
}

impl Point {
    /// Before each object: where a stream that isn't resumed begins.
    pub const ORIGIN: Point = Point {
        object: 0,
        offset: 0,
    };
}

/// What BEGIN says of a stream (`drr_begin` of zfs_ioctl.h, with the payload of this project).
#[derive(Drop)]
pub struct Header {
    /// 2 for a file system, 3 for a volume.
    pub kind: u32,
    /// The flags of BEGIN, with the bits that have no name.
    pub flags: u32,
    /// The feature flags: bits 2 to 31 of `drr_versioninfo`.
    pub features: u32,
    /// The snapshot's time of creation, in seconds.
    pub time: u64,
    /// The guid of the snapshot that is sent.
    pub to: u64,
    /// The guid of the source snapshot, 0 in a full stream.
    pub from: u64,
    /// The name of the snapshot that is sent.
    pub name: NameText,
    /// Where a resumed stream begins.
    pub resume: Option<Point>,
    /// The guids of the redaction snapshots that a redacted stream was made for.
    pub redact: GuidSet,
    /// The guids of the redaction snapshots of a source that is a redaction bookmark.
    pub from_redact: GuidSet,
}

impl Header {
    ghost use Rattle.std.specs.Prelude.{◌≡◌};

    /// The same header, which takes no memory.
    pub fn duplicate(&self) -> Header
        ensures { result ≡ self.now }
    {
        Header {
            kind: self.kind,
            flags: self.flags,
            features: self.features,
            time: self.time,
            to: self.to,
            from: self.from,
            name: self.name.duplicate(),
            resume: self.resume,
            redact: self.redact.duplicate(),
            from_redact: self.from_redact.duplicate(),
        }
    }
}

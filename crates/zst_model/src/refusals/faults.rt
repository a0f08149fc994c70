ghost use Rattle.std.specs.Prelude.{◌≡◌, ◌≤◌, length};
ghost use Rattle.arrayvec.specs.ArrayString.{array_string_len};
ghost use Rattle.zst_model.specs.refusals.Faults.{flaw_text, lack_text, quantity_text};

use crate::refusals::text::{Text, numbered, plain};

/// What breaks the grammar of a stream (E17).
#[derive(Clone, Copy, PartialEq, Eq)]
pub enum Flaw {
    RecordType,
    Magic,
    HeaderType,
    Kind,
    Guid,
    Name,
    Payload,
    SecondBegin,
    Redact,
    Object,
    ObjectType,
    BlockSize,
    Bonus,
    Size,
    Range,
}

/// What a stream has, or a plan would need, and this project doesn't support (E19).
#[derive(Clone, Copy, PartialEq, Eq)]
pub enum Lack {
    BigEndian,
    Compound,
    Dedup,
    DedupProps,
    EmbedData,
    Lz4,
    LargeBlocks,
    Compressed,
    Raw,
    /// A feature flag without a name, by its bit.
    Feature { bit: u32 },
    ForeignPayload,
    ByReference,
    Embedded,
    ObjectRange,
    LargeDnode,
    /// A stream of another kind than the dataset that it would go into.
    Kind,
    /// A full stream into a clone of its origin that doesn't say what it leaves free (DRR_FLAG_FREERECORDS).
    FullWithoutFrees,
    /// A send of or from a redacted snapshot.
    Relay,
}

/// What has a limit (E23).
#[derive(Clone, Copy, Debug, PartialEq, Eq)]
pub enum Quantity {
    /// The numbers of objects.
    Object,
    /// The indices of an object's blocks.
    Block,
    /// The datasets of a pool, and the partial states whose dataset is absent.
    Datasets,
    /// The snapshots of a pool, and its partial states.
    Snapshots,
    /// The bookmarks of a pool.
    Bookmarks,
    /// The partial states of a pool.
    Partials,
    /// The redaction snapshots of a bookmark.
    RedactionSnapshots,
    /// The runs of a redaction list.
    Runs,
    /// The sends that are open.
    Sends,
    /// The receives that are open.
    Receives,
    /// The number of a pool's commit.
    Number,
    /// The guids that a pool made.
    Guids,
    /// The sectors of a device.
    Device,
    /// The bytes of a stream.
    Stream,
    /// The bytes of a script.
    Script,
}

impl Flaw {
    /// Its word in the text of a refusal.
    pub(crate) fn word(&self) -> &'static str
        ensures word { result.now ≡ flaw_text self.now }
        ensures short { length result.now ≤ 20 }
    {
        match self {
            Flaw::RecordType => "type",
            Flaw::Magic => "magic",
            Flaw::HeaderType => "header type",
            Flaw::Kind => "kind",
            Flaw::Guid => "guid",
            Flaw::Name => "name",
            Flaw::Payload => "payload",
            Flaw::SecondBegin => "second begin",
            Flaw::Redact => "redact",
            Flaw::Object => "object",
            Flaw::ObjectType => "object type",
            Flaw::BlockSize => "block size",
            Flaw::Bonus => "bonus",
            Flaw::Size => "size",
            Flaw::Range => "range",
        }
    }
}

impl Lack {
    /// Its words in the text of a refusal.
    pub(crate) fn text(&self) -> Text
        ensures words { result.bytes ≡ lack_text self.now }
        ensures short { array_string_len result ≤ 28 }
    {
        match self {
            Lack::BigEndian => plain("big endian"),
            Lack::Compound => plain("compound"),
            Lack::Dedup => plain("dedup"),
            Lack::DedupProps => plain("dedupprops"),
            Lack::EmbedData => plain("embed data"),
            Lack::Lz4 => plain("lz4"),
            Lack::LargeBlocks => plain("large blocks"),
            Lack::Compressed => plain("compressed"),
            Lack::Raw => plain("raw"),
            Lack::Feature { bit } => numbered("feature ", u64::from(*bit)),
            Lack::ForeignPayload => plain("foreign payload"),
            Lack::ByReference => plain("by reference"),
            Lack::Embedded => plain("embedded"),
            Lack::ObjectRange => plain("object range"),
            Lack::LargeDnode => plain("large dnode"),
            Lack::Kind => plain("kind"),
            Lack::FullWithoutFrees => plain("full without frees"),
            Lack::Relay => plain("relay"),
        }
    }
}

impl Quantity {
    /// Its word in the text of a refusal.
    pub(crate) fn word(&self) -> &'static str
        ensures word { result.now ≡ quantity_text self.now }
        ensures short { length result.now ≤ 20 }
    {
        match self {
            Quantity::Object => "object",
            Quantity::Block => "block",
            Quantity::Datasets => "datasets",
            Quantity::Snapshots => "snapshots",
            Quantity::Bookmarks => "bookmarks",
            Quantity::Partials => "partials",
            Quantity::RedactionSnapshots => "redaction snapshots",
            Quantity::Runs => "runs",
            Quantity::Sends => "sends",
            Quantity::Receives => "receives",
            Quantity::Number => "number",
            Quantity::Guids => "guids",
            Quantity::Device => "device",
            Quantity::Stream => "stream",
            Quantity::Script => "script",
        }
    }
}

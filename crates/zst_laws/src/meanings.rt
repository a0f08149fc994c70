ghost use Rattle.zst_laws.specs.Meanings.{WriteFails, WriteMakes, FreeFails, FreeMakes, SpillFails, SpillMakes, RedactFails, RedactMakes, PutMakes, PutAllocates};
ghost use Rattle.zst_laws.specs.Meanings.{UserDataTypes, BlocksDateNoNumber, AttributesDateNumbers, SpillDatesNoIndex, RangesDateBlocks, ListsUserData};
ghost use Rattle.zst_laws.specs.Meanings.{SnapshotKeepsGuids, VolumeIsMade, ListedIsIncluded, DatedIsIncluded, DatedNumberIsIncluded, EqualDatesAreLeft};
ghost use Rattle.zst_laws.specs.Meanings.{DatasetsStandByName, SnapshotsStandByNumber, OtherHeadsStay, FreedAreDated, BlockSizes, Contents, HeadersFrom, ListsCanBeRedacted};

/// WRITE is refused for want of an object, for its length, its place and an odd size, in this order, and else changes its block alone.
pub fn writes_fail()
    ensures refused { WriteFails }
    ensures made { WriteMakes }
{}

/// FREE is refused for want of an object and for its place, and else changes its range alone.
pub fn frees_fail()
    ensures refused { FreeFails }
    ensures made { FreeMakes }
{}

/// SPILL is refused for want of an object alone.
pub fn spills_fail()
    ensures refused { SpillFails }
    ensures made { SpillMakes }
{}

/// REDACT is refused for want of an object, for its type, its place and an odd size, in this order, and else changes its range alone.
pub fn redacts_fail()
    ensures refused { RedactFails }
    ensures made { RedactMakes }
{}

/// An OBJECT keeps a spill exactly where it says so.
pub fn spills_are_kept()
    ensures again { PutMakes }
    ensures anew { PutAllocates }
{}

/// Files and volumes alone have user data.
pub fn user_data_has_two_types()
    ensures { UserDataTypes }
{}

/// Records of blocks date no number.
pub fn blocks_date_no_number()
    ensures { BlocksDateNoNumber }
{}

/// Records of attributes date their number, and a spill no index.
pub fn attributes_date_numbers()
    ensures numbers { AttributesDateNumbers }
    ensures indices { SpillDatesNoIndex }
{}

/// The tail FREE and REDACT date each index of their ranges, and FREEOBJECTS each number, with its indices.
pub fn ranges_date_blocks()
    ensures blocks { RangesDateBlocks }
    ensures numbers { FreedAreDated }
{}

/// A list has data of files and volumes that every clone has changed since.
pub fn lists_are_of_user_data()
    ensures { ListsUserData }
{}

/// A snapshot has the redaction guids of its head.
pub fn snapshots_keep_guids()
    ensures { SnapshotKeepsGuids }
{}

/// `volume` makes a volume.
pub fn volumes_are_made()
    ensures { VolumeIsMade }
{}

/// What a source or a redaction lists is included.
pub fn sources_are_included()
    ensures { ListedIsIncluded }
{}

/// What is dated after the source is included, and what is dated at it isn't.
pub fn equal_dates_are_left()
    ensures pairs { DatedIsIncluded }
    ensures numbers { DatedNumberIsIncluded }
    ensures left { EqualDatesAreLeft }
{}

/// Rows stand in their order.
pub fn rows_stand_in_order()
    ensures datasets { DatasetsStandByName }
    ensures snapshots { SnapshotsStandByNumber }
{}

/// A command on a head leaves the other datasets.
pub fn other_heads_stay()
    ensures { OtherHeadsStay }
{}

/// Which numbers are block sizes.
pub fn block_sizes_are_multiples()
    ensures { BlockSizes }
{}

/// What the content of an index is.
pub fn contents_are_told()
    ensures { Contents }
{}

/// A stream that goes on from a token says so.
pub fn headers_say_resuming()
    ensures { HeadersFrom }
{}

/// What a redaction bookmark lists can be redacted.
pub fn lists_can_be_redacted()
    ensures { ListsCanBeRedacted }
{}

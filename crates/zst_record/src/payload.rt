//! BEGIN's payload: where a resumed stream begins, and the guids of redactions.
ghost use Rattle.std.specs.Prelude.{◌≡◌, ◌+◌, ◌*◌, ◌/◌, ◌≤◌, ◌++◌, ◌&&◌, Err, length, drop, flat_map, IsTrue};
ghost use Rattle.zst_bytes.specs.Bytes.{written};
ghost use Rattle.zst_bytes.specs.Words.{word};
ghost use Rattle.zst_record.specs.Payload.{begin_payload, behind_magic, content_of, foreign, goes_with_redacted, goes_with_resuming, goes_with_source, has_magic, has_payload, numbers_in, opened, said_beside, wrong};

use crate::decoding::wants_payload;
use crate::{LONGEST_BEGIN_PAYLOAD, RECORD_LEN};
use arrayvec::ArrayVec;
use zst_bytes::{le64, put_bytes, put64};
use zst_model::features::{REDACTED, RESUMING};
use zst_model::limits::NUMBER_BOUND;
use zst_model::{Flaw, GuidSet, Header, Lack, Point, StreamFault, stated_point};

/// What a payload of this project begins with.
const MAGIC: &[u8; 8] = b"ZSTBEG01";

/// Behind the magic a payload has at most so many numbers: four, and the guids of two sets.
const MOST_NUMBERS: usize = 4 + 16 + 16;

/// E17: the content of the payload is wrong.
fn wrong() -> Result<Header, StreamFault>
    ensures { result ≡ Err wrong }
{
    Err(StreamFault::Grammar {
        at: RECORD_LEN as u64,
        flaw: Flaw::Payload,
    })
}

/// E19: the payload is another project's.
fn foreign() -> Result<Header, StreamFault>
    ensures { result ≡ Err foreign }
{
    Err(StreamFault::Unsupported {
        at: RECORD_LEN as u64,
        lack: Lack::ForeignPayload,
    })
}

/// Whether bytes begin with the magic.
#[tactic(auto, unfolding(crate::specs::Payload::has_magic))]
fn has_magic(bytes: &[u8]) -> bool
    ensures same { result ≡ has_magic bytes.now }
    ensures long { IsTrue result → 8 ≤ length bytes.now }
{
    bytes.starts_with(MAGIC)
}

/// Whether a stream that BEGIN says so may have this resume point and these guids.
#[tactic(auto, unfolding(crate::specs::Payload::goes_with_redacted, crate::specs::Payload::goes_with_resuming, crate::specs::Payload::goes_with_source, zst_model::specs::sends::Features::resuming, zst_model::specs::sends::Features::redacts, zst_model::specs::states::State::number_bound))]
fn goes_with(header: &Header, point: Point, redact: &[u64], from_redact: &[u64]) -> bool
    ensures { result ≡
        (goes_with_redacted header.now.features redact.now
        && (goes_with_resuming header.now.features point && goes_with_source header.now.from from_redact.now)) }
{
    let resumes = if header.features & RESUMING == 0 {
        point.object == 0 && point.offset == 0
    } else {
        point.object <= NUMBER_BOUND
    };
    let redacts = header.features & REDACTED != 0;
    redacts != redact.is_empty() && resumes && (from_redact.is_empty() || header.from > 0)
}

/// The header with what its payload says beside.
#[tactic(auto, unfolding(crate::specs::Payload::said_beside, zst_model::specs::sends::Features::resuming))]
fn said_beside(header: Header, point: Point, redact: GuidSet, from_redact: GuidSet) -> Header
    ensures { result ≡ said_beside header point redact from_redact }
{
    let resume = if header.features & RESUMING == 0 {
        None
    } else {
        Some(point)
    };
    Header {
        resume,
        redact,
        from_redact,
        ..header
    }
}

/// The numbers behind the magic.
fn content_of(numbers: &[u64], header: Header) -> Result<Header, StreamFault>
    ensures { result ≡ content_of header numbers.now }
{
    let [object, offset, count, others, guids @ ..] = numbers else {
        return wrong();
    };
    let Some((first, second)) = guids.split_at_checked(*count as usize) else {
        return wrong();
    };
    let point = Point {
        object: *object,
        offset: *offset,
    };
    if second.len() as u64 != *others || !goes_with(&header, point, first, second) {
        return wrong();
    }
    let Some(redact) = GuidSet::from_slice(first) else {
        return wrong();
    };
    let Some(from_redact) = GuidSet::from_slice(second) else {
        return wrong();
    };
    Ok(said_beside(header, point, redact, from_redact))
}

/// So many numbers, of 8 bytes each.
fn numbers_in(count: usize, bytes: &[u8]) -> ArrayVec<u64, MOST_NUMBERS>
    requires enough { 8 * count ≤ length bytes.now }
    requires few { count ≤ MOST_NUMBERS }
    ensures { result.items ≡ numbers_in count bytes.now }
{
    let mut numbers = ArrayVec::new();
    for place in 0..count {
        numbers.push(le64(bytes, 8 * place));
    }
    numbers
}

/// The bytes behind the magic.
#[tactic(auto, unfolding(crate::specs::Payload::behind_magic))]
fn behind_magic(rest: &[u8], header: Header) -> Result<Header, StreamFault>
    ensures { result ≡ behind_magic header rest.now }
{
    let count = rest.len() / 8;
    if rest.len() % 8 != 0 || count > MOST_NUMBERS {
        return wrong();
    }
    content_of(numbers_in(count, rest).as_slice(), header)
}

/// The header that BEGIN says with its payload, over the one that its 312 bytes say.
///
/// Another magic is a foreign payload, and every other content that is wrong a fault of the grammar. Without a payload
/// the header is as it was. Takes no memory.
#[tactic(auto, unfolding(crate::specs::Payload::opened))]
pub fn begin_payload(bytes: &[u8], header: Header) -> Result<Header, StreamFault>
    ensures { result ≡ opened header bytes.now }
{
    if bytes.is_empty() {
        if wants_payload(header.features) {
            return Err(StreamFault::Grammar {
                at: 4,
                flaw: Flaw::Payload,
            });
        }
        return Ok(header);
    }
    if !has_magic(bytes) {
        return foreign();
    }
    behind_magic(&bytes[8..], header)
}

/// Whether the stream of a header has a payload.
#[tactic(auto, unfolding(crate::specs::Payload::has_payload))]
fn has_payload(header: &Header) -> bool
    ensures { result ≡ has_payload header.now }
{
    wants_payload(header.features) || !header.from_redact.as_slice().is_empty()
}

/// Writes numbers from a place on, each in 8 bytes, and tells where they end.
fn put_words(into: &mut [u8], at: usize, numbers: &[u64]) -> usize
    requires { at + 8 * length numbers.now ≤ length into.old }
    ensures end { result ≡ at + 8 * length numbers.now }
    ensures words { into.new ≡ written at (8 * length numbers.now) (flat_map word numbers.now) into.old }
{
    let mut place = at;
    for number in numbers {
        put64(into, place, *number);
        place += 8;
    }
    place
}

/// Writes the payload of BEGIN in front, and tells its length, which is 0 where the stream has none. All bytes behind it stay
/// as they were. Takes no memory.
#[tactic(auto, unfolding(crate::specs::Payload::begin_payload))]
pub fn put_begin_payload(header: &Header, into: &mut [u8; LONGEST_BEGIN_PAYLOAD]) -> usize
    ensures len { result ≡ length (begin_payload header.now) }
    ensures written { into.new ≡ begin_payload header.now ++ drop (length (begin_payload header.now)) into.old }
{
    if !has_payload(header) {
        return 0;
    }
    let point = stated_point(header.resume);
    let redact = header.redact.as_slice();
    let from_redact = header.from_redact.as_slice();
    let fields = [
        point.object,
        point.offset,
        redact.len() as u64,
        from_redact.len() as u64,
    ];
    put_bytes(into, 0, MAGIC);
    let end = put_words(into, 8, &fields);
    let end = put_words(into, end, redact);
    put_words(into, end, from_redact)
}

ghost use Rattle.std.specs.Prelude.{◌≡◌, ◌+◌, ◌^◌, ◌<◌, ◌≤◌, ◌++◌, List, ℕ, Option, Some, None, length, take, drop};
ghost use Rattle.zst_fletcher.specs.WeightSum.{weight_sum};
ghost use Rattle.zst_record.specs.Formats.{record_len};
ghost use Rattle.zst_record.specs.Heads.{payload_len, size_of};
ghost use Rattle.zst_record.specs.declared.head.Head.TheVariants.{End};
ghost use Rattle.zst_stream.specs.Reading.{sum_fault, closing, cover, opened, rule_by, ruling, sealed_next};
ghost use Rattle.zst_reader.specs.Verdict.{IsHeadOf, IsOpenable, Judges, ReadsHead, SaysWith};

use crate::place::{LeadingSum, Place};
use zst_fletcher::Sum;
use zst_model::{Flaw, StreamFault};
use zst_record::{
    Head, RECORD_LEN, SUMMED_LEN, begin_payload, decode, get_sums, payload_is_bounded,
};

/// What is found at the front of the held bytes.
#[derive(Clone, Copy)]
pub(crate) enum Verdict {
    Wait,
    Refuse(StreamFault),
    /// END is covered, and this is the place behind it.
    Last(Place),
    /// Another record is covered, and this is the place behind it.
    More(Place),
}

// What is wrong with the sums that stand at a place, where these were found.
#[tactic(auto, unfolding(zst_stream::specs::Reading::sum_fault))]
fn compare(held: &[u8], at: u64, found: Sum, place: usize) -> Option<StreamFault>
    requires there { place + 32 ≤ length held.now }
    requires fits { at + place < 2 ^ 64 }
    ensures { (before : List ℕ) (n : ℕ) → found ≡ weight_sum (before ++ take n held.now) → at ≡ length before
        → result ≡ sum_fault before held.now n place }
{
    let stated = get_sums(held, place);
    let found = found.parts();
    if found == stated {
        return None;
    }
    Some(StreamFault::Checksum {
        at: at + place as u64,
        stated,
        found,
    })
}

// E17: END states another guid than BEGIN.
fn other_guid(at: u64) -> StreamFault
    requires { at < 2 ^ 62 }
    ensures { result ≡ StreamFault.Grammar (at + 40) Flaw.Guid }
{
    StreamFault::Grammar {
        at: at + 40,
        flaw: Flaw::Guid,
    }
}

// The 312 bytes of a record.
fn front_of(held: &[u8]) -> &[u8; RECORD_LEN]
    requires { record_len ≤ length held.now }
    ensures { result.now ≡ take record_len held.now }
{
    let Ok(front) = <&[u8; RECORD_LEN]>::try_from(&held[..RECORD_LEN]) else {
        unreachable!()
    };
    front
}

/// Reads the head of the record at the front of the held bytes, once its 312 bytes are there: whether they are.
#[tactic(auto, unfolding(zst_stream::specs::Reading::ruling))]
pub(crate) fn read_head(held: &[u8], place: &Place, head: &mut Head) -> Result<bool, StreamFault>
    requires fits { place.now.at + length held.now ≤ 2 ^ 62 }
    ensures { ReadsHead place.now held.now head.new result }
{
    if held.len() < RECORD_LEN {
        return Ok(false);
    }
    *head = decode(front_of(held), place.at, place.features)?;
    Ok(true)
}

// What the record at the front says with its payload, where that says more than its 312 bytes: only BEGIN's does.
fn open_payload(held: &[u8], head: &Head) -> Result<Option<Head>, StreamFault>
    requires there { size_of head.now ≤ length held.now }
    requires later { closing head.now ≡ None }
    ensures { SaysWith head.now (opened head.now (take (payload_len head.now) (drop record_len held.now))) result }
{
    match head {
        Head::Begin {
            header,
            payload_len,
        } => {
            let payload = &held[RECORD_LEN..RECORD_LEN + *payload_len as usize];
            match begin_payload(payload, header.duplicate()) {
                Ok(header) => Ok(Some(Head::Begin {
                    header,
                    payload_len: *payload_len,
                })),
                Err(fault) => Err(fault),
            }
        }
        _ => Ok(None),
    }
}

// Judges a record but END whose payload is there: it is covered once the next record is there with the right checksum.
#[tactic(auto, unfolding(zst_stream::specs::Reading::sealed_next))]
fn judge_sealed(held: &[u8], place: &Place, head: &Head) -> Verdict
    requires opens { IsOpenable head.now }
    requires fits { place.now.at + length held.now ≤ 2 ^ 62 }
    ensures { Judges place.now held.now head.now (λ before. sealed_next before held.now head.now) result }
{
    let size = RECORD_LEN + head.payload_len() as usize;
    if held.len() < size + RECORD_LEN {
        return Verdict::Wait;
    }
    let sum = place.sum_with(held, size);
    let mut found = sum;
    found.add(&held[size..size + SUMMED_LEN]);
    match compare(held, place.at, found, size + SUMMED_LEN) {
        Some(fault) => Verdict::Refuse(fault),
        None => {
            let ahead = LeadingSum {
                sum: found,
                count: SUMMED_LEN,
            };
            Verdict::More(place.after(held, size, sum, ahead))
        }
    }
}

// Judges a record but END: once its payload is whole, by what it says with that. Where it is covered, that is its head.
#[tactic(auto, unfolding(zst_stream::specs::Reading::cover))]
fn judge_later(held: &[u8], place: &Place, head: &mut Head) -> Verdict
    requires opens { IsOpenable head.old }
    requires fits { place.now.at + length held.now ≤ 2 ^ 62 }
    ensures judged { Judges place.now held.now head.new (λ before. cover before held.now head.old) result }
    ensures kept { result ≡ Verdict.Wait → head.new ≡ head.old }
{
    if held.len() < RECORD_LEN + head.payload_len() as usize {
        return Verdict::Wait;
    }
    let whole = match open_payload(held, head) {
        Ok(None) => return judge_sealed(held, place, head),
        Ok(Some(whole)) => whole,
        Err(fault) => return Verdict::Refuse(fault),
    };
    let verdict = judge_sealed(held, place, &whole);
    if let Verdict::More(_) = verdict {
        *head = whole;
    }
    verdict
}

// Judges END by what it states.
#[tactic(auto, unfolding(zst_stream::specs::Reading::finish))]
fn judge_end(held: &[u8], place: &Place, sums: [u64; 4], to: u64) -> Verdict
    requires there { record_len ≤ length held.now }
    requires fits { place.now.at + length held.now ≤ 2 ^ 62 }
    ensures { Judges place.now held.now (End sums to) (λ before. rule_by before held.now (End sums to) (closing (End sums to))) result }
{
    if let Some(fault) = compare(held, place.at, place.sum, 8) {
        return Verdict::Refuse(fault);
    }
    if to != place.to {
        return Verdict::Refuse(other_guid(place.at));
    }
    let sum = place.sum_with(held, RECORD_LEN);
    let ahead = LeadingSum { sum, count: 0 };
    Verdict::Last(place.after(held, RECORD_LEN, sum, ahead))
}

/// Judges the record of this head at the front of the held bytes. Where it is covered, its head is what it says with its
/// payload.
pub(crate) fn judge(held: &[u8], place: &Place, head: &mut Head) -> Verdict
    requires is { IsHeadOf place.now held.now head.old }
    requires fits { place.now.at + length held.now ≤ 2 ^ 62 }
    ensures judged { Judges place.now held.now head.new (λ before. ruling before held.now) result }
    ensures kept { result ≡ Verdict.Wait → head.new ≡ head.old }
{
    // The record that passes is whole words and fits the buffer.
    payload_is_bounded();
    match &*head {
        Head::End { sums, to } => judge_end(held, place, *sums, *to),
        _ => judge_later(held, place, head),
    }
}

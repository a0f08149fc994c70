ghost use Rattle.std.specs.Prelude.{◌≡◌, ◌≤◌};
ghost use Rattle.zst_model.specs.pools.Pool.{IsStated};
ghost use Rattle.zst_model.specs.states.State.{number_bound};
ghost use Rattle.zst_token.specs.PartialToken.{token_for};
ghost use Rattle.zst_token.specs.Spelling.{IsToken, numbers_of, check_text, token_text};

use crate::digits::{checksum_of, push_digits};
use arrayvec::{ArrayString, ArrayVec};
use zst_model::{GuidSet, Header, Point};

/// A token has at most so many numbers: seven, and the guids of two sets.
pub(crate) const MOST_NUMBERS: usize = 7 + 16 + 16;

/// A stream that may have blocks over 131,072 bytes (`DMU_BACKUP_FEATURE_LARGE_BLOCKS` of zfs_ioctl.h).
const LARGE_BLOCKS: u32 = 1 << 19;

/// Where a cut receive goes on, and of which stream.
#[derive(Drop)]
pub struct Token {
    /// Whether the stream has blocks larger than 131,072 bytes.
    pub large: bool,
    /// The guid of the snapshot that is sent.
    pub to: u64,
    /// The guid of the source snapshot, 0 in a full stream.
    pub from: u64,
    /// Where the receive goes on.
    pub point: Point,
    /// The guids of the redaction snapshots that the stream is made for.
    pub redact: GuidSet,
    /// The guids of the redaction snapshots of a source that is a redaction bookmark.
    pub from_redact: GuidSet,
}

impl Token {
    /// The token of a partial state with this header, whose stream goes on at this point. Takes no memory.
    #[tactic(auto, unfolding(crate::specs::PartialToken::token_for))]
    pub fn of(header: &Header, point: Point) -> Token
        ensures same { result ≡ token_for header.now point }
        ensures token { IsStated header.now → point.object ≤ number_bound → IsToken result }
    {
        Token {
            large: header.features & LARGE_BLOCKS != 0,
            to: header.to,
            from: header.from,
            point,
            redact: header.redact.duplicate(),
            from_redact: header.from_redact.duplicate(),
        }
    }

    /// Its text: `zst1-`, its numbers in hexadecimal, `-` and a check. Takes no memory.
    #[tactic(auto, unfolding(crate::specs::Spelling::token_text))]
    pub fn print(&self) -> ArrayString<646>
        ensures { result.bytes ≡ token_text self.now }
    {
        let numbers = self.numbers();
        let mut text = ArrayString::new();
        text.push_str("zst1-");
        push_digits(&mut text, numbers.as_slice());
        text.push_str("-");
        text.push_str(checksum_of(numbers.as_slice()).as_str());
        text
    }

    /// The numbers of its fields, the counts of both sets, and their guids.
    fn numbers(&self) -> ArrayVec<u64, MOST_NUMBERS>
        ensures { result.items ≡ numbers_of self.now }
    {
        let redact = self.redact.as_slice();
        let from_redact = self.from_redact.as_slice();
        let mut numbers = ArrayVec::new();
        let _ = numbers.try_extend_from_slice(&[
            u64::from(self.large),
            self.to,
            self.from,
            self.point.object,
            self.point.offset,
            redact.len() as u64,
            from_redact.len() as u64,
        ]);
        let _ = numbers.try_extend_from_slice(redact);
        let _ = numbers.try_extend_from_slice(from_redact);
        numbers
    }

    /// The check of its numbers, in sixteen digits.
    #[tactic(auto, unfolding(crate::specs::Spelling::check_text))]
    pub(crate) fn check(&self) -> ArrayString<16>
        ensures { result.bytes ≡ check_text self.now }
    {
        checksum_of(self.numbers().as_slice())
    }
}

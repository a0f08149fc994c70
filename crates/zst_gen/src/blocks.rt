// The bytes of the blocks that the commands write.
ghost use Rattle.std.specs.Prelude.{◌≡◌, ◌≤◌, ◌<◌, IfOk, length};
ghost use Rattle.zst_gen.specs.Generated.{block_bytes, block_word};

use std::alloc::{AllocError, Global};
use zst_bytes::put32;
use zst_model::Bytes;

/// How many bytes a block has.
pub(crate) const BLOCK: usize = 131_072;

/// How many words it has.
const WORDS: usize = 32_768;

/// What the place of a word is multiplied by: a number near 2^32 divided by the golden ratio, by which neighbouring
/// places get words that are far apart (Knuth, The Art of Computer Programming, volume 3, section 6.4).
const SPREAD: u64 = 2_654_435_761;

/// How many numbers a word can be.
const WORD_COUNT: u64 = 4_294_967_296;

/// The word at a place of a block of an object.
fn word(object: u64, index: u64, place: u64) -> u32
    requires object { object ≤ 64 }
    requires index { index < 256 }
    requires place { place < 32768 }
    ensures { result ≡ block_word object index place }
{
    ((object * 65_536 + index * 256 + place) * SPREAD % WORD_COUNT) as u32
}

/// Writes the words of a block.
fn fill(bytes: &mut [u8], object: u64, index: u64)
    requires whole { length bytes.old ≡ BLOCK }
    requires object { object ≤ 64 }
    requires index { index < 256 }
    ensures { bytes.new ≡ block_bytes object index }
{
    for place in 0..WORDS {
        put32(bytes, place * 4, word(object, index, place as u64));
    }
}

/// The bytes of a block of an object.
pub(crate) fn block(alloc: Global, object: u64, index: u64) -> Result<Bytes, AllocError>
    requires object { object ≤ 64 }
    requires index { index < 256 }
    ensures { IfOk result (λ bytes. bytes ≡ block_bytes object index) }
{
    let mut bytes = vec![in alloc; 0; BLOCK]?;
    fill(bytes.as_mut_slice(), object, index);
    Ok(Bytes::new(bytes))
}

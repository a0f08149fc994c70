ghost use Rattle.std.specs.Prelude.{◌≡◌, ◌<◌, ◌++◌, length, OnOk};
ghost use Rattle.zst_bytes.specs.Fields.{zeros};
ghost use Rattle.zst_bytes.specs.Words.{word, filling, padding, text_bytes, words_bytes};

use std::alloc::AllocError;

/// How many zeros follow a text of so many bytes, up to a multiple of 8.
pub(crate) fn padding(len: usize) -> usize
    ensures { result ≡ padding len }
{
    (8 - len % 8) % 8
}

// Appends the zeros that follow a text of so many bytes.
#[tactic(auto, unfolding(crate::specs::Fields::zeros))]
fn push_padding(out: &mut Vec<u8>, len: usize) -> Result<(), AllocError>
    ensures { OnOk result (out.new.items ≡ out.old.items ++ zeros (padding len)) }
{
    out.extend_from_slice(&[0; 8][..padding(len)])
}

/// Appends a number in 8 bytes, the lowest first.
#[tactic(auto, unfolding(crate::specs::Bytes::number_bytes))]
pub fn push_word(out: &mut Vec<u8>, number: u64) -> Result<(), AllocError>
    ensures { OnOk result (out.new.items ≡ out.old.items ++ word number) }
{
    out.extend_from_slice(&number.to_le_bytes())
}

/// Appends a text: its length as a word, its bytes, and zeros up to a multiple of 8. After an
/// error a part of it may have been appended.
pub fn push_text(out: &mut Vec<u8>, text: &[u8]) -> Result<(), AllocError>
    ensures { OnOk result (out.new.items ≡ out.old.items ++ text_bytes text.now) }
{
    push_word(out, text.len() as u64)?;
    out.extend_from_slice(text)?;
    push_padding(out, text.len())
}

/// Appends numbers: their count as a word, and each as a word. After an error a part of them may
/// have been appended.
pub fn push_words(out: &mut Vec<u8>, numbers: &[u64]) -> Result<(), AllocError>
    ensures { OnOk result (out.new.items ≡ out.old.items ++ words_bytes numbers.now) }
{
    push_word(out, numbers.len() as u64)?;
    for number in numbers {
        push_word(out, *number)?;
    }
    Ok(())
}

/// Appends zeros up to a length that is a multiple of `size` bytes.
pub fn fill_up(out: &mut Vec<u8>, size: usize) -> Result<(), AllocError>
    requires { 0 < size }
    ensures { OnOk result (out.new.items ≡ out.old.items ++ zeros (filling size (length out.old.items))) }
{
    out.resize(out.len().next_multiple_of(size), 0)
}

//! What is judged of a record's range before it is taken as a range of indices.
ghost use Rattle.std.specs.Prelude.{◌≡◌, ◌<◌};
ghost use Rattle.zst_model.specs.states.AppliedItems.{is_unaligned};
ghost use Rattle.zst_apply.specs.Checks.{free_check, redact_check, write_check};

use zst_dnode::Dnode;
use zst_model::{ApplyFault, is_user_data};

// Whether a number of bytes is no multiple of the block size.
fn is_unaligned(size: u32, bytes: u64) -> bool
    requires { 0 < size }
    ensures { result ≡ is_unaligned size bytes }
{
    bytes % u64::from(size) != 0
}

/// Whether so many bytes are a whole block of an object, at a multiple of its block size.
pub(crate) fn check_write(dnode: &Dnode, offset: u64, count: usize) -> Result<(), ApplyFault>
    requires { 0 < dnode.now.block_size }
    ensures { result ≡ write_check dnode.now.block_size offset count }
{
    if count != dnode.block_size as usize {
        return Err(ApplyFault::SizeDiffers);
    }
    if is_unaligned(dnode.block_size, offset) {
        return Err(ApplyFault::Unaligned);
    }
    Ok(())
}

/// Whether a FREE has whole blocks of an object. One that goes to the end has.
pub(crate) fn check_free(dnode: &Dnode, offset: u64, length: u64) -> Result<(), ApplyFault>
    requires { 0 < dnode.now.block_size }
    ensures { result ≡ free_check dnode.now.block_size offset length }
{
    let size = dnode.block_size;
    if is_unaligned(size, offset) || (length != u64::MAX && is_unaligned(size, length)) {
        return Err(ApplyFault::Unaligned);
    }
    Ok(())
}

/// Whether a REDACT has whole blocks of an object with user data.
pub(crate) fn check_redact(dnode: &Dnode, offset: u64, length: u64) -> Result<(), ApplyFault>
    requires { 0 < dnode.now.block_size }
    ensures { result ≡ redact_check dnode.now.type_ dnode.now.block_size offset length }
{
    if !is_user_data(dnode.type_) {
        return Err(ApplyFault::NotUserData);
    }
    if is_unaligned(dnode.block_size, offset) || is_unaligned(dnode.block_size, length) {
        return Err(ApplyFault::Unaligned);
    }
    Ok(())
}

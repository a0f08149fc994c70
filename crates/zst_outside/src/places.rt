// Bytes at places of a disk in memory.
ghost use Rattle.std.specs.Prelude.{◌≡◌, ◌+◌, ◌≤◌, length};
ghost use Rattle.zst_outside.specs.Ranges.{bytes_at, overwritten};

/// Copies out the bytes at a place.
pub fn copy_out(bytes: &[u8], place: usize, into: &mut [u8])
    requires { place + length into.old ≤ length bytes.now }
    ensures { into.new ≡ bytes_at bytes.now place (length into.old) }
{
    into.copy_from_slice(&bytes[place..place + into.len()]);
}

/// Puts bytes over those at a place.
pub fn overwrite(bytes: &mut Vec<u8>, place: usize, from: &[u8])
    requires { place + length from.now ≤ length bytes.old.items }
    ensures bytes { bytes.new.items ≡ overwritten bytes.old.items place from.now }
    ensures size { length bytes.new.items ≡ length bytes.old.items }
{
    bytes[place..place + from.len()].copy_from_slice(from);
}

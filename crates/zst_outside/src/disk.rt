ghost use Rattle.std.specs.Prelude.{◌≡◌, ◌+◌, ◌≤◌, Bool, List, ℕ, length, IsTrue, OnOk};
ghost use Rattle.zst_outside.specs.Causes.{HasCause, next_count};
ghost use Rattle.zst_outside.specs.Ranges.{bytes_at};
ghost use Rattle.zst_outside.specs.Images.{DiskState, Leaves, IsSynced, OnlyReads, WritesIn};

use crate::Fault;

/// A disk: bytes at places, and what a crash may leave of them.
///
/// Between two syncs every range that was written may hold any bytes after a crash, and all else
/// is as it was synced. Every call but `bytes`, `calls` and `faults` is counted.
pub trait Disk {
    /// Whether it tells its images, which are what a crash may leave.
    ghost tells_images: { Bool };

    /// What it is to those who use it.
    ghost state: { Self → DiskState };

    /// How many bytes it has.
    fn bytes(&self) -> u64
        ensures { result ≡ (state self.now).size };

    /// The count of calls, which stays at 2^64 - 1 once it is there.
    fn calls(&self) -> u64
        ensures { result ≡ (state self.now).calls };

    /// The count of faults, which stays at 2^64 - 1 once it is there.
    fn faults(&self) -> u64
        ensures { result ≡ (state self.now).faults };

    /// Reads the bytes at a place, all inside the disk. After a fault the buffer holds any bytes.
    fn read(&mut self, place: u64, into: &mut [u8]) -> Result<(), Fault>
        requires { place + length into.old ≤ (state self.old).size }
        ensures bytes { (state self.new).honest → OnOk result (into.new ≡ bytes_at (state self.old).seen place (length into.old)) }
        ensures reads { OnlyReads (state self.old) (state self.new) }
        ensures time { Leaves (state self.old) (state self.new) (state self.new).images }
        ensures calls { (state self.new).calls ≡ next_count (state self.old).calls }
        ensures count_stays { OnOk result ((state self.new).faults ≡ (state self.old).faults) }
        ensures cause { HasCause (state self.old).faults (state self.new).faults result };

    /// Writes bytes at a place, all inside the disk. Until the next sync that succeeds a crash may
    /// leave any bytes in the range, and after a fault a read may give any there.
    fn write_at(&mut self, place: u64, from: &[u8]) -> Result<(), Fault>
        requires { place + length from.now ≤ (state self.old).size }
        ensures written { OnOk result (bytes_at (state self.new).seen place (length from.now) ≡ from.now) }
        ensures writes { WritesIn place (length from.now) (state self.old) (state self.new) }
        ensures time { Leaves (state self.old) (state self.new) (state self.new).images }
        ensures calls { (state self.new).calls ≡ next_count (state self.old).calls }
        ensures count_stays { OnOk result ((state self.new).faults ≡ (state self.old).faults) }
        ensures cause { HasCause (state self.old).faults (state self.new).faults result };

    /// Makes sure of what was written: after it a crash leaves what a read gives.
    fn sync(&mut self) -> Result<(), Fault>
        ensures durable { OnOk result (IsSynced (state self.new)) }
        ensures reads { OnlyReads (state self.old) (state self.new) }
        ensures time { Leaves (state self.old) (state self.new) (state self.new).images }
        ensures calls { (state self.new).calls ≡ next_count (state self.old).calls }
        ensures count_stays { OnOk result ((state self.new).faults ≡ (state self.old).faults) }
        ensures cause { HasCause (state self.old).faults (state self.new).faults result };

    /// What a read gives is as long as the disk.
    ghost seen_size: { (d : Self) → length (state d).seen ≡ (state d).size };

    /// So is each image.
    ghost image_size: { (d : Self) (c : List ℕ) → (state d).images c → length c ≡ (state d).size };

    /// A disk as it reads is one of its images.
    ghost reads_as_image: { (d : Self) → IsTrue tells_images → (state d).images (state d).seen };

    /// This moment is one of those since an earlier one.
    ghost counts_now: { (d : Self) (t : ℕ) (c : List ℕ) → t ≤ (state d).moment → (state d).images c → (state d).left_since t c };

    /// Since this moment there is no other.
    ghost only_now: { (d : Self) (c : List ℕ) → (state d).left_since (state d).moment c → (state d).images c };
}

/// Writes bytes at a place and makes sure of them.
pub fn put<D: Disk>(disk: &mut D, place: u64, from: &[u8]) -> Result<(), Fault>
    requires { place + length from.now ≤ (D.state disk.old).size }
    ensures written { OnOk result (bytes_at (D.state disk.new).seen place (length from.now) ≡ from.now) }
    ensures durable { OnOk result (IsSynced (D.state disk.new)) }
    ensures writes { WritesIn place (length from.now) (D.state disk.old) (D.state disk.new) }
    ensures cause { HasCause (D.state disk.old).faults (D.state disk.new).faults result }
{
    disk.write_at(place, from)?;
    disk.sync()
}

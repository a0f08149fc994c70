// The commit: one body more, in the slot that isn't the latest.
ghost use Rattle.std.specs.Prelude.{◌≡◌, ◌↔◌, ◌≤◌, ◌||◌, List, ℕ, IsTrue, IfOk, OnOk, is_err};
ghost use Rattle.zst_outside.specs.Causes.{HasCause};
ghost use Rattle.zst_outside.specs.Ranges.{bytes_at};
ghost use Rattle.zst_space.specs.FreeSectors.{FreeSectors};
ghost use Rattle.zst_block.specs.Blocks.{KeepsBlocks};
ghost use Rattle.zst_block.specs.IoStates.{IsHonest, disk_of};
ghost use Rattle.zst_uber.specs.Slots.{gate_place, body_place, IsOpen, latest_slot, other};
ghost use Rattle.zst_uber.specs.Commit.{CanCommitBody, Closes, CommitsBody, KeepsOldOrNew, WritesBody};
ghost use Rattle.zst_uber.specs.DiskCalls.{PutsIn, ReadsDisk};

use crate::body_slot::{BodySlot, OPEN, is_open, latest_in, read_front};
use crate::fault::UberFault;
use crate::uber::Uber;
use zst_block::Io;
use zst_outside::{Disk, Fault, put};

/// Makes this the latest body: in the slot that isn't the latest, the first one where there is
/// no pool yet.
///
/// At every moment each image that a crash may leave has the old latest body, or the new one.
/// The disk's failure is the only fault.
pub fn commit<D: Disk>(disk: &mut D, uber: &Uber) -> Result<(), UberFault>
    requires room { 4096 ≤ (D.state disk.old).size }
    requires body { CanCommitBody uber.now (D.state disk.old) }
    ensures commits { CommitsBody uber.now (D.state disk.old) (D.state disk.new) result }
{
    match write_body(disk, uber) {
        Ok(()) => Ok(()),
        Err(Fault) => Err(UberFault::DiskFault),
    }
}

/// Commits an event: each image that a crash may leave then has the old latest body and all
/// blocks of an image from before, or the new one and all blocks that a read gave.
pub fn commit_event<D: Disk>(io: &mut Io<'_, D>, uber: &Uber) -> Result<(), UberFault>
    requires body { CanCommitBody uber.now (disk_of io.old) }
    ensures commits { CommitsBody uber.now (disk_of io.old) (disk_of io.new) result }
    ensures images { (c : List ℕ) → IsHonest io.new → (disk_of io.new).images c → KeepsOldOrNew uber.now (disk_of io.old) c }
    ensures kept { (space : FreeSectors) → KeepsBlocks (disk_of io.old).seen space (disk_of io.new).seen space }
    ensures failed { io.new.failed ≡ (io.old.failed || is_err result) }
    ensures counts { io.new.checksum_errors ≡ io.old.checksum_errors }
    ensures space { io.new.space ≡ io.old.space }
    ensures same { io.new.disk.ghost_name ≡ io.old.disk.ghost_name }
{
    let outcome = commit(io.disk, uber);
    if outcome.is_err() {
        io.failed = true;
    }
    outcome
}

fn write_body<D: Disk>(disk: &mut D, uber: &Uber) -> Result<(), Fault>
    requires room { 4096 ≤ (D.state disk.old).size }
    requires body { CanCommitBody uber.now (D.state disk.old) }
    ensures written { WritesBody uber.now (D.state disk.old) (D.state disk.new) result }
    ensures cause { HasCause (D.state disk.old).faults (D.state disk.new).faults result }
{
    let body = uber.encode();
    let (slot, is_open) = find_idle(disk)?;
    close(disk, slot, is_open)?;
    fill(disk, slot, &body)?;
    open_gate(disk, slot)
}

// The slot that isn't the latest body's, and whether its gate is open.
fn find_idle<D: Disk>(disk: &mut D) -> Result<(BodySlot, bool), Fault>
    requires { 2048 ≤ (D.state disk.old).size }
    ensures idle { (D.state disk.new).honest → IfOk result (λ found. latest_slot (D.state disk.old).seen ≡ other found.0) }
    ensures gate { (D.state disk.new).honest → IfOk result (λ found. IsTrue found.1 ↔ IsOpen (D.state disk.old).seen found.0) }
    ensures reads { ReadsDisk (D.state disk.old) (D.state disk.new) result }
{
    let mut front = [0u8; 2048];
    let count = read_front(disk, &mut front)?;
    let (slot, _) = latest_in(&front[..count]);
    let idle = slot.other();
    Ok((idle, is_open(&front[..count], idle)))
}

// Closes a gate if it is open, and syncs. A closed gate isn't written: until the sync it might
// hold any byte.
fn close<D: Disk>(disk: &mut D, slot: BodySlot, is_open: bool) -> Result<(), Fault>
    requires room { 2048 ≤ (D.state disk.old).size }
    requires gate { (D.state disk.old).honest → (IsTrue is_open ↔ IsOpen (D.state disk.old).seen slot) }
    ensures closed { (D.state disk.new).honest → OnOk result (¬ (IsOpen (D.state disk.new).seen slot)) }
    ensures closes { (D.state disk.new).honest → Closes slot (D.state disk.old) (D.state disk.new) }
    ensures puts { PutsIn (gate_place slot) 1 (D.state disk.old) (D.state disk.new) result }
{
    if is_open {
        put(disk, slot.gate(), &[0])
    } else {
        disk.sync()
    }
}

// Writes a body into a slot, and syncs.
fn fill<D: Disk>(disk: &mut D, slot: BodySlot, body: &[u8; 512]) -> Result<(), Fault>
    requires { 2048 ≤ (D.state disk.old).size }
    ensures body { OnOk result (bytes_at (D.state disk.new).seen (body_place slot) 512 ≡ body.now) }
    ensures puts { PutsIn (body_place slot) 512 (D.state disk.old) (D.state disk.new) result }
{
    put(disk, slot.body(), body)
}

// Opens a gate by a write of one byte, and syncs.
fn open_gate<D: Disk>(disk: &mut D, slot: BodySlot) -> Result<(), Fault>
    requires { 2048 ≤ (D.state disk.old).size }
    ensures opened { OnOk result (IsOpen (D.state disk.new).seen slot) }
    ensures puts { PutsIn (gate_place slot) 1 (D.state disk.old) (D.state disk.new) result }
{
    put(disk, slot.gate(), &[OPEN])
}

// The slots in the first four sectors.
ghost use Rattle.std.specs.Prelude.{◌≡◌, ◌↔◌, ◌<◌, ◌≤◌, List, ℕ, IsTrue, length, min, take, IfOk};
ghost use Rattle.zst_outside.specs.Ranges.{bytes_at};
ghost use Rattle.zst_uber.specs.DiskCalls.{ReadsDisk};
ghost use Rattle.zst_uber.specs.Slots.{gate_of, gate_place, body_place, body_sector, counts, latest, latest_slot, slot_at, greater, other, IsOpen};

use crate::MAGIC;
use zst_bytes::le64;
use zst_outside::{Disk, Fault};

/// The byte of an open gate.
pub const OPEN: u8 = 0xa5;

/// A slot: a gate and a body.
#[derive(Clone, Copy)]
pub enum BodySlot {
    First,
    Second,
}

impl BodySlot {
    /// The place of its gate.
    pub fn gate(self) -> u64
        ensures { result ≡ gate_place self }
    {
        match self {
            BodySlot::First => 0,
            BodySlot::Second => 1024,
        }
    }

    /// The place of its body.
    pub fn body(self) -> u64
        ensures { result ≡ body_place self }
    {
        match self {
            BodySlot::First => 512,
            BodySlot::Second => 1536,
        }
    }

    /// The sector of its body.
    pub fn body_sector(self) -> u64
        ensures { result ≡ body_sector self }
    {
        match self {
            BodySlot::First => 1,
            BodySlot::Second => 3,
        }
    }

    /// The other slot.
    pub fn other(self) -> BodySlot
        ensures { result ≡ other self }
    {
        match self {
            BodySlot::First => BodySlot::Second,
            BodySlot::Second => BodySlot::First,
        }
    }
}

/// Reads the front of a disk, which has both slots, and gives how many bytes of it there are.
pub fn read_front<D: Disk>(disk: &mut D, front: &mut [u8]) -> Result<usize, Fault>
    requires long { length front.old ≡ 2048 }
    ensures bytes { (D.state disk.new).honest → IfOk result (λ count. take count front.new ≡ bytes_at (D.state disk.old).seen 0 2048) }
    ensures inside { IfOk result (λ count. count ≤ 2048) }
    ensures length { IfOk result (λ count. count ≡ min 2048 (D.state disk.old).size) }
    ensures reads { ReadsDisk (D.state disk.old) (D.state disk.new) result }
{
    let count = disk.bytes().min(2048) as usize;
    disk.read(0, &mut front[..count])?;
    Ok(count)
}

// The gate of a slot: one byte.
#[tactic(auto, unfolding(zst_outside::specs::Ranges::bytes_at))]
fn gate_in(front: &[u8], slot: BodySlot) -> &[u8]
    requires { gate_place slot < length front.now }
    ensures gate { result.now ≡ gate_of front.now slot }
    ensures long { length result.now ≡ 1 }
{
    let place = slot.gate() as usize;
    &front[place..place + 1]
}

/// Whether the gate of a slot is open.
pub fn is_open(front: &[u8], slot: BodySlot) -> bool
    requires { gate_place slot < length front.now }
    ensures { IsTrue result ↔ IsOpen front.now slot }
{
    gate_in(front, slot)[0] == OPEN
}

// Whether the gate is open and the magic is right.
fn is_live(gate: &[u8], body: &[u8]) -> bool
    requires gate { length gate.now ≡ 1 }
    requires body { length body.now ≡ 512 }
    ensures { result ≡ counts gate.now body.now }
{
    gate[0] == OPEN && le64(body, 0) == MAGIC
}

// The body in a slot, where it counts.
#[tactic(auto, unfolding(zst_outside::specs::Ranges::bytes_at))]
fn body_in(front: &[u8], slot: BodySlot) -> Option<[u8; 512]>
    ensures { result ≡ slot_at front.now slot }
{
    let place = slot.body() as usize;
    if front.len() < place + 512 {
        return None;
    }
    let mut body = [0u8; 512];
    body.copy_from_slice(&front[place..place + 512]);
    if is_live(gate_in(front, slot), &body) {
        Some(body)
    } else {
        None
    }
}

// The slot of the body with the greater number, and the first where they are equal.
fn later_slot(first: &Option<[u8; 512]>, second: &Option<[u8; 512]>) -> BodySlot
    ensures { result ≡ greater first.now second.now }
{
    match (first, second) {
        (None, _) => BodySlot::Second,
        (Some(_), None) => BodySlot::First,
        (Some(a), Some(b)) => {
            if le64(a, 16) < le64(b, 16) {
                BodySlot::Second
            } else {
                BodySlot::First
            }
        }
    }
}

/// The slot of the latest body, and the body.
pub fn latest_in(front: &[u8]) -> (BodySlot, Option<[u8; 512]>)
    ensures slot { result.0 ≡ latest_slot front.now }
    ensures body { result.1 ≡ latest front.now }
{
    let first = body_in(front, BodySlot::First);
    let second = body_in(front, BodySlot::Second);
    match later_slot(&first, &second) {
        BodySlot::First => (BodySlot::First, first),
        BodySlot::Second => (BodySlot::Second, second),
    }
}

// The latest body of a disk.
ghost use Rattle.std.specs.Prelude.{◌≡◌, ◌↔◌, ◌≤◌, List, ℕ, Some, length, IsTrue, IfOk};
ghost use Rattle.zst_outside.specs.Images.{IsSynced};
ghost use Rattle.zst_outside.specs.Ranges.{bytes_at};
ghost use Rattle.zst_uber.specs.Body.{InRange, body_bytes};
ghost use Rattle.zst_uber.specs.Slots.{latest as latest_of, latest_slot, body_sector, slot_at};
ghost use Rattle.zst_uber.specs.Commit.{LabelSettled};
ghost use Rattle.zst_uber.specs.OpenAnswers.{Answers, Decodes, IsLatest, TellsNext, GivesUber};
ghost use Rattle.zst_uber.specs.DiskCalls.{ReadsDisk, ReadsOrFails};
ghost use Rattle.zst_uber.specs.declared.uber.Uber.{Uber};

use crate::VERSION;
use crate::body_slot::{BodySlot, latest_in, read_front};
use crate::fault::UberFault;
use crate::uber::Uber;
use zst_block::get_sum;
use zst_bytes::le32;
use zst_fletcher::sum_of;
use zst_outside::{Disk, Fault};

/// Reads the latest body.
///
/// Unless the disk fails, nothing is pending on it afterwards.
pub fn latest<D: Disk>(disk: &mut D) -> Result<Uber, UberFault>
    // Each answer has its cause, and a body that stands is read.
    ensures answer { (D.state disk.new).honest → Answers (D.state disk.old) result }
    ensures stands { (D.state disk.new).honest → IfOk result (λ uber. IsLatest (D.state disk.old).size uber (D.state disk.old).seen) }
    ensures there { (uber : Uber) → (D.state disk.new).honest → IsLatest (D.state disk.old).size uber (D.state disk.old).seen → GivesUber uber result }
    ensures next { (D.state disk.new).honest → TellsNext result (latest_of (D.state disk.old).seen) }

    ensures in_range { IfOk result (λ uber. InRange (D.state disk.new).size uber) }

    // Then nothing is pending.
    ensures settled { ¬ (result ≡ Err UberFault.DiskFault) → IsSynced (D.state disk.new) }
    ensures label { ¬ (result ≡ Err UberFault.DiskFault) → LabelSettled (D.state disk.new) }

    ensures reads { ReadsOrFails UberFault.DiskFault (D.state disk.old) (D.state disk.new) result }
{
    disk.sync()?;
    let (slot, body) = newest(disk)?;
    match body {
        None => Err(UberFault::NoPool),
        Some(body) => decode(&body, slot.body_sector(), disk.bytes()),
    }
}

// The slot of the latest body, and the body.
fn newest<D: Disk>(disk: &mut D) -> Result<(BodySlot, Option<[u8; 512]>), Fault>
    ensures slot { (D.state disk.new).honest → IfOk result (λ found. found.0 ≡ latest_slot (D.state disk.old).seen) }
    ensures body { (D.state disk.new).honest → IfOk result (λ found. found.1 ≡ latest_of (D.state disk.old).seen) }
    ensures reads { ReadsDisk (D.state disk.old) (D.state disk.new) result }
{
    let mut front = [0u8; 2048];
    let count = read_front(disk, &mut front)?;
    Ok(latest_in(&front[..count]))
}

// What a body in this sector says on a disk of so many bytes.
fn decode(body: &[u8], sector: u64, size: u64) -> Result<Uber, UberFault>
    requires { length body.now ≡ 512 }
    ensures { Decodes size sector body.now result }
{
    let version = le32(body, 8);
    if version != VERSION {
        return Err(UberFault::BadVersion(version));
    }
    let uber = Uber::get(body);
    if is_body(body, &uber, size) {
        Ok(uber)
    } else {
        Err(UberFault::Damaged {
            sector,
            stated: get_sum(body, 480).parts(),
            found: sum_of(&body[..480]).parts(),
        })
    }
}

// Whether these bytes are the body of this uber.
fn is_body(body: &[u8], uber: &Uber, size: u64) -> bool
    ensures { IsTrue result ↔ (InRange size uber.now × (body.now ≡ body_bytes uber.now)) }
{
    uber.is_in_range(size) && uber.encode().as_slice() == body
}

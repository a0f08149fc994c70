ghost use Rattle.std.specs.Prelude.{◌≡◌, ◌==◌, ◌+◌, ◌-◌, ◌<◌, ◌≤◌, ◌++◌, false, List, [], ℕ, IfOk, drop, length, min, pred, take};
ghost use Rattle.zst_block.specs.IoStates.{IsHonest, blocks_of, disk_of, io_of};
ghost use Rattle.zst_dnode.specs.Dnode.{DnodeFits};
ghost use Rattle.zst_model.specs.declared.states.item.Change.TheVariants.{Put};
ghost use Rattle.zst_model.specs.declared.states.item.Item.{Item};
ghost use Rattle.zst_model.specs.declared.states.item.Item.TheVariants.{At};
ghost use Rattle.zst_record.specs.Formats.{record_len};
ghost use Rattle.zst_record.specs.Heads.{payload_len};
ghost use Rattle.zst_record.specs.Payload.{begin_payload};
ghost use Rattle.zst_send.specs.BufferReads.{CopiesOf, GivesMore, IsPutOf, ReadsAtMost};
ghost use Rattle.zst_send.specs.Costs.{reads_due};
ghost use Rattle.zst_send.specs.Damage.{IsDamagedDue};
ghost use Rattle.zst_send.specs.DueItems.{DueFits, IsFirst, head_in};
ghost use Rattle.zst_send.specs.HeldPointers.{pointer_behind};
ghost use Rattle.zst_send.specs.ItemHeads.{IsFollowed, IsLone};
ghost use Rattle.zst_send.specs.Records.{IsOfItem};
ghost use Rattle.zst_send.specs.PendingRecords.{BufferFits, CanGive, IsFresh, IsLoaded, IsPending, IsPut, PendingFits, payload_size};
ghost use Rattle.zst_send.specs.Takes.{AreThere, CallsNone};
ghost use Rattle.zst_stream.specs.FoundItems.{found_item};
ghost use Rattle.zst_stream.specs.Image.{front_of, piece_after};
ghost use Rattle.zst_stream.specs.Records.{item_payload, padded_bonus, piece_for};
ghost use Rattle.zst_tree.specs.Indices.{Delivers};
ghost use Rattle.zst_writer.specs.Writes.{HasWritten, bytes_after};

use crate::block_buffer::BlockBuffer;
use crate::due_items::DueItems;
use zst_block::{BlockFault, Io, Ptr};
use zst_dnode::Dnode;
use zst_model::{Header, ObjectHead};
use zst_outside::Disk;
use zst_record::{Head, LONGEST_BEGIN_PAYLOAD, RECORD_LEN, put_begin_payload};
use zst_stream::{ItemRef, head_of, pad_bonus};
use zst_writer::Writer;

/// What follows a record.
#[derive(Clone, Copy)]
pub(crate) enum Payload {
    Nothing,
    /// A bonus, zeros that pad it among its bytes, or the payload of BEGIN: so many bytes of a field.
    Bonus { field: [u8; 320], count: u32 },
    /// The block that a pointer names.
    Block { ptr: Ptr },
}

/// The pending record: its bytes, what follows it, and how many bytes of both were given.
#[derive(Clone, Copy)]
pub(crate) struct PendingRecord {
    pub head: [u8; RECORD_LEN],
    pub payload: Payload,
    pub given: usize,
}

impl Payload {
    /// The count of its bytes.
    fn size(&self) -> usize
        ensures { result ≡ payload_size self.now }
    {
        match self {
            Payload::Nothing => 0,
            Payload::Bonus { count, .. } => *count as usize,
            Payload::Block { ptr } => ptr.length as usize,
        }
    }

    /// The pointer to the block that it is, where it is one.
    pub(crate) fn pointer(&self) -> Option<Ptr>
        ensures { result ≡ pointer_behind self.now }
    {
        match self {
            Payload::Block { ptr } => Some(*ptr),
            _ => None,
        }
    }
}

impl PendingRecord {
    /// A record that nothing follows.
    pub(crate) fn alone(writer: &mut Writer, head: &Head) -> PendingRecord
        requires { payload_len head.now ≡ 0 }
        ensures written { (text : List ℕ) → HasWritten writer.old text → HasWritten writer.new (text ++ bytes_after text head.now) }
        ensures head { (text : List ℕ) → HasWritten writer.old text → result.head ≡ bytes_after text head.now }
        ensures fresh { IsFresh Payload.Nothing result }
    {
        let mut bytes = [0; RECORD_LEN];
        writer.put(head, &[], &mut bytes);
        PendingRecord {
            head: bytes,
            payload: Payload::Nothing,
            given: 0,
        }
    }

    /// BEGIN of a header, with its payload, where nothing was put before.
    pub(crate) fn begin(writer: &mut Writer, header: Header) -> PendingRecord
        requires { HasWritten writer.old [] }
        ensures written { HasWritten writer.new (front_of header) }
        ensures head { result.head ++ begin_payload header ≡ front_of header }
        ensures payload { (field : List ℕ) × IsFresh (Payload.Bonus field (length (begin_payload header))) result × (take (length (begin_payload header)) field ≡ begin_payload header) }
        ensures fits { PendingFits result }
    {
        let mut room = [0; LONGEST_BEGIN_PAYLOAD];
        let count = put_begin_payload(&header, &mut room);
        let mut field = [0; 320];
        field[..count].copy_from_slice(&room[..count]);
        let begin = Head::Begin {
            header,
            payload_len: count as u32,
        };
        let mut head = [0; RECORD_LEN];
        writer.put(&begin, &room[..count], &mut head);
        PendingRecord {
            head,
            payload: Payload::Bonus {
                field,
                count: count as u32,
            },
            given: 0,
        }
    }

    /// Puts the record of what is due, whose bytes are loaded.
    pub(crate) fn put<D: Disk>(
        writer: &mut Writer,
        buffer: &mut BlockBuffer,
        io: &mut Io<'_, D>,
        due: &DueItems,
        to: u64,
    ) -> Result<PendingRecord, BlockFault>
        requires due { DueFits due.now }
        requires buffer { BufferFits buffer.old }

        ensures put { (text : List ℕ) (item : Item) → IsHonest io.new → IsLoaded (blocks_of io.old) buffer.old
            → HasWritten writer.old text → IsFirst (blocks_of io.old) due.now item
            → Delivers (IsPut (blocks_of io.new) to text item writer.new) result }
        ensures loaded { (item : Item) → IsHonest io.new → IsLoaded (blocks_of io.old) buffer.old
            → IsFirst (blocks_of io.old) due.now item → IsLoaded (blocks_of io.new) buffer.new }

        // Whatever the image, damage is told of the block that is due, that block follows the record, and the buffer has it then.
        ensures reads { ReadsAtMost (reads_due due.now) (λ images size. IsDamagedDue images size due.now) (io_of io.old) (io_of io.new) buffer.new result }
        ensures follows { IfOk result (IsPutOf due.now buffer.new) }
        // What follows the record is what is due.
        ensures size { (item : Item) → IsFirst (blocks_of io.old) due.now item → IfOk result (λ pending. IsOfItem item pending.payload) }
    {
        match *due {
            DueItems::Absent { first, count } => Ok(PendingRecord::of(
                writer,
                &ItemRef::Absent { first, count },
                to,
            )),
            DueItems::Object { object, dnode } => Ok(PendingRecord::of_object(
                writer, object, &dnode, to,
            )),
            DueItems::Spill { object, ptr, .. } => {
                buffer.load(io, &ptr)?;
                let bytes = buffer.block(ptr.length);
                Ok(PendingRecord::of_block(
                    writer,
                    &ItemRef::Spill { object, bytes },
                    bytes,
                    ptr,
                    to,
                ))
            }
            DueItems::Tail { object, offset } => Ok(PendingRecord::of(
                writer,
                &ItemRef::Tail { object, offset },
                to,
            )),
            DueItems::Holes {
                object,
                offset,
                length,
            } => Ok(PendingRecord::of(
                writer,
                &ItemRef::Holes {
                    object,
                    offset,
                    length,
                },
                to,
            )),
            DueItems::Redacted {
                object,
                offset,
                length,
            } => Ok(PendingRecord::of(
                writer,
                &ItemRef::Redacted {
                    object,
                    offset,
                    length,
                },
                to,
            )),
            DueItems::Block {
                object,
                type_,
                offset,
                ptr,
            } => {
                buffer.load(io, &ptr)?;
                let bytes = buffer.block(ptr.length);
                let item = ItemRef::Block {
                    object,
                    type_,
                    offset,
                    bytes,
                };
                Ok(PendingRecord::of_block(writer, &item, bytes, ptr, to))
            }
        }
    }

    /// Whether all of it was given.
    pub(crate) fn is_given(&self) -> bool
        requires { PendingFits self.now }
        ensures { result ≡ (record_len + payload_size self.now.payload == self.now.given) }
    {
        RECORD_LEN + self.payload.size() == self.given
    }

    /// Gives as much of it as there is room for, in one piece: of the record, or of what follows it.
    pub(crate) fn give<D: Disk>(
        &mut self,
        buffer: &mut BlockBuffer,
        io: &mut Io<'_, D>,
        into: &mut [u8],
    ) -> Result<usize, BlockFault>
        requires can { CanGive self.old buffer.old into.old }

        // The next bytes are given, and those behind them are left.
        ensures gives { (left : List ℕ) → IsHonest io.new → IsLoaded (blocks_of io.old) buffer.old
            → IsPending (blocks_of io.old) self.old left
            → Delivers (λ count. (take count into.new ≡ take count left) × (count ≤ length left) × IsPending (blocks_of io.new) self.new (drop count left)) result }

        // Whatever the image, one byte at least is given, and after a refusal it is as it was.
        ensures copies { CopiesOf self.old (io_of io.old) (io_of io.new) buffer.old buffer.new into.old into.new result }
        ensures there { AreThere self.old buffer.old.holds (length into.old) → CallsNone (disk_of io.old).calls (disk_of io.new).calls result }
        ensures more { GivesMore self.old self.new result }
    {
        let count = self.copy_next(buffer, io, into)?;
        self.given += count;
        Ok(count)
    }

    // Copies as much as there is room for, from where it was left: of the record, or of what follows it.
    fn copy_next<D: Disk>(
        &self,
        buffer: &mut BlockBuffer,
        io: &mut Io<'_, D>,
        into: &mut [u8],
    ) -> Result<usize, BlockFault>
        requires can { CanGive self.now buffer.old into.old }
        ensures gives { (left : List ℕ) → IsHonest io.new → IsLoaded (blocks_of io.old) buffer.old
            → IsPending (blocks_of io.old) self.now left
            → Delivers (λ count. (take count into.new ≡ take count left) × (count ≤ length left)) result }
        ensures count { IfOk result (λ count. (0 < count) × (self.now.given + count ≤ record_len + payload_size self.now.payload)) }
        ensures copies { CopiesOf self.now (io_of io.old) (io_of io.new) buffer.old buffer.new into.old into.new result }
        ensures there { AreThere self.now buffer.old.holds (length into.old) → CallsNone (disk_of io.old).calls (disk_of io.new).calls result }
    {
        if self.given < RECORD_LEN {
            return Ok(copy_from(&self.head, self.given, into));
        }
        let from = self.given - RECORD_LEN;
        match &self.payload {
            Payload::Nothing => Ok(0),
            Payload::Bonus { field, count } => Ok(copy_from(&field[..*count as usize], from, into)),
            Payload::Block { ptr } => {
                buffer.load(io, ptr)?;
                Ok(copy_from(buffer.block(ptr.length), from, into))
            }
        }
    }

    // The record of an item that nothing follows.
    fn of(writer: &mut Writer, item: &ItemRef<'_>, to: u64) -> PendingRecord
        requires item { IsLone to item.now }
        ensures put { (text : List ℕ) → HasWritten writer.old text
            → HasWritten writer.new (text ++ piece_after text (piece_for to (found_item item.now))) × (result.head ≡ piece_after text (piece_for to (found_item item.now))) }
        ensures fresh { IsFresh Payload.Nothing result }
    {
        PendingRecord::alone(writer, &head_of(item, to))
    }

    // The record of an item whose bytes are those of a block.
    fn of_block(
        writer: &mut Writer,
        item: &ItemRef<'_>,
        bytes: &[u8],
        ptr: Ptr,
        to: u64,
    ) -> PendingRecord
        requires item { IsFollowed to item.now bytes.now }
        ensures put { (text : List ℕ) → HasWritten writer.old text
            → HasWritten writer.new (text ++ piece_after text (piece_for to (found_item item.now))) × (result.head ++ bytes.now ≡ piece_after text (piece_for to (found_item item.now))) }
        ensures fresh { IsFresh (Payload.Block ptr) result }
    {
        let mut head = [0; RECORD_LEN];
        writer.put(&head_of(item, to), bytes, &mut head);
        PendingRecord {
            head,
            payload: Payload::Block { ptr },
            given: 0,
        }
    }

    // The OBJECT of an object, with its bonus.
    fn of_object(writer: &mut Writer, object: u64, dnode: &Dnode, to: u64) -> PendingRecord
        requires { DnodeFits dnode.now }
        ensures put { (text : List ℕ) (item : Item) → HasWritten writer.old text
            → item ≡ At object (Put (head_in dnode.now) (take dnode.now.bonus_len dnode.now.bonus) false (pred dnode.now.end))
            → HasWritten writer.new (text ++ piece_after text (piece_for to item)) × (result.head ++ item_payload item ≡ piece_after text (piece_for to item)) }
        ensures payload { (field : List ℕ) × (count : ℕ) × IsFresh (Payload.Bonus field count) result × (take count field ≡ padded_bonus (take dnode.now.bonus_len dnode.now.bonus)) × (count ≤ 320) }
    {
        let bonus = &dnode.bonus[..dnode.bonus_len as usize];
        let mut room = [0; 320];
        let padded = pad_bonus(bonus, &mut room);
        let mut field = [0; 320];
        field[..padded.len()].copy_from_slice(padded);
        let head = ObjectHead {
            type_: dnode.type_,
            bonus_type: dnode.bonus_type,
            block_size: dnode.block_size,
        };
        let item = ItemRef::Object {
            object,
            head,
            bonus,
            end: dnode.end,
        };
        let mut bytes = [0; RECORD_LEN];
        writer.put(&head_of(&item, to), padded, &mut bytes);
        PendingRecord {
            head: bytes,
            payload: Payload::Bonus {
                field,
                count: padded.len() as u32,
            },
            given: 0,
        }
    }
}

// Copies the bytes from a place on, as many as there is room for, and counts them.
fn copy_from(bytes: &[u8], from: usize, into: &mut [u8]) -> usize
    requires { from ≤ length bytes.now }
    ensures count { result ≡ min (length bytes.now - from) (length into.old) }
    ensures copied { take result into.new ≡ take result (drop from bytes.now) }
    ensures rest { drop result into.new ≡ drop result into.old }
    ensures into { length into.new ≡ length into.old }
{
    let count = (bytes.len() - from).min(into.len());
    into[..count].copy_from_slice(&bytes[from..from + count]);
    count
}

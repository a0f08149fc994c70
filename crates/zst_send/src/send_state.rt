ghost use Rattle.std.specs.Prelude.{◌≡◌, ◌+◌, ◌<◌, ◌≤◌, true, List, [], ℕ, IfOk, Ok, length};
ghost use Rattle.zst_space.specs.FreeSectors.{FreeSectors};
ghost use Rattle.zst_block.specs.Blocks.{Has};
ghost use Rattle.zst_block.specs.IoStates.{IsHonest, blocks_of, disk_of, io_of};
ghost use Rattle.zst_model.specs.declared.sends.header.Header.{Header};
ghost use Rattle.zst_model.specs.declared.sends.header.Point.{Point};
ghost use Rattle.zst_model.specs.declared.states.item.Item.{Item};
ghost use Rattle.zst_model.specs.sends.View.{View, view_of};
ghost use Rattle.zst_model.specs.states.DatedState.{DatedState};
ghost use Rattle.zst_send.specs.Costs.{PutsIn};
ghost use Rattle.zst_send.specs.Records.{HasPut};
ghost use Rattle.zst_send.specs.KnownPointers.{IsAmong, IsOfSet};
ghost use Rattle.zst_tree.specs.declared.tree.ObjSet.{ObjSet};
ghost use Rattle.zst_send.specs.NextRecords.{IsIdle, PutsNext, ReadsFor};
ghost use Rattle.zst_send.specs.SendState.{Fills, StandFits, StandsAt};
ghost use Rattle.zst_send.specs.Subjects.{HoldsFor, IsTightFor, choice_for};
ghost use Rattle.zst_send.specs.Takes.{AreThere, FillsAtMost};
ghost use Rattle.zst_record.specs.Formats.{record_len};
ghost use Rattle.zst_send.specs.PendingRecords.{IsLoaded, BufferFits, payload_size};
ghost use Rattle.zst_stream.specs.Image.{front_of};
ghost use Rattle.zst_stream.specs.Records.{view_text};
ghost use Rattle.zst_tree.specs.Indices.{Delivers};

use crate::block_buffer::BlockBuffer;
use crate::pending_record::PendingRecord;
use crate::subject::Subject;
use crate::walk::Walk;
use zst_block::{BlockFault, Io};
use zst_laws::walk_begins;
use zst_model::{Header, Point};
use zst_outside::Disk;
use zst_record::Head;
use zst_writer::Writer;

/// Where a send stands: small enough to be copied, so that a refusal leaves it.
#[derive(Clone, Copy)]
pub(crate) struct SendState {
    pub walk: Walk,
    pub writer: Writer,
    pub pending: PendingRecord,
    /// Whether END was put.
    pub ended: bool,
}

impl SendState {
    /// A send that gives BEGIN with its payload first, and then the items from this point on.
    pub(crate) fn start(header: Header, point: Point) -> SendState
        ensures stands { (image : List ℕ) (space : FreeSectors) (snap : DatedState) (view : View) → StandsAt (Has image space) snap view header.to result (view_text header view point) }
        ensures knows { (images : List (List ℕ)) (set : ObjSet) → IsOfSet (IsAmong images) set result }
        ensures puts { (image : List ℕ) (space : FreeSectors) (snap : DatedState) (view : View) → HasPut (Has image space) snap view point (length (front_of header)) [] 0 result }
        ensures fits { StandFits result }
    {
        walk_begins();
        let mut writer = Writer::new();
        let pending = PendingRecord::begin(&mut writer, header);
        SendState {
            walk: Walk::start(point),
            writer,
            pending,
            ended: false,
        }
    }

    /// Puts the next record, or END where no item is left; false where END was put before.
    fn advance<D: Disk>(
        &mut self,
        buffer: &mut BlockBuffer,
        io: &mut Io<'_, D>,
        subject: &Subject,
    ) -> Result<bool, BlockFault>
        requires stand { StandFits self.old }
        requires buffer { BufferFits buffer.old }
        requires given { record_len + payload_size self.old.pending.payload ≡ self.old.pending.given }
        ensures next { PutsNext subject.now self.old self.new buffer.old buffer.new (io_of io.old) (io_of io.new) result }
        ensures fresh { result ≡ Ok true → self.new.pending.given ≡ 0 }
    {
        if self.ended {
            return Ok(false);
        }
        match self.walk.next(io, subject)? {
            Some(due) => {
                self.pending = PendingRecord::put(&mut self.writer, buffer, io, &due, subject.to)?;
                Ok(true)
            }
            None => {
                let end = Head::End {
                    sums: [0; 4],
                    to: subject.to,
                };
                self.pending = PendingRecord::alone(&mut self.writer, &end);
                self.ended = true;
                Ok(true)
            }
        }
    }

    /// Whether bytes are left: where the pending record was given, the next one is put.
    fn has_more<D: Disk>(
        &mut self,
        buffer: &mut BlockBuffer,
        io: &mut Io<'_, D>,
        subject: &Subject,
    ) -> Result<bool, BlockFault>
        requires stand { StandFits self.old }
        requires buffer { BufferFits buffer.old }
        ensures next { PutsNext subject.now self.old self.new buffer.old buffer.new (io_of io.old) (io_of io.new) result }
        ensures more { result ≡ Ok true → self.new.pending.given < record_len + payload_size self.new.pending.payload }
        // Where bytes of the pending record are left, nothing is done.
        ensures idle { self.old.pending.given < record_len + payload_size self.old.pending.payload → IsIdle self.old self.new buffer.old buffer.new (disk_of io.old).calls (disk_of io.new).calls result }
    {
        if !self.pending.is_given() {
            return Ok(true);
        }
        self.advance(buffer, io, subject)
    }

    /// Fills `into` with the next bytes, and counts them: fewer are given exactly at the end.
    pub(crate) fn fill<D: Disk>(
        &mut self,
        buffer: &mut BlockBuffer,
        io: &mut Io<'_, D>,
        subject: &Subject,
        into: &mut [u8],
    ) -> Result<usize, BlockFault>
        requires stand { StandFits self.old }
        requires buffer { BufferFits buffer.old }
        ensures fills { (header : Header) (snap : DatedState) (left : List ℕ) → IsHonest io.new → HoldsFor (blocks_of io.old) subject.now snap
            → IsLoaded (blocks_of io.old) buffer.old → StandsAt (blocks_of io.old) snap (view_of header snap (choice_for subject.now)) subject.now.to self.old left
            → Delivers (Fills (blocks_of io.new) snap (view_of header snap (choice_for subject.now)) subject.now.to left into.new self.new) result }
        ensures reads { ReadsFor subject.now self.old self.new buffer.old buffer.new (io_of io.old) (io_of io.new) result }
        ensures into { FillsAtMost into.old into.new result }
        // What needs no read is given without one.
        ensures there { AreThere self.old.pending buffer.old.holds (length into.old) → (result ≡ Ok (length into.old)) × ((disk_of io.new).calls ≤ (disk_of io.old).calls) }
        // Of a set whose slots are tight it reads no more than the items take that have a byte of what it gives.
        ensures puts { (header : Header) (snap : DatedState) (point : Point) (front : ℕ) (put : List Item) (place : ℕ) → IsHonest io.new → HoldsFor (blocks_of io.old) subject.now snap
            → HasPut (blocks_of io.old) snap (view_of header snap (choice_for subject.now)) point front put place self.old
            → IfOk result (λ count. PutsIn (blocks_of io.new) snap (view_of header snap (choice_for subject.now)) (IsTightFor (blocks_of io.old) subject.now snap) point front put place count
            self.old self.new (disk_of io.old).calls (disk_of io.new).calls) }
    {
        let mut count = 0;
        while count < into.len() {
            if !self.has_more(buffer, io, subject)? {
                return Ok(count);
            }
            count += self.pending.give(buffer, io, &mut into[count..])?;
        }
        Ok(count)
    }
}

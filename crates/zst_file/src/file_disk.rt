//! The disk over a file.
ghost use Rattle.std.specs.Prelude.{◌≡◌, OnOk, is_ok};
ghost use Rattle.zst_outside.specs.Causes.{HasCause};
ghost use Rattle.zst_file.specs.FileHistory.{is_usable};

use crate::host::Host;
use crate::start::Start;
use std::fs::File;
use std::io;
use std::marker::PhantomData;
use zst_outside::{Disk, Fault};

/// A file as a disk of so many bytes, as it had when it was opened.
#[derive(Drop)]
pub struct FileDisk<S: Start> {
    host: Host,
    start: PhantomData<S>,
    bytes: u64,
    calls: u64,
    faults: u64,
    usable: bool,
    ghost usable_is: { usable ≡ is_usable host.log.events },
}

impl<S: Start> FileDisk<S> {
    ghost use Rattle.std.specs.Prelude.{◌≡◌, []};
    ghost use Rattle.zst_file.specs.FileDisk.{history_of, state_of};

    /// The disk of an open file, or of a block device, that has so many bytes (`length_of`). `_start` stands for what it holds.
    pub fn new(file: File, bytes: u64, _start: S) -> FileDisk<S>
        ensures fresh { history_of result ≡ [] }
        ensures size { (state_of S.Start result).size ≡ bytes }
        ensures calls { (state_of S.Start result).calls ≡ 0 }
        ensures faults { (state_of S.Start result).faults ≡ 0 }
    {
        FileDisk {
            host: Host::new(file),
            start: PhantomData,
            bytes,
            calls: 0,
            faults: 0,
            usable: true,
        }
    }
}

// Counts a fault where the system told one.
fn judge(outcome: io::Result<()>, faults: &mut u64) -> Result<(), Fault>
    ensures told { is_ok result ≡ is_ok outcome }
    ensures count_stays { OnOk result (faults.new ≡ faults.old) }
    ensures cause { HasCause faults.old faults.new result }
{
    if outcome.is_ok() {
        return Ok(());
    }
    *faults = faults.saturating_add(1);
    Err(Fault)
}

impl<S: Start> Disk for FileDisk<S> {
    ghost use Rattle.std.specs.Prelude.{◌≡◌, OnOk, IsErr, true, false};
    ghost use Rattle.zst_outside.specs.Causes.{HasCause, next_count};
    ghost use Rattle.zst_outside.specs.Images.{Leaves, IsSynced, OnlyReads};
    ghost use Rattle.zst_file.specs.FileDisk.{history_of, state_of};
    ghost use Rattle.zst_file.specs.FileHistory.{fitted};
    ghost use Rattle.zst_file.specs.Laws.{length_seen, rests, size_left, since_now, now_only};

    ghost tells_images = { true };

    ghost state = { state_of S.Start };

    ghost seen_size = { λ d. length_seen d.bytes S.Start.held d.host.log.events };

    ghost image_size = { λ d c image. size_left d.bytes S.Start.held S.Start.left d.host.log.events c image };

    ghost reads_as_image = { λ d told. rests (fitted d.bytes S.Start.held) S.Start.left d.host.log.events };

    ghost counts_now = { λ d t c le now. since_now (fitted d.bytes S.Start.held) S.Start.left d.host.log.events t c le now };

    ghost only_now = { λ d c left. now_only (fitted d.bytes S.Start.held) S.Start.left d.host.log.events c left };

    fn bytes(&self) -> u64 {
        self.bytes
    }

    fn calls(&self) -> u64 {
        self.calls
    }

    fn faults(&self) -> u64 {
        self.faults
    }

    fn read(&mut self, place: u64, into: &mut [u8]) -> Result<(), Fault> {
        self.calls = self.calls.saturating_add(1);
        judge(self.host.read(place, into), &mut self.faults)
    }

    fn write_at(&mut self, place: u64, from: &[u8]) -> Result<(), Fault> {
        self.calls = self.calls.saturating_add(1);
        judge(self.host.write(place, from), &mut self.faults)
    }

    fn sync(&mut self) -> Result<(), Fault>
        ensures durable { OnOk result (IsSynced (state_of S.Start self.new)) }
        ensures reads { OnlyReads (state_of S.Start self.old) (state_of S.Start self.new) }
        ensures time { Leaves (state_of S.Start self.old) (state_of S.Start self.new) (state_of S.Start self.new).images }
        ensures calls { (state_of S.Start self.new).calls ≡ next_count (state_of S.Start self.old).calls }
        ensures count_stays { OnOk result ((state_of S.Start self.new).faults ≡ (state_of S.Start self.old).faults) }
        ensures cause { HasCause (state_of S.Start self.old).faults (state_of S.Start self.new).faults result }

        // Once a sync has failed, each later one does: the kernel may have dropped what was written.
        ensures refuses { is_usable (history_of self.old) ≡ false → IsErr result }
    {
        self.calls = self.calls.saturating_add(1);
        if !self.usable {
            self.faults = self.faults.saturating_add(1);
            return Err(Fault);
        }
        let answer = self.host.sync();
        self.usable = answer.is_ok();
        judge(answer, &mut self.faults)
    }
}

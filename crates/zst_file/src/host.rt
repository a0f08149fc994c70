//! The calls of the system. Each method makes one, and then notes it with its answer.
ghost use Rattle.std.specs.Prelude.{◌≡◌, ◌∷◌, [], is_ok};
ghost use Rattle.zst_file.specs.Event.{read, wrote, synced};

use crate::record::Record;
use std::fs::File;
use std::io::{self, Seek, SeekFrom};
use std::os::unix::fs::FileExt;

/// How many bytes a file has, or a block device: where its end is.
pub fn length_of(file: &mut File) -> io::Result<u64> {
    file.seek(SeekFrom::End(0))
}

/// An open file and the calls on it.
#[derive(Drop)]
pub(crate) struct Host {
    file: File,
    log: Record,
}

impl Host {
    pub(crate) fn new(file: File) -> Host
        ensures { result.log.events ≡ [] }
    {
        Host {
            file,
            log: Record::new(),
        }
    }

    // std tries an interrupted call again, and goes on after a short one.
    pub(crate) fn read(&mut self, place: u64, into: &mut [u8]) -> io::Result<()>
        ensures { self.new.log.events ≡ read place (is_ok result) into.new ∷ self.old.log.events }
    {
        let answer = self.file.read_exact_at(into, place);
        self.log.read(place, answer.is_ok(), into);
        answer
    }

    pub(crate) fn write(&mut self, place: u64, from: &[u8]) -> io::Result<()>
        ensures { self.new.log.events ≡ wrote place (is_ok result) from.now ∷ self.old.log.events }
    {
        let answer = self.file.write_all_at(from, place);
        self.log.wrote(place, answer.is_ok(), from);
        answer
    }

    pub(crate) fn sync(&mut self) -> io::Result<()>
        ensures { self.new.log.events ≡ synced (is_ok result) ∷ self.old.log.events }
    {
        let answer = self.file.sync_data();
        self.log.synced(answer.is_ok());
        answer
    }
}

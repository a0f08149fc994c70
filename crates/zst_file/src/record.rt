//! A list of calls that only clauses read.
ghost use Rattle.std.specs.Prelude.{◌≡◌, List, [], ◌∷◌};
ghost use Rattle.std.specs.Borrow.{ftrue};
ghost use Rattle.zst_file.specs.Event.{Event, read, wrote, synced, gave, took};
ghost use Rattle.zst_file.specs.Note.{event_of};

use std::marker::{Model, PhantomData};

// The kinds of events, as a note spells them.
const READ: u64 = 0;

const WROTE: u64 = 1;

const SYNCED: u64 = 2;

const GAVE: u64 = 3;

const TOOK: u64 = 4;

/// The calls so far with their answers, the newest first. They cost nothing: no memory holds them.
#[derive(Drop)]
pub(crate) struct Record {
    marker: PhantomData<u8>,
    pub ghost events: { List Event },
}

impl Model for Record {
    ghost also_owns = { λ _. ftrue };
}

impl Record {
    pub(crate) fn new() -> Record
        ensures { result.events ≡ [] }
    {
        Record {
            marker: PhantomData,
        }
    }

    pub(crate) fn read(&mut self, place: u64, done: bool, bytes: &[u8])
        ensures { self.new.events ≡ read place done bytes.now ∷ self.old.events }
    {
        self.note(&[READ, place, u64::from(done)], bytes);
    }

    pub(crate) fn wrote(&mut self, place: u64, done: bool, bytes: &[u8])
        ensures { self.new.events ≡ wrote place done bytes.now ∷ self.old.events }
    {
        self.note(&[WROTE, place, u64::from(done)], bytes);
    }

    pub(crate) fn synced(&mut self, done: bool)
        ensures { self.new.events ≡ synced done ∷ self.old.events }
    {
        self.note(&[SYNCED, 0, u64::from(done)], &[]);
    }

    pub(crate) fn gave(&mut self, room: u64, bytes: &[u8])
        ensures { self.new.events ≡ gave room bytes.now ∷ self.old.events }
    {
        self.note(&[GAVE, room, 1], bytes);
    }

    pub(crate) fn took(&mut self, bytes: &[u8])
        ensures { self.new.events ≡ took bytes.now ∷ self.old.events }
    {
        self.note(&[TOOK, 0, 1], bytes);
    }

    // Its proof is by hand, since it changes what no memory holds.
    fn note(&mut self, _numbers: &[u64], _bytes: &[u8])
        ensures { self.new.events ≡ event_of _numbers.now _bytes.now ∷ self.old.events }
    {}
}

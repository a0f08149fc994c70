use zst_record::{Head, RECORD_LEN};

/// How many records of each type there are, the bytes of their payloads, and the bytes of the stream.
#[derive(Clone, Copy, Debug, PartialEq, Eq)]
pub struct Counts {
    pub begin: u64,
    pub object: u64,
    pub freeobjects: u64,
    pub write: u64,
    pub free: u64,
    pub end: u64,
    pub spill: u64,
    pub redact: u64,
    pub payload: u64,
    pub stream: u64,
}

impl Counts {
    ghost use Rattle.std.specs.Prelude.{◌≡◌, ◌<◌, ◌^◌, ◌++◌, [], ◌∷◌, List};
    ghost use Rattle.zst_record.specs.Heads.{Covered};
    ghost use Rattle.zst_dump.specs.Summary.{counts_of, records_of, HasRoom};

    /// The counts of no records.
    pub fn new() -> Counts
        ensures { result ≡ counts_of [] }
    {
        Counts {
            begin: 0,
            object: 0,
            freeobjects: 0,
            write: 0,
            free: 0,
            end: 0,
            spill: 0,
            redact: 0,
            payload: 0,
            stream: 0,
        }
    }

    /// Counts a record more.
    pub fn add(&mut self, head: &Head)
        requires { HasRoom self.old head.now }
        ensures { (cs : List Covered) (c : Covered) → self.old ≡ counts_of cs → c.head ≡ head.now → self.new ≡ counts_of (cs ++ c ∷ []) }
    {
        match head {
            Head::Begin { .. } => self.begin += 1,
            Head::Object { .. } => self.object += 1,
            Head::FreeObjects { .. } => self.freeobjects += 1,
            Head::Write { .. } => self.write += 1,
            Head::Free { .. } => self.free += 1,
            Head::End { .. } => self.end += 1,
            Head::Spill { .. } => self.spill += 1,
            Head::Redact { .. } => self.redact += 1,
        }
        self.payload += head.payload_len();
        self.stream += RECORD_LEN as u64 + head.payload_len();
    }

    /// The count of all records.
    pub fn records(&self) -> u64
        requires { records_of self.now < 2 ^ 64 }
        ensures { result ≡ records_of self.now }
    {
        self.begin
            + self.object
            + self.freeobjects
            + self.write
            + self.free
            + self.end
            + self.spill
            + self.redact
    }
}

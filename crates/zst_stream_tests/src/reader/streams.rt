// Streams of the tests' own.
use crate::fields::{Field, GUID, set_all};
use std::alloc::Global;
use std::process::Abort;
use std::test::Fail;
use zst_fletcher::Sum;
use zst_record::{Head, RECORD_LEN, SUMMED_LEN, encode, put_sums};

/// A stream as far as it was built, and its sum.
#[derive(Drop)]
pub(super) struct Stream {
    pub bytes: Vec<u8>,
    sum: Sum,
}

impl Stream {
    fn new(alloc: Global) -> Stream {
        Stream {
            bytes: Vec::new(alloc),
            sum: Sum::zero(),
        }
    }

    /// BEGIN of the smallest stream.
    pub(super) fn begin(rt: &impl Abort, alloc: Global) -> Result<Stream, Fail> {
        Stream::begin_with(rt, alloc, PLAIN, &[])
    }

    /// The same with this `drr_versioninfo` and a payload.
    pub(super) fn begin_with(
        rt: &impl Abort,
        alloc: Global,
        version: u64,
        payload: &[u8],
    ) -> Result<Stream, Fail> {
        Stream::begin_from(rt, alloc, version, 0, payload)
    }

    /// The same from this guid.
    pub(super) fn begin_from(
        rt: &impl Abort,
        alloc: Global,
        version: u64,
        from: u64,
        payload: &[u8],
    ) -> Result<Stream, Fail> {
        let mut smallest = smallest_stream(rt);
        let fields = [
            (4, 4, payload.len() as u64),
            (16, 8, version),
            (48, 8, from),
        ];
        set_all(rt, &mut smallest, &fields);
        let (begin, _) = smallest.split_at(RECORD_LEN);
        let mut stream = Stream::new(alloc);
        stream.add(rt, begin)?;
        stream.add(rt, payload)?;
        Ok(stream)
    }

    fn add(&mut self, rt: &impl Abort, bytes: &[u8]) -> Result<(), Fail> {
        assert!(rt; bytes.len() % 4 == 0);
        self.sum.add(bytes);
        self.bytes.extend_from_slice(bytes)?;
        Ok(())
    }

    /// A record with its sum, and its payload of whole words.
    fn put(&mut self, rt: &impl Abort, head: &Head, payload: &[u8]) -> Result<(), Fail> {
        let mut record = [0; RECORD_LEN];
        encode(head, &mut record);
        self.seal(rt, record)?;
        self.add(rt, payload)
    }

    /// A record of these fields with its sum, whatever they say.
    pub(super) fn put_fields(&mut self, rt: &impl Abort, fields: &[Field]) -> Result<(), Fail> {
        let mut record = [0; RECORD_LEN];
        set_all(rt, &mut record, fields);
        self.seal(rt, record)
    }

    fn seal(&mut self, rt: &impl Abort, bytes: [u8; RECORD_LEN]) -> Result<(), Fail> {
        let mut record = bytes;
        let (front, _) = record.split_at(SUMMED_LEN);
        self.add(rt, front)?;
        put_sums(&mut record, SUMMED_LEN, &self.sum.parts());
        let (_, stated) = record.split_at(SUMMED_LEN);
        self.add(rt, stated)
    }

    /// A block of object 1.
    pub(super) fn write(
        &mut self,
        rt: &impl Abort,
        offset: u64,
        payload: &[u8],
    ) -> Result<(), Fail> {
        let head = Head::Write {
            object: 1,
            type_: 19,
            offset,
            length: payload.len() as u64,
            to: GUID,
        };
        self.put(rt, &head, payload)
    }

    /// A hole of object 1.
    pub(super) fn free(&mut self, rt: &impl Abort, offset: u64) -> Result<(), Fail> {
        let head = Head::Free {
            object: 1,
            offset,
            length: 512,
            to: GUID,
        };
        self.put(rt, &head, &[])
    }

    /// A block of object 1 that is redacted.
    pub(super) fn redact(&mut self, rt: &impl Abort, offset: u64) -> Result<(), Fail> {
        let head = Head::Redact {
            object: 1,
            offset,
            length: 512,
            to: GUID,
        };
        self.put(rt, &head, &[])
    }

    /// END, which states the sum of all before it.
    pub(super) fn end(&mut self, rt: &impl Abort) -> Result<(), Fail> {
        self.end_to(rt, GUID)
    }

    /// The same with this guid.
    pub(super) fn end_to(&mut self, rt: &impl Abort, to: u64) -> Result<(), Fail> {
        let head = Head::End {
            sums: self.sum.parts(),
            to,
        };
        self.put(rt, &head, &[])
    }
}

/// `drr_versioninfo` of the smallest stream. The features stand above its lowest two bits.
pub(super) const PLAIN: u64 = 17;

/// That of a resumed stream: RESUMING is bit 20 of the features.
pub(super) const RESUMED: u64 = PLAIN + (1 << 22);

/// That of a redacted one: REDACTED is bit 21.
pub(super) const REDACTED: u64 = PLAIN + (1 << 23);

/// The smallest stream: BEGIN of `t/a@s` and END, with the sums that a sender of OpenZFS states.
pub(super) fn smallest_stream(rt: &impl Abort) -> [u8; 624] {
    let fields = [
        (8, 8, 0x2_F5ba_cbac),
        (16, 8, PLAIN),
        (24, 8, 1_700_000_000),
        (32, 4, 2),
        (36, 4, 12),
        (40, 8, GUID),
        (56, 5, 0x73_4061_2f74),
        (312, 4, 5),
        (320, 8, 6_902_770_870),
        (328, 8, 504_849_252_908),
        (336, 8, 18_777_133_574_465),
        (344, 8, 473_262_148_586_970),
        (352, 8, GUID),
        (592, 8, 19_677_500_080),
        (600, 8, 1_812_738_505_247),
        (608, 8, 98_333_701_267_116),
        (616, 8, 4_055_694_265_642_928),
    ];
    let mut stream = [0; 624];
    set_all(rt, &mut stream, &fields);
    stream
}

/// A block whose bytes are all the same.
fn block_of(alloc: Global, byte: u8, len: usize) -> Result<Vec<u8>, Fail> {
    Ok(vec![in alloc; byte; len]?)
}

/// Nine blocks of 131,072 bytes.
pub(super) fn long_stream(rt: &impl Abort, alloc: Global) -> Result<Stream, Fail> {
    let mut stream = Stream::begin(rt, alloc)?;
    for number in 0..9u8 {
        let block = block_of(alloc, number, 131_072)?;
        stream.write(rt, 131_072 * u64::from(number), &block)?;
    }
    stream.end(rt)?;
    Ok(stream)
}

// A stream that the writer writes.
ghost use Rattle.std.specs.Prelude.{◌≡◌, ◌+◌, ◌*◌, ◌/◌};
ghost use Rattle.zst_record.specs.Heads.{payload_len};

use std::alloc::{AllocError, Global};
use zst_model::{GuidSet, Header, NameText};
use zst_record::Head;
use zst_writer::Writer;

const GUID: u64 = 0x2_0000_0007;

#[derive(Drop)]
struct Stream {
    writer: Writer,
    bytes: Vec<u8>,
}

impl Stream {
    ghost use Rattle.std.specs.Prelude.{◌≡◌, ◌%◌, length};
    ghost use Rattle.zst_record.specs.Heads.{payload_len};

    fn put(&mut self, head: Head, payload: &[u8]) -> Result<(), AllocError>
        requires len { length payload.now ≡ payload_len head }
        requires words { length payload.now % 4 ≡ 0 }
    {
        let mut record = [0; 312];
        self.writer.put(&head, payload, &mut record);
        self.bytes.extend_from_slice(&record)?;
        self.bytes.extend_from_slice(payload)
    }

    fn free(&mut self, object: u64, offset: u64, length: u64) -> Result<(), AllocError> {
        let free = Head::Free {
            object,
            offset,
            length,
            to: GUID,
        };
        self.put(free, &[])
    }

    fn free_objects(&mut self, first: u64, count: u64) -> Result<(), AllocError> {
        let free = Head::FreeObjects {
            first,
            count,
            to: GUID,
        };
        self.put(free, &[])
    }
}

fn begin() -> Head
    ensures { payload_len result ≡ 0 }
{
    Head::Begin {
        header: Header {
            kind: 2,
            flags: 12,
            features: 4,
            time: 1_700_000_001,
            to: GUID,
            from: 0,
            name: NameText::new(b"tank/home@a"),
            resume: None,
            redact: GuidSet::empty(),
            from_redact: GuidSet::empty(),
        },
        payload_len: 0,
    }
}

fn object(
    object: u64,
    type_: u32,
    bonus_type: u32,
    block_size: u32,
    bonus_len: u32,
    max_block: u64,
) -> Head
    ensures { payload_len result ≡ (bonus_len + 7) / 8 * 8 }
{
    Head::Object {
        object,
        type_,
        bonus_type,
        block_size,
        bonus_len,
        max_block,
        to: GUID,
    }
}

fn write(object: u64, type_: u32, offset: u64, length: u64) -> Head
    ensures { payload_len result ≡ length }
{
    Head::Write {
        object,
        type_,
        offset,
        length,
        to: GUID,
    }
}

// Puts object 1, a directory of one block.
fn put_directory(stream: &mut Stream) -> Result<(), AllocError> {
    stream.free_objects(0, 1)?;
    stream.put(object(1, 21, 0, 1024, 0, 0), &[])?;
    stream.free(1, 1024, u64::MAX)?;
    stream.put(write(1, 21, 0, 1024), &[7; 1024])?;
    stream.free(1, 1024, 2048)
}

// Puts object 2, a file of a large block, with a bonus of 164 bytes.
fn put_file(stream: &mut Stream) -> Result<(), AllocError> {
    let mut bonus = [3; 168];
    bonus[164..].copy_from_slice(&[0; 4]);
    stream.put(object(2, 19, 44, 131_072, 164, 1), &bonus)?;
    stream.free(2, 262_144, u64::MAX)?;
    stream.put(write(2, 19, 0, 131_072), &[9; 131_072])?;
    stream.free(2, 131_072, 131_072)?;
    stream.free_objects(3, 281_474_976_710_653)
}

// The end, whose sums the writer states.
fn end() -> Head
    ensures { payload_len result ≡ 0 }
{
    Head::End {
        sums: [0; 4],
        to: GUID,
    }
}

pub(super) fn written(alloc: Global) -> Result<Vec<u8>, AllocError> {
    let mut stream = Stream {
        writer: Writer::new(),
        bytes: Vec::new(alloc),
    };
    stream.put(begin(), &[])?;
    put_directory(&mut stream)?;
    put_file(&mut stream)?;
    stream.put(end(), &[])?;
    let Stream { writer: _, bytes } = stream;
    Ok(bytes)
}

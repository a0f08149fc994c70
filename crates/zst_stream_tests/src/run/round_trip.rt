// A stream that the writer wrote is dumped as it was written. The texts and the sums come from a script of their own.
use super::items::written;
use std::test::Fail;
use zst_outside::{MemSink, MemSource, SureDisk};
use zst_run::run;

pub(super) const TEXT: &str =
    "0 BEGIN features 4 kind 2 flags 12 time 1700000001 toguid 0000000200000007 fromguid 0000000000000000 payload 0 name tank/home@a\n\
312 FREEOBJECTS first 0 count 1\n\
624 OBJECT object 1 type 21 bonustype 0 size 1024 bonus 0\n\
936 FREE object 1 offset 1024 length to-end\n\
1248 WRITE object 1 type 21 offset 0 length 1024\n\
2584 FREE object 1 offset 1024 length 2048\n\
2896 OBJECT object 2 type 19 bonustype 44 size 131072 bonus 164\n\
3376 FREE object 2 offset 262144 length to-end\n\
3688 WRITE object 2 type 19 offset 0 length 131072\n\
135072 FREE object 2 offset 131072 length 131072\n\
135384 FREEOBJECTS first 3 count 281474976710653\n\
135696 END sums 5108989730050 86140561776682288 8995931838935771880 17458123570070442713\n\
counts begin 1 object 2 freeobjects 2 write 2 free 4 end 1 spill 0 redact 0\n\
records 12 payload 132264 stream 136008\n";

#[test]
fn ten_items_that_were_written_are_dumped(rt: HostRuntime) -> Result<(), Fail> {
    let alloc = rt.alloc();
    let words = vec![in alloc; String::from_str(alloc, "dump")?]?;
    let mut input = MemSource::new(written(alloc)?, Vec::new(alloc));
    let mut out = MemSink::new(Vec::new(alloc));
    let mut note = MemSink::new(Vec::new(alloc));
    let mut here = SureDisk::new(Vec::new(alloc));
    let mut there = SureDisk::new(Vec::new(alloc));
    let status = run(
        alloc, &words, 0, &mut here, &mut there, &mut input, &mut out, &mut note,
    );
    assert_eq!(rt; out.bytes(), TEXT.as_bytes());
    assert_eq!(rt; status, 0);
    assert_eq!(rt; note.bytes(), b"".as_slice());
    Ok(())
}

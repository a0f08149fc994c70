mod ends;

use crate::file::ends::{DripReader, NarrowWriter, Script};
use std::alloc::Global;
use std::fs;
use std::fs::File;
use std::process::Abort;
use std::test::Fail;
use zst_file::{FileDisk, Input, Output, UnknownStart, length_of};
use zst_outside::{Disk, Fault, Sink, Source, write_all};

// Writes a block into the middle of a disk of zeros, and reads it with the bytes around it.
fn check_block<D: Disk>(rt: &impl Abort, disk: &mut D) {
    assert!(rt; disk.bytes() == 4096);
    assert_eq!(rt; disk.write_at(1000, b"block"), Ok(()));
    assert_eq!(rt; disk.sync(), Ok(()));
    let mut read = [0; 7];
    assert_eq!(rt; disk.read(999, &mut read), Ok(()));
    assert_eq!(rt; read, *b"\0block\0");
}

// Checks how many calls a disk had, and how many of them were faults.
fn check_counts<D: Disk>(rt: &impl Abort, disk: &D, calls: u64, faults: u64) {
    assert_eq!(rt; (disk.calls(), disk.faults()), (calls, faults));
}

// Checks that a disk of 4,096 bytes has the block.
fn check_kept<D: Disk>(rt: &impl Abort, disk: &mut D) {
    assert!(rt; disk.bytes() == 4096);
    let mut read = [0; 5];
    assert_eq!(rt; disk.read(1000, &mut read), Ok(()));
    assert_eq!(rt; read, *b"block");
}

// A file as a disk.
fn disk_of(mut file: File) -> Result<FileDisk<UnknownStart>, Fail> {
    let bytes = length_of(&mut file)?;
    Ok(FileDisk::new(file, bytes, UnknownStart))
}

// A new file of 4,096 zeros as a disk.
fn made(rt: &HostRuntime) -> Result<FileDisk<UnknownStart>, Fail> {
    fs::write(rt, "disk", [0; 4096].as_slice())?;
    let file = File::options().read(true).write(true).open(rt, "disk")?;
    disk_of(file)
}

// A file as a disk that is only read.
fn opened(rt: &HostRuntime, path: &str) -> Result<FileDisk<UnknownStart>, Fail> {
    disk_of(File::open(rt, path)?)
}

#[test]
fn a_file_keeps_what_is_written_into_it(rt: HostRuntime) -> Result<(), Fail> {
    let mut disk = made(&rt)?;
    check_block(&rt, &mut disk);
    check_counts(&rt, &disk, 3, 0);
    drop(disk);
    assert_eq!(rt; fs::metadata(&rt, "disk")?.len(), 4096);
    check_kept(&rt, &mut opened(&rt, "disk")?);
    Ok(())
}

// Checks a disk of 1,024 bytes whose file was cut to 512 behind its back, and isn't open for writing.
fn check_cut<D: Disk>(rt: &impl Abort, disk: &mut D) {
    assert!(rt; disk.bytes() == 1024);
    assert_eq!(rt; disk.read(500, &mut [0; 100]), Err(Fault));
    assert_eq!(rt; disk.write_at(0, b"x"), Err(Fault));
    assert_eq!(rt; disk.read(500, &mut [0; 12]), Ok(()));
}

#[test]
fn each_refusal_of_the_system_is_a_fault(rt: HostRuntime) -> Result<(), Fail> {
    fs::write(&rt, "short", [7; 1024].as_slice())?;
    let mut disk = opened(&rt, "short")?;
    fs::write(&rt, "short", [7; 512].as_slice())?;
    check_cut(&rt, &mut disk);
    check_counts(&rt, &disk, 3, 2);
    Ok(())
}

// The system syncs no such file.
#[test]
fn a_sync_that_fails_is_a_fault(rt: HostRuntime) -> Result<(), Fail> {
    let mut disk = opened(&rt, "/dev/null")?;
    assert_eq!(rt; disk.sync(), Err(Fault));
    assert_eq!(rt; disk.sync(), Err(Fault));
    check_counts(&rt, &disk, 2, 2);
    Ok(())
}

// Checks what the next read of eight bytes gives.
fn check_given<S: Source>(rt: &impl Abort, input: &mut S, want: &[u8]) {
    let mut into = [0; 8];
    match input.read(&mut into) {
        Ok(count) => assert!(rt; &into[..count] == want, "{want:?}"),
        Err(Fault) => panic!(rt; "a fault in place of {want:?}"),
    }
}

#[test]
fn input_gives_all_in_spite_of_a_fault(rt: HostRuntime) {
    let reader = DripReader {
        left: b"abcde",
        script: Script { calls: 0, fails: 5 },
    };
    let mut input = Input::new(reader);
    check_given(&rt, &mut input, b"ab");
    check_given(&rt, &mut input, b"cd");
    assert_eq!(rt; input.read(&mut [0; 8]), Err(Fault));
    check_given(&rt, &mut input, b"e");
    check_given(&rt, &mut input, b"");
    assert_eq!(rt; input.faults(), 1);
}

#[test]
fn output_hands_on_once_it_is_flushed(rt: HostRuntime) -> Result<(), Fail> {
    for (flushes, want) in [(false, b"".as_slice()), (true, b"text".as_slice())] {
        let mut got = Vec::new(rt.alloc());
        let script = Script { calls: 0, fails: 0 };
        let mut out = Output::new(
            rt.alloc(),
            NarrowWriter {
                got: &mut got,
                script,
            },
        )?;
        assert_eq!(rt; write_all(&mut out, b"text"), Ok(()));
        if flushes {
            assert_eq!(rt; out.flush(), Ok(()));
        }
        drop(out);
        assert_eq!(rt; got.as_slice(), want);
    }
    Ok(())
}

// Writes all of a text in at most ten calls, going on behind a fault, and flushes it, again where that fails.
fn write_through<S: Sink>(rt: &impl Abort, out: &mut S, text: &[u8], fails: u64) {
    let mut rest = text;
    for _ in 0..10 {
        if let Ok(count) = out.write(rest) {
            rest = &rest[count..];
        }
    }
    assert!(rt; rest.is_empty(), "at {fails}");
    let first = out.flush();
    assert!(rt; first.is_ok() || out.flush().is_ok(), "at {fails}");
}

// What a writer got of a text of which the call of this number failed.
fn got_of(rt: &impl Abort, alloc: Global, text: &[u8], fails: u64) -> Result<Vec<u8>, Fail> {
    let mut got = Vec::new(alloc);
    let script = Script { calls: 0, fails };
    let mut out = Output::new(
        alloc,
        NarrowWriter {
            got: &mut got,
            script,
        },
    )?;
    write_through(rt, &mut out, text, fails);
    drop(out);
    Ok(got)
}

#[test]
fn output_loses_and_repeats_no_byte_at_a_fault(rt: HostRuntime) -> Result<(), Fail> {
    let mut text = vec![in rt.alloc(); 7; 150000]?;
    text.extend_from_slice(b"end")?;
    for fails in 0..12 {
        let got = got_of(&rt, rt.alloc(), &text, fails)?;
        assert!(rt; got == text, "at {fails}");
    }
    Ok(())
}

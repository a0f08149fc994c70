// Readers, and what they hand out.
use crate::piece_size;
use std::alloc::Global;
use std::process::Abort;
use zst_model::StreamFault;
use zst_reader::{Reader, Step};

pub(super) fn open_reader(rt: &impl Abort, alloc: Global) -> Reader {
    Reader::open(alloc).expect(rt, "memory for the buffer")
}

pub(super) fn push_all(rt: &impl Abort, reader: &mut Reader, piece: &[u8]) {
    assert!(rt; piece.len() <= 1_000 && reader.pushed() <= 1_000);
    assert!(rt; reader.push(piece) == piece.len());
}

/// How many records it hands out before it wants more or has ended.
pub(super) fn hand_out_all(reader: &mut Reader) -> Result<u64, StreamFault> {
    for turn in 0..4 {
        match reader.next() {
            Ok(Step::Record(_)) => {}
            Ok(_) => return Ok(turn),
            Err(fault) => return Err(fault),
        }
    }
    Ok(4)
}

/// How many records the stream is in pieces whose sizes follow from the seed, from 1 to 320 bytes.
pub(super) fn records_in_uneven_pieces(
    rt: &impl Abort,
    alloc: Global,
    stream: &[u8],
    seed: u64,
) -> u64 {
    let mut reader = open_reader(rt, alloc);
    let mut records = 0u64;
    let mut rest = stream;
    let mut state = seed;
    for _ in 0..624 {
        state = state
            .wrapping_mul(6_364_136_223_846_793_005)
            .wrapping_add(1);
        let count = piece_size(state, rest.len());
        let (piece, left) = rest.split_at(count);
        rest = left;
        push_all(rt, &mut reader, piece);
        match hand_out_all(&mut reader) {
            Ok(count) => records = records.saturating_add(count),
            Err(_) => assert!(rt; false, "a fault from the seed {seed}"),
        }
    }
    assert!(rt; reader.finish() == Ok(()), "the seed {seed}");
    records
}

mod faulty_records;
mod input_reads;
mod inputs;
mod payloads;
mod readers;
mod redacted_streams;
mod refusals;
mod resumed_streams;
mod streams;

use crate::reader::readers::records_in_uneven_pieces;
use crate::reader::streams::smallest_stream;

#[test]
fn a_stream_in_pieces_of_uneven_sizes_is_two_records(rt: HostRuntime) {
    let stream = smallest_stream(&rt);
    for seed in 1..100 {
        assert!(rt;
            records_in_uneven_pieces(&rt, rt.alloc(), &stream, seed) == 2,
            "the seed {seed}"
        );
    }
}

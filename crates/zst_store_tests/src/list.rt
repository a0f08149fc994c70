use std::test::Fail;
use zst_list::{decode_list, encode_list};
use zst_model::Run;

#[test]
fn a_full_leaf_ends_with_zeros(rt: HostRuntime) -> Result<(), Fail> {
    let mut runs = Vec::new(rt.alloc());
    for place in 0..342 {
        runs.push(Run {
            object: 1,
            first: 2 * place,
            count: 1,
        })?;
    }
    let bytes = encode_list(rt.alloc(), &runs)?;
    assert_eq!(rt; bytes.len(), 8192 + 24);
    assert!(rt;
        bytes[..24]
            == [
                1, 0, 0, 0, 0, 0, 0, 0, 0, 0, 0, 0, 0, 0, 0, 0, 1, 0, 0, 0, 0, 0, 0, 0
            ]
    );
    assert!(rt; bytes[8184..8193] == [0, 0, 0, 0, 0, 0, 0, 0, 1]);
    let list = decode_list(rt.alloc(), &bytes, 342)?.ok_or("refused")?;
    assert!(rt; list.runs() == runs.as_slice());
    assert!(rt; decode_list(rt.alloc(), &bytes, 341)?.is_none());
    Ok(())
}

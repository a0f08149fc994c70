use std::alloc::AllocError;
use zst_space::{Extent, Space, SpaceFault};

#[test]
fn sectors_are_taken_from_the_first_extent_that_is_long_enough(
    rt: HostRuntime,
) -> Result<(), AllocError> {
    let low = Extent { first: 8, count: 3 };
    let high = Extent {
        first: 20,
        count: 6,
    };
    let mut space = Space::new(30, 32, vec![in rt.alloc(); low, high]?);
    assert_eq!(rt; space.largest(), 6);
    assert_eq!(rt; space.take(4), Ok(20));
    assert_eq!(rt; space.take(2), Ok(8));
    assert_eq!(rt;
        space.take(5),
        Err(SpaceFault {
            need: 5,
            largest: 2
        })
    );
    assert_eq!(rt; space.take(2), Ok(24));
    assert_eq!(rt; space.take(1), Ok(10));
    assert_eq!(rt; space.take(2), Ok(30));
    Ok(())
}

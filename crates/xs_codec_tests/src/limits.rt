// Sizes at the limits.
use std::test::Fail;
use xs_params::{Format, Planes, Shape};

// The most samples: three components of 2^24.
#[test]
fn the_largest_picture(rt: HostRuntime) -> Result<(), Fail> {
    let shape = Shape {
        width: 8192,
        height: 2048,
        format: Format::C444,
        depth: 12,
    };
    let planes = Planes::blank(rt.alloc(), shape)?;
    assert!(rt; planes.get(2, 2047, 8191) == 0);
    Ok(())
}

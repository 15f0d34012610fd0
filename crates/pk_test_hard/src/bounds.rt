//! How much work a command makes at most, and how much remains after it, next to the bounds of
//! both.

use pk_base::Shape;
use pk_test_program::pink::Pink;
use std::test::*;

// The smallest drives, with the bounds of each.
#[test]
fn most_work(rt: HostRuntime) -> Result<(), Fail> {
    for (make, page_bytes, block_pages, blocks, calls, steps) in [
        (
            ["make", "512", "8", "33"],
            512u32,
            8u32,
            33u32,
            1072u32,
            4354u32,
        ),
        (["make", "512", "16", "22"], 512, 16, 22, 1136, 4588),
        (["make", "1024", "8", "32"], 1024, 8, 32, 1016, 4128),
    ] {
        let shape = Shape::new(page_bytes, block_pages, blocks)
            .ok()
            .ok_or("a shape")?;
        let most = pk_test_stress::bounds::most_work::<Pink>(rt.alloc(), &make, shape)?;
        println!(rt;
            "{page_bytes} {block_pages} {blocks}: greatest {} of {calls}, steps {} of {steps}",
            most.calls, most.steps
        )?;
        assert_eq!(rt; (most.calls_bound, most.steps_bound), (calls, steps));
    }
    Ok(())
}

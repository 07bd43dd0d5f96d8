//! Helper functions that the tests of this crate share.
use linked_list_allocator::LocalHeap;
use qolb_run::ReplayError;
use std::alloc::Global;
use std::fmt::Debug;
use std::process::Abort;
use std::test::Fail;

/// Asserts that `found` is `wanted`; a failure prints `row`.
pub(crate) fn expect<R: Abort, T: PartialEq + Debug + Drop>(
    rt: &R,
    row: &str,
    found: T,
    wanted: T,
) {
    assert_eq!(rt; found, wanted, "{row}");
}

/// Asserts that `found` is `wanted`; a failure prints `at`.
pub(crate) fn expect_at<R: Abort, D: Debug, T: PartialEq + Debug + Drop>(
    rt: &R,
    at: &D,
    found: T,
    wanted: T,
) {
    assert_eq!(rt; found, wanted, "{at:?}");
}

/// Draws on heaps that grow by 32 bytes. The drawing runs out of memory more than five times, until a heap is large
/// enough; each larger heap is large enough, too. Nothing stays allocated on a heap.
///
/// `draw` returns `true` if the drawing is the whole picture.
pub(crate) fn expect_refusals<R: Abort, F: Fn(&LocalHeap) -> Result<bool, ReplayError>>(
    rt: &R,
    alloc: Global,
    draw: F,
) -> Result<(), Fail>
    requires { F.IsAlwaysCallable draw }
{
    let mut refused = 0u32;
    let mut served = false;
    for step in 1..1600usize {
        let heap = LocalHeap::new(alloc, 32 * step)?;
        let found = draw(&heap);
        served = served || found.is_ok();
        let wanted = if served {
            Ok(true)
        } else {
            refused = refused.saturating_add(1);
            Err(ReplayError::Memory)
        };
        expect_at(rt, &step, (found, heap.used()), (wanted, 0));
    }
    let ends = (served, refused > 5);
    expect(
        rt,
        "served in the end, refused often enough",
        ends,
        (true, true),
    );
    Ok(())
}

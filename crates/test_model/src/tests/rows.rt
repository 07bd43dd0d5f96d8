//! Helper functions that the tests of this crate share.
use line_lanes::Line64;
use linked_list_allocator::LocalHeap;
use qolb_script::ScriptError;
use std::alloc::Global;
use std::fmt::Debug;
use std::process::Abort;
use std::test::Fail;

/// Asserts that `found` equals `wanted`. If it does not, the test prints `row`.
pub(crate) fn expect<R: Abort, T: PartialEq + Debug + Drop>(
    rt: &R,
    row: &str,
    found: T,
    wanted: T,
) {
    assert_eq!(rt; found, wanted, "{row}");
}

/// Asserts that `found` equals `wanted`. If it does not, the test prints `at`.
pub(crate) fn expect_at<R: Abort, D: Debug, T: PartialEq + Debug + Drop>(
    rt: &R,
    at: &D,
    found: T,
    wanted: T,
) {
    assert_eq!(rt; found, wanted, "at {at:?}");
}

/// Returns the line with one byte replaced.
fn with_byte(line: &Line64, place: usize, byte: u8) -> Line64 {
    let mut bytes = line.to_bytes();
    if place < 64 {
        bytes[place] = byte;
    }
    Line64::from_bytes(bytes)
}

/// Bytes, each with its place in a line.
pub(crate) type Bytes = &'static [(usize, u8)];

/// Returns the line with these bytes replaced.
pub(crate) fn with_bytes(line: &Line64, bytes: &[(usize, u8)]) -> Line64 {
    let mut line = *line;
    for (place, byte) in bytes.iter().copied() {
        line = with_byte(&line, place, byte);
    }
    line
}

/// Returns a line of zeros, except for these bytes.
pub(crate) fn line_with(bytes: &[(usize, u8)]) -> Line64 {
    with_bytes(&Line64::zero(), bytes)
}

/// A line in which every byte is 7. The next constant is a line in which every byte is 255.
pub(crate) static SEVENS: Line64 = Line64 { bytes: [7; 64] };

pub(crate) static FULL: Line64 = Line64 { bytes: [255; 64] };

/// Reads a script of `items` items on heaps of growing size.
///
/// Each heap is 64 bytes larger than the one before. The test expects that reading runs out of memory on more than
/// `least` heaps, and that it succeeds on every larger heap after the first success. Nothing may stay allocated on any
/// heap.
/// serves; each larger heap serves, too. Nothing stays allocated on a heap.
pub(crate) fn expect_refusals<R: Abort, F: Fn(&LocalHeap) -> Result<usize, ScriptError>>(
    rt: &R,
    alloc: Global,
    items: usize,
    least: u32,
    read: F,
) -> Result<(), Fail>
    requires { F.IsAlwaysCallable read }
{
    let mut refused = 0u32;
    let mut served = false;
    for step in 1..400usize {
        let heap = LocalHeap::new(alloc, 64 * step)?;
        let found = read(&heap);
        served = served || found.is_ok();
        let wanted = if served {
            Ok(items)
        } else {
            refused = refused.saturating_add(1);
            Err(ScriptError::Memory)
        };
        expect_at(rt, &step, (found, heap.used()), (wanted, 0));
    }
    let ends = (served, refused > least);
    expect(
        rt,
        "served in the end, refused often enough",
        ends,
        (true, true),
    );
    Ok(())
}

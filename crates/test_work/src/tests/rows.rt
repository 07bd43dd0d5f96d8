//! Helper functions that the tests of this crate share.
use std::fmt::Debug;
use std::process::Abort;

/// Asserts that `found` equals `wanted`. A failure prints `row`.
pub(crate) fn expect<R: Abort, T: PartialEq + Debug + Drop>(
    rt: &R,
    row: &str,
    found: T,
    wanted: T,
) {
    assert_eq!(rt; found, wanted, "{row}");
}

/// Asserts that `found` equals `wanted`. A failure prints `at`.
pub(crate) fn expect_at<R: Abort, D: Debug, T: PartialEq + Debug + Drop>(
    rt: &R,
    at: &D,
    found: T,
    wanted: T,
) {
    assert_eq!(rt; found, wanted, "at {at:?}");
}

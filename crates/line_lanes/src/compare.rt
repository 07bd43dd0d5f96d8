ghost use Rattle.std.specs.Prelude.{◌≡◌, ℕ, ◌<◌, ◌^◌, ◌↔◌, ◌==◌, not, slice_index, IsTrue};
ghost use Rattle.line_lanes.specs.Mask.{is_masked, changed_mask};
ghost use Rattle.line_lanes.specs.Line.{AgreeUnder};

use crate::half::halves;
use crate::line::{Line64, Mask};
use std::simd::u8x32;

/// Returns the mask of the places at which two lines differ.
#[inline]
pub fn changed(a: &Line64, b: &Line64) -> Mask
    ensures { result.0 ≡ changed_mask a.now.bytes b.now.bytes }
{
    let (a_low, a_high) = halves(a);
    let (b_low, b_high) = halves(b);
    Mask(differing(a_low, b_low) | (differing(a_high, b_high) << 32))
}

/// Returns `true` if two lines are equal at each place of the mask.
#[inline]
pub fn agrees(a: &Line64, b: &Line64, mask: Mask) -> bool
    ensures { IsTrue result ↔ AgreeUnder mask.0 a.now.bytes b.now.bytes }
{
    changed(a, b).0 & mask.0 == 0
}

/// Returns the places at which two halves differ, as the low 32 bits.
fn differing(a: u8x32, b: u8x32) -> u64
    ensures bits { (k : ℕ) → k < 32 → is_masked result k
        ≡ not (slice_index a k == slice_index b k) }
    ensures bound { result < 2 ^ 32 }
{
    a.simd_ne(b).to_bitmask()
}

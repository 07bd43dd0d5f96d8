ghost use Rattle.std.specs.Prelude.{◌≡◌, ℕ, ◌+◌, ◌*◌, ◌/◌, ◌%◌, ◌^◌, ◌<◌, ◌≤◌, ◌↔◌, ◌==◌, length, slice_index, if◌then◌else◌, IsTrue, IsNone, IfSome};
ghost use Rattle.std.specs.Simd.Lanes.{number_l};
ghost use Rattle.line_lanes.specs.Lane.{lane_of, with_lane_of, lanes_of, lanes_total, lane_sums, OverflowsAtSomeLane};
ghost use Rattle.line_lanes.specs.Mask.{placed_mask};

use crate::half::{halves, joined};
use crate::line::{Line64, Mask};
use crate::write::{run_of_bits, write_at};
use std::simd::{u8x8, u8x32, u64x1, u64x4};

/// The lane of each byte of the low half.
const LOW_LANES: [u8; 32] = [
    0, 0, 0, 0, 0, 0, 0, 0, 1, 1, 1, 1, 1, 1, 1, 1, 2, 2, 2, 2, 2, 2, 2, 2, 3, 3, 3, 3, 3, 3, 3, 3,
];

/// The lane of each byte of the high half.
const HIGH_LANES: [u8; 32] = [
    4, 4, 4, 4, 4, 4, 4, 4, 5, 5, 5, 5, 5, 5, 5, 5, 6, 6, 6, 6, 6, 6, 6, 6, 7, 7, 7, 7, 7, 7, 7, 7,
];

/// Returns lane `k`: the little-endian number of bytes 8k to 8k + 7.
#[inline]
pub fn lane(line: &Line64, k: usize) -> u64
    requires { k < 8 }
    ensures { result ≡ lane_of line.now.bytes k }
{
    number_of(u8x8::from_slice(&line.bytes[8 * k..]))
}

/// Returns the line with `value` in lane `k`, and with every other lane unchanged.
#[inline]
pub fn with_lane(line: &Line64, k: usize, value: u64) -> Line64
    requires { k < 8 }
    ensures { result.bytes ≡ with_lane_of line.now.bytes k value }
{
    let (low, high) = halves(line);
    let value = repeated(value);
    joined(
        replaced(low, u8x32::from_array(LOW_LANES), k as u8, value),
        replaced(high, u8x32::from_array(HIGH_LANES), k as u8, value),
    )
}

/// Puts `value` into lane `k`, and returns the mask of that lane.
///
/// It stores eight bytes, while a masked write by `merge` stores all 64.
#[inline]
pub fn set_lane(line: &mut Line64, k: usize, value: u64) -> Mask
    requires { k < 8 }
    ensures line { line.new.bytes ≡ with_lane_of line.old.bytes k value }
    ensures mask { result.0 ≡ placed_mask (8 * k) 8 }
{
    write_at(&mut line.bytes, 8 * k, &value.to_le_bytes());
    Mask(run_of_bits(8 * k, 8))
}

/// Returns the sum of the eight lanes, which always fits.
#[inline]
pub fn lane_sum(line: &Line64) -> u128
    ensures { result ≡ lanes_total line.now.bytes }
{
    let (low, high) = halves(line);
    sum_of(wide(low)) + sum_of(wide(high))
}

/// Adds two lines lane by lane. Returns `None` exactly if one of the eight sums is more than `u64::MAX`.
#[inline]
pub fn add_lanes(a: &Line64, b: &Line64) -> Option<Line64>
    ensures none { IsNone result ↔ OverflowsAtSomeLane a.now.bytes b.now.bytes }
    ensures sums { IfSome result (λ r. lanes_of r.bytes ≡ lane_sums a.now.bytes b.now.bytes) }
{
    let (a_low, a_high) = halves(a);
    let (b_low, b_high) = halves(b);
    let (a_low, a_high) = (wide(a_low), wide(a_high));
    let (b_low, b_high) = (wide(b_low), wide(b_high));
    if overflows(a_low, b_low) {
        return None;
    }
    if overflows(a_high, b_high) {
        return None;
    }
    Some(joined(narrow(added(a_low, b_low)), narrow(added(a_high, b_high))))
}

/// Returns the little-endian number of eight bytes.
fn number_of(bytes: u8x8) -> u64
    ensures { result ≡ number_l 256 bytes }
{
    u64x1::from_le_bytes(bytes).to_array()[0]
}

/// Returns the four lanes of half a line.
fn wide(half: u8x32) -> u64x4
    ensures { (k : ℕ) → k < 4 → slice_index result k ≡ lane_of half k }
{
    u64x4::from_le_bytes(half)
}

/// Returns the half of a line that has these four lanes.
fn narrow(lanes: u64x4) -> u8x32
    ensures len { length result ≡ 32 }
    ensures lanes { (k : ℕ) → k < 4 → lane_of result k ≡ slice_index lanes k }
{
    lanes.to_le_bytes()
}

/// Returns the half of a line that has the value in each of its lanes.
fn repeated(value: u64) -> u8x32
    ensures len { length result ≡ 32 }
    ensures bytes { (i : ℕ) → i < 32 → slice_index result i ≡ value / 256 ^ (i % 8) % 256 }
{
    u64x4::splat(value).to_le_bytes()
}

/// Returns the half with the bytes of `value` at each place whose lane is `k`.
fn replaced(half: u8x32, lanes: u8x32, k: u8, value: u8x32) -> u8x32
    ensures len { length result ≡ 32 }
    ensures bytes { (i : ℕ) → i < 32 → slice_index result i
        ≡ (if slice_index lanes i == k then slice_index value i else slice_index half i) }
{
    lanes.simd_eq(u8x32::splat(k)).select(value, half)
}

/// Returns the sum of four lanes.
fn sum_of(lanes: u64x4) -> u128
    ensures total { result ≡ slice_index lanes 0 + slice_index lanes 1 + slice_index lanes 2
        + slice_index lanes 3 }
    ensures bound { result < 2 ^ 66 }
{
    let [first, second, third, fourth] = lanes.to_array();
    u128::from(first) + u128::from(second) + u128::from(third) + u128::from(fourth)
}

/// Returns `true` if the sum of some lane is more than `u64::MAX`.
fn overflows(a: u64x4, b: u64x4) -> bool
    ensures { IsTrue result ↔ (k : ℕ) × (k < 4) × (2 ^ 64 ≤ slice_index a k + slice_index b k) }
{
    a.simd_gt(!b).any()
}

/// Returns the sum of each lane.
fn added(a: u64x4, b: u64x4) -> u64x4
    requires { (k : ℕ) → k < 4 → slice_index a k + slice_index b k < 2 ^ 64 }
    ensures { (k : ℕ) → k < 4 → slice_index result k ≡ slice_index a k + slice_index b k }
{
    a.strict_add(b)
}

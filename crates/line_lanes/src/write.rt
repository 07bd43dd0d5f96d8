ghost use Rattle.std.specs.Prelude.{◌≡◌, ℕ, ◌+◌, ◌*◌, ◌/◌, ◌%◌, ◌^◌, ◌<◌, ◌≤◌, ◌↔◌, ◌++◌, length, slice_index, take, drop, if◌then◌else◌, IsNone, IfSome};
ghost use Rattle.line_lanes.specs.Mask.{is_masked, placed_mask};
ghost use Rattle.line_lanes.specs.Line.{merged, placed_line};

use crate::half::{halves, joined};
use crate::line::{Line64, Mask};
use std::simd::{u8x16, u8x32, u64x1};

/// The bit, in the mask's byte, of each byte of a half.
const BITS: [u8; 32] = [
    1, 2, 4, 8, 16, 32, 64, 128, 1, 2, 4, 8, 16, 32, 64, 128, 1, 2, 4, 8, 16, 32, 64, 128, 1, 2, 4,
    8, 16, 32, 64, 128,
];

/// Writes `new` over `old` under the mask: byte k comes from `new` if bit k of the mask is set, and otherwise from
/// `old`.
#[inline]
pub fn merge(old: &Line64, new: &Line64, mask: Mask) -> Line64
    ensures { result.bytes ≡ merged old.now.bytes new.now.bytes mask.0 }
{
    let (old_low, old_high) = halves(old);
    let (new_low, new_high) = halves(new);
    joined(
        merge_half(old_low, new_low, mask.0),
        merge_half(old_high, new_high, mask.0 >> 32),
    )
}

/// Places `bytes` from place `off` on. Returns their mask, and a line with zeros elsewhere.
///
/// Returns `None` exactly if the bytes exceed the line.
#[inline]
pub fn placed(off: usize, bytes: &[u8]) -> Option<(Mask, Line64)>
    ensures none { IsNone result ↔ (64 < off + length bytes.now) }
    ensures mask { IfSome result (λ p. p.0.0 ≡ placed_mask off (length bytes.now)) }
    ensures line { IfSome result (λ p. p.1.bytes ≡ placed_line off bytes.now) }
{
    if off > 64 || bytes.len() > 64 - off {
        return None;
    }
    // A slice of unknown length gets into a vector only by a copy, because `std::simd` has no partial load. The bytes
    // are therefore copied to their place.
    let mut line = [0; 64];
    write_at(&mut line, off, bytes);
    Some((Mask(run_of_bits(off, bytes.len())), Line64 { bytes: line }))
}

/// Writes half a line under the low 32 bits of the mask.
fn merge_half(old: u8x32, new: u8x32, mask: u64) -> u8x32
    ensures len { length result ≡ 32 }
    ensures bytes { (k : ℕ) → k < 32 → slice_index result k
        ≡ (if is_masked mask k then slice_index new k else slice_index old k) }
{
    blend(old, new, mask_bytes(mask))
}

/// Returns, at each byte of a half, the byte of the mask that has its bit.
fn mask_bytes(mask: u64) -> u8x32
    ensures { (k : ℕ) → k < 32 → slice_index result k ≡ mask / 2 ^ (8 * (k / 8)) % 256 }
{
    // A byte shuffle for each 16 bytes takes fewer instructions than one shuffle for all 32.
    two_bytes(mask).shuffle::<32>(
        two_bytes(mask >> 16),
        [
            0, 1, 2, 3, 4, 5, 6, 7, 8, 9, 10, 11, 12, 13, 14, 15, 16, 17, 18, 19, 20, 21, 22, 23,
            24, 25, 26, 27, 28, 29, 30, 31,
        ],
    )
}

/// Returns the lowest byte of the mask eight times, and then the next eight times.
fn two_bytes(mask: u64) -> u8x16
    ensures len { length result ≡ 16 }
    ensures bytes { (k : ℕ) → k < 16 → slice_index result k ≡ mask / 2 ^ (8 * (k / 8)) % 256 }
{
    u64x1::splat(mask)
        .to_le_bytes()
        .swizzle([0, 0, 0, 0, 0, 0, 0, 0, 1, 1, 1, 1, 1, 1, 1, 1])
}

/// Takes the new byte if the mask's byte there has the bit of that place, and otherwise the old byte.
fn blend(old: u8x32, new: u8x32, mask: u8x32) -> u8x32
    ensures { (k : ℕ) → k < 32 → slice_index result k
        ≡ (if is_masked (slice_index mask k) (k % 8) then slice_index new k
        else slice_index old k) }
{
    let bits = u8x32::from_array(BITS);
    (mask & bits).simd_eq(bits).select(new, old)
}

/// Writes the bytes over the line's from place `off` on.
pub(crate) fn write_at(line: &mut [u8], off: usize, bytes: &[u8])
    requires { off + length bytes.now ≤ length line.old }
    ensures { line.new ≡ take off line.old ++
        (bytes.now ++ drop (off + length bytes.now) line.old) }
{
    let end = off + bytes.len();
    line[off..end].copy_from_slice(bytes);
}

/// Returns the mask of `len` places from `off` on.
pub(crate) fn run_of_bits(off: usize, len: usize) -> u64
    requires { off + len ≤ 64 }
    ensures { result ≡ placed_mask off len }
{
    if len == 0 {
        return 0;
    }
    (u64::MAX >> (64 - len)) << off
}

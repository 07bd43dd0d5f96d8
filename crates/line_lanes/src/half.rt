ghost use Rattle.std.specs.Prelude.{◌≡◌, ◌++◌, take, drop};

use crate::line::Line64;
use std::simd::u8x32;

/// Splits the line into bytes 0 to 31, and bytes 32 to 63.
pub(crate) fn halves(line: &Line64) -> (u8x32, u8x32)
    ensures low { result.0 ≡ take 32 line.now.bytes }
    ensures high { result.1 ≡ drop 32 line.now.bytes }
{
    (
        u8x32::from_slice(&line.bytes),
        u8x32::from_slice(&line.bytes[32..]),
    )
}

/// Joins the two halves to a line.
pub(crate) fn joined(low: u8x32, high: u8x32) -> Line64
    ensures { result.bytes ≡ low ++ high }
{
    let bytes = low.shuffle::<64>(
        high,
        [
            0, 1, 2, 3, 4, 5, 6, 7, 8, 9, 10, 11, 12, 13, 14, 15, 16, 17, 18, 19, 20, 21, 22, 23,
            24, 25, 26, 27, 28, 29, 30, 31, 32, 33, 34, 35, 36, 37, 38, 39, 40, 41, 42, 43, 44, 45,
            46, 47, 48, 49, 50, 51, 52, 53, 54, 55, 56, 57, 58, 59, 60, 61, 62, 63,
        ],
    );
    Line64 {
        bytes: bytes.to_array(),
    }
}

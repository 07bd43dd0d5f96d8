//! Writes numbers above narrow columns: the digits of each number stand below each other.
ghost use Rattle.std.specs.Prelude.{◌≡◌, ◌++◌, ◌≤◌, OnOk};
ghost use Rattle.qolb_draw.specs.Heads as spec;

use std::alloc::{AllocError, Allocator};

/// The place values of a decimal number with at most six digits.
const PLACES: [u64; 6] = [100_000, 10_000, 1000, 100, 10, 1];

/// Returns the digit of a number at the place with this value, or a space if the number has no digit there.
pub fn digit_at(value: u64, number: u64) -> u8
    requires { 1 ≤ value }
    ensures { result ≡ spec.digit_at value number }
{
    if number < value {
        b' '
    } else {
        b'0' + (number / value % 10) as u8
    }
}

/// Appends a row of digits: a margin, and then the digit of each number at the place with this value.
fn push_head<A: Allocator>(
    text: &mut Vec<u8, A>,
    margin: &[u8],
    numbers: &[u64],
    value: u64,
) -> Result<(), AllocError>
    requires { 1 ≤ value }
    ensures { OnOk result (text.new.items ≡ text.old.items
        ++ spec.head_text margin.now numbers.now value) }
{
    text.extend_from_slice(margin)?;
    for number in numbers {
        text.push(digit_at(value, *number))?;
    }
    text.push(b'\n')?;
    Ok(())
}

/// Appends some numbers as the heads of columns, with the digits of each number below each other.
///
/// Each row of digits begins with the margin. The last number determines how many rows there are, so it should be the
/// greatest.
pub fn push_heads<A: Allocator>(
    text: &mut Vec<u8, A>,
    margin: &[u8],
    numbers: &[u64],
) -> Result<(), AllocError>
    ensures { OnOk result (text.new.items ≡ text.old.items
        ++ spec.heads_text margin.now numbers.now) }
{
    let last = numbers.last().copied().unwrap_or(0);
    for value in PLACES.iter() {
        if *value <= last {
            push_head(text, margin, numbers, *value)?;
        }
    }
    Ok(())
}

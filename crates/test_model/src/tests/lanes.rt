//! Tests calls on the 64 bytes of a line: masks that select bytes, lanes of eight bytes, and bytes that are placed into
//! the line.
use crate::tests::rows::{Bytes, FULL, SEVENS, expect, expect_at, line_with, with_bytes};
use line_lanes::{
    Line64, Mask, add_lanes, agrees, changed, lane, lane_sum, merge, placed, set_lane, with_lane,
};

/// The bytes of a new line.
static NEW: [(usize, u8); 5] = [(0, 10), (8, 18), (31, 41), (32, 42), (63, 73)];

/// Masks, each with the line that results if its bytes of the new line replace those of a line of sevens.
static CHOSEN: [(Mask, Bytes); 2] = [
    (Mask(0), &[]),
    (
        Mask(0xc000_0001_8000_0001),
        &[(0, 10), (31, 41), (32, 42), (62, 0), (63, 73)],
    ),
];

#[test]
fn a_mask_chooses_bytes(rt: HostRuntime) {
    let new = line_with(&NEW);
    expect(&rt, "all", merge(&SEVENS, &new, Mask(u64::MAX)), new);
    for (mask, chosen) in &CHOSEN {
        let wanted = with_bytes(&SEVENS, chosen);
        expect_at(&rt, mask, merge(&SEVENS, &new, *mask), wanted);
    }
}

/// Places and bytes, each with the mask and the line that result, if the bytes fit.
///
/// The rows cover no byte after the last place, no byte at a place outside the line, the last byte, one byte too many,
/// and bytes in both halves of the line.
static PLACED: [(usize, &[u8], Option<(Mask, Bytes)>); 5] = [
    (64, b"", Some((Mask(0), &[]))),
    (65, b"", None),
    (63, &[255], Some((Mask(1 << 63), &[(63, 255)]))),
    (63, &[255, 255], None),
    (31, &[1, 2], Some((Mask(3 << 31), &[(31, 1), (32, 2)]))),
];

#[test]
fn bytes_are_placed(rt: HostRuntime) {
    for (place, bytes, wanted) in &PLACED {
        let wanted = wanted.map(|(mask, bytes)| (mask, line_with(bytes)));
        expect_at(&rt, &(*place, *bytes), placed(*place, bytes), wanted);
    }
    let whole = Some((Mask(u64::MAX), SEVENS));
    expect(&rt, "the whole line", placed(0, &SEVENS.bytes), whole);
}

/// Two lines that differ in two bytes, one in each half.
static LEFT: [(usize, u8); 3] = [(5, 5), (31, 1), (40, 9)];

static RIGHT: [(usize, u8); 3] = [(5, 5), (32, 2), (40, 9)];

#[test]
fn lines_are_compared(rt: HostRuntime) {
    let (a, b) = (line_with(&LEFT), line_with(&RIGHT));
    let differ = Mask(3 << 31);
    let found = (changed(&a, &b), changed(&a, &a));
    expect(&rt, "two bytes, and none", found, (differ, Mask(0)));
    let agree = (agrees(&a, &b, differ), agrees(&a, &b, Mask(!differ.0)));
    expect(&rt, "in these, and elsewhere", agree, (false, true));
}

/// The bytes 1 to 8 in the first lane.
static COUNTED: [(usize, u8); 8] = [
    (0, 1),
    (1, 2),
    (2, 3),
    (3, 4),
    (4, 5),
    (5, 6),
    (6, 7),
    (7, 8),
];

/// The number 258 in the fifth lane. The next constant has it in the last lane.
static IN_FIFTH: [(usize, u8); 2] = [(32, 2), (33, 1)];

static IN_LAST: [(usize, u8); 2] = [(56, 2), (57, 1)];

#[test]
fn lanes_are_little_endian(rt: HostRuntime) {
    let counted = line_with(&COUNTED);
    let zero = Line64::zero();
    let lanes = (lane(&counted, 0), lane(&counted, 1), lane_sum(&FULL));
    let wanted = (578437695752307201, 0, 147573952589676412920);
    expect(&rt, "first, second, sum", lanes, wanted);
    let fifth = with_lane(&zero, 4, 258);
    expect(&rt, "258 in the fifth", fifth, line_with(&IN_FIFTH));
    expect(&rt, "cleared", with_lane(&counted, 0, 0), zero);
}

#[test]
fn a_lane_is_set(rt: HostRuntime) {
    let counted = line_with(&COUNTED);
    let mut line = counted;
    let mask = set_lane(&mut line, 7, 258);
    let last = (mask, lane(&line, 7));
    expect(&rt, "258 in the last", last, (Mask(0xff << 56), 258));
    let wanted = add_lanes(&counted, &line_with(&IN_LAST));
    expect(&rt, "the others stay", Some(line), wanted);
}

/// Two lines to add, followed by their sum in each lane.
static ADDEND: [(usize, u8); 3] = [(8, 255), (32, 2), (33, 1)];

static OTHER: [(usize, u8); 3] = [(8, 1), (32, 254), (63, 128)];

static SUM: [(usize, u8); 3] = [(9, 1), (33, 2), (63, 128)];

/// A line with 1 in the first lane. The next constant has 1 in the last lane.
static ONES: [Bytes; 2] = [&[(0, 1)], &[(56, 1)]];

#[test]
fn lanes_are_added(rt: HostRuntime) {
    let sum = add_lanes(&line_with(&ADDEND), &line_with(&OTHER));
    expect(&rt, "each by itself", sum, Some(line_with(&SUM)));
    for one in &ONES {
        expect_at(&rt, one, add_lanes(&FULL, &line_with(one)), None);
    }
}

//! Tests how a task board is stored in the 64 bytes of a line, and lines whose bytes are not those of a board.
use crate::tests::rows::{Bytes, FULL, expect, line_with};
use line_board::{Tasks, decode, encode};
use line_lanes::Line64;
use std::process::Abort;

/// Returns a board with the tasks in this order, up to the number that fits on a board.
fn tasks_of(numbers: &[u64]) -> Tasks {
    let mut tasks = Tasks::new();
    for number in numbers {
        if !tasks.is_full() {
            tasks.push(*number);
        }
    }
    tasks
}

/// Expects that a board with these tasks encodes to this line, and that the line decodes to the tasks.
fn expect_board<R: Abort>(rt: &R, numbers: &[u64], line: Line64) {
    let tasks = tasks_of(numbers);
    expect(rt, "encoded", encode(&tasks), line);
    expect(rt, "decoded", decode(&line), Some(tasks));
}

#[test]
fn boards_stand_lowest_byte_first(rt: HostRuntime) {
    expect_board(&rt, &[], Line64::zero());
    expect_board(&rt, &[5, 9], line_with(&[(0, 2), (8, 5), (16, 9)]));
    let long = line_with(&[
        (0, 1),
        (8, 8),
        (9, 7),
        (10, 6),
        (11, 5),
        (12, 4),
        (13, 3),
        (14, 2),
        (15, 1),
    ]);
    expect_board(&rt, &[0x0102030405060708], long);
    let full = line_with(&[
        (0, 7),
        (8, 1),
        (16, 2),
        (24, 3),
        (32, 4),
        (40, 5),
        (48, 6),
        (56, 7),
    ]);
    expect_board(&rt, &[1, 2, 3, 4, 5, 6, 7], full);
}

/// Lines that do not encode a board.
static NO_BOARDS: [(Bytes, &str); 3] = [
    (&[(0, 8)], "eight tasks"),
    (&[(0, 1), (24, 5)], "lane 3 of one task"),
    (&[(1, 1)], "byte 1"),
];

#[test]
fn these_lines_are_no_boards(rt: HostRuntime) {
    for (bytes, why) in &NO_BOARDS {
        expect(&rt, why, decode(&line_with(bytes)), None);
    }
    expect(&rt, "all ones", decode(&FULL), None);
}

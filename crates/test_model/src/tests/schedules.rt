//! Tests the reader of schedules, which are scripts of calls.
use crate::tests::rows::{expect, expect_at, expect_refusals};
use line_lanes::{Line64, Mask};
use linked_list_allocator::LocalHeap;
use qolb_script::{Command, Schedule, ScriptError, read_schedule};
use std::alloc::{AllocError, Global};
use std::test::Fail;

/// Schedules that are refused, each with its error.
static REFUSED: [(&str, ScriptError); 38] = [
    ("", ScriptError::BadLine(1)),
    ("\n \n\n", ScriptError::BadLine(1)),
    ("\n\t\n", ScriptError::BadLine(2)),
    ("nodes 2 lines\n", ScriptError::BadLine(1)),
    ("nodes 2 lines 1 1\n", ScriptError::BadLine(1)),
    ("nodes 2 nodes 1\n", ScriptError::BadLine(1)),
    ("nodes 201 lines 1\n", ScriptError::Number(1)),
    ("nodes 1 lines 1 lease\n", ScriptError::BadLine(1)),
    ("nodes 1 lines 1 lease 0\n", ScriptError::Number(1)),
    ("nodes 1 lines 1 lease 1 1\n", ScriptError::BadLine(1)),
    ("nodes 0 lines 1 lines 1\n", ScriptError::BadLine(1)),
    (
        "nodes 1 lines 1 lease 18446744073709551616\n",
        ScriptError::Number(1),
    ),
    ("nodes 0 lines 1\n", ScriptError::Number(1)),
    ("nodes 2 lines 9\n", ScriptError::Number(1)),
    ("nodes 2 lines 0\n", ScriptError::Number(1)),
    (
        "nodes 2 lines 1\nnodes 2 lines 1\n",
        ScriptError::BadLine(2),
    ),
    ("nodes 2 lines 1\n\t\n", ScriptError::BadLine(2)),
    ("nodes 2 lines 1\nenq\t1 0\n", ScriptError::BadLine(2)),
    ("nodes 2 lines 1\nenq 1 0\r\n", ScriptError::BadLine(2)),
    ("nodes 2 lines 1\nenq 1 0\0\n", ScriptError::BadLine(2)),
    ("nodes 2 lines 1\nenq 1\n", ScriptError::BadLine(2)),
    ("nodes 2 lines 1\nenq 1 0 0\n", ScriptError::BadLine(2)),
    ("nodes 2 lines 1\nask 9 9\n", ScriptError::BadLine(2)),
    ("nodes 2 lines 1\nenq +1 0\n", ScriptError::Number(2)),
    (
        "nodes 2 lines 1\nenq 18446744073709551616 0\n",
        ScriptError::Number(2),
    ),
    (
        "nodes 2 lines 1\nenq 000000000000000000001 0\n",
        ScriptError::Number(2),
    ),
    ("nodes 2 lines 1\nenq 0 0\n", ScriptError::Number(2)),
    ("nodes 2 lines 8\nenq 1 8\n", ScriptError::Number(2)),
    ("nodes 2 lines 1\n\n  \nenq 3 0\n", ScriptError::Number(4)),
    ("nodes 2 lines 1\nenq 3 0\nenq\n", ScriptError::Number(2)),
    ("nodes 2 lines 1\nwrite 1 0 64 ff\n", ScriptError::Number(2)),
    (
        "nodes 2 lines 1\nwrite 1 0 63 ffff\n",
        ScriptError::BadLine(2),
    ),
    (
        "nodes 2 lines 1\nwrite 1 0 0 fff\n",
        ScriptError::BadLine(2),
    ),
    ("nodes 2 lines 1\nwrite 1 0 0 zz\n", ScriptError::BadLine(2)),
    ("nodes 2 lines 1\nwrite 3 0 0 zz\n", ScriptError::Number(2)),
    // The script ends in the middle of a line.
    ("nodes 2 lines", ScriptError::BadLine(1)),
    (
        "nodes 2 lines 1\nenq 1 0\nwrite 1 0 0 a1b",
        ScriptError::BadLine(3),
    ),
    (
        "nodes 2 lines 1\nenq 1 0\nwrite 1 0 0 a1b2\nenq 2 0\npoll 2 0\ndeq 1 0\npoll 2 0\nshow 2",
        ScriptError::BadLine(8),
    ),
];

/// Returns a script with `count` commands.
fn many(alloc: Global, count: u64) -> Result<Vec<u8>, AllocError> {
    let mut text = Vec::from_slice(alloc, b"nodes 2 lines 1\n")?;
    for _ in 0..count {
        text.extend_from_slice(b"poll 1 0\n")?;
    }
    Ok(text)
}

#[test]
fn names_the_first_fault(rt: HostRuntime) {
    for (text, error) in &REFUSED {
        let found = read_schedule(rt.alloc(), text.as_bytes()).err();
        expect_at(&rt, text, found, Some(*error));
    }
}

#[test]
fn refuses_more_bytes_than_a_line(rt: HostRuntime) -> Result<(), Fail> {
    for (digits, error) in [(128usize, None), (130, Some(ScriptError::BadLine(2)))] {
        let mut text = Vec::from_slice(rt.alloc(), b"nodes 2 lines 1\nwrite 1 0 0 ")?;
        for _ in 0..digits {
            text.push(b'0')?;
        }
        expect_at(&rt, &digits, read_schedule(rt.alloc(), &text).err(), error);
    }
    Ok(())
}

/// One command of each kind, except for a write.
static COMMANDS: [Command; 6] = [
    Command::Enq { node: 1, line: 7 },
    Command::Poll { node: 1, line: 0 },
    Command::Show { node: 2, line: 1 },
    Command::Deq { node: 1, line: 2 },
    Command::Out { node: 1, line: 3 },
    Command::Shut { node: 1, line: 4 },
];

#[test]
fn reads_every_command(rt: HostRuntime) -> Result<(), Fail> {
    let text =
        b" nodes 2  lines 8  lease 18446744073709551615 \n\nenq 00000000000000000001 7\npoll 1 0\nshow 2 1\n  deq 1 2\nout 1 3 \nshut 1 4\n";
    let schedule: Schedule = read_schedule(rt.alloc(), text)?;
    expect(&rt, "nodes", schedule.nodes(), 2);
    expect(&rt, "lines", schedule.lines(), 8);
    expect(&rt, "lease", schedule.lease(), Some(u64::MAX));
    expect(&rt, "commands", schedule.commands(), COMMANDS.as_slice());
    Ok(())
}

#[test]
fn reads_a_write(rt: HostRuntime) -> Result<(), Fail> {
    let schedule = read_schedule(rt.alloc(), b"nodes 2 lines 1\nwrite 1 0 62 aBFf")?;
    let mut bytes = [0; 64];
    bytes[62] = 0xab;
    bytes[63] = 0xff;
    let wanted = [Command::Write {
        node: 1,
        line: 0,
        mask: Mask(3 << 62),
        bytes: Line64 { bytes },
    }];
    expect(&rt, "a write", schedule.commands(), wanted.as_slice());
    Ok(())
}

#[test]
fn reads_a_last_line_without_its_end(rt: HostRuntime) -> Result<(), Fail> {
    let mut bytes = [0; 64];
    bytes[0] = 0xa1;
    let wanted = [
        Command::Enq { node: 1, line: 0 },
        Command::Write {
            node: 1,
            line: 0,
            mask: Mask(1),
            bytes: Line64 { bytes },
        },
    ];
    for (text, read) in [
        ("nodes 2 lines 1\nenq 1 0", 1usize),
        ("nodes 2 lines 1\nenq 1 0\nwrite 1 0 0 a1", 2),
    ] {
        let schedule = read_schedule(rt.alloc(), text.as_bytes())?;
        expect(&rt, text, schedule.commands(), &wanted[..read.min(2)]);
    }
    Ok(())
}

#[test]
fn takes_no_more_than_the_most_commands(rt: HostRuntime) -> Result<(), Fail> {
    let text = many(rt.alloc(), 100_000)?;
    let schedule = read_schedule(rt.alloc(), &text)?;
    expect(&rt, "the most", schedule.commands().len(), 100_000);
    let text = many(rt.alloc(), 100_001)?;
    let error = read_schedule(rt.alloc(), &text).err();
    expect(&rt, "one more", error, Some(ScriptError::TooMany(100_002)));
    Ok(())
}

#[test]
fn large_texts_are_read_in_one_go(rt: HostRuntime) -> Result<(), Fail> {
    for byte in [b'\n', b' ', b'0'] {
        let text = vec![in rt.alloc(); byte; 2_097_152]?;
        let error = read_schedule(rt.alloc(), &text).err();
        expect_at(&rt, &byte, error, Some(ScriptError::BadLine(1)));
    }
    let mut words = Vec::from_slice(rt.alloc(), b"nodes 2 lines 1\n")?;
    for _ in 0..1_048_576 {
        words.extend_from_slice(b"1 ")?;
    }
    let error = read_schedule(rt.alloc(), &words).err();
    expect(&rt, "a long line", error, Some(ScriptError::BadLine(2)));
    Ok(())
}

#[test]
fn lines_without_words_take_no_memory(rt: HostRuntime) -> Result<(), Fail> {
    let mut text = Vec::from_slice(rt.alloc(), b"nodes 2 lines 1\nenq 1 0\n")?;
    for _ in 0..10_000 {
        text.push(b'\n')?;
    }
    let heap = LocalHeap::new(rt.alloc(), 4_096)?;
    let schedule = read_schedule(&heap, &text)?;
    expect(&rt, "commands", schedule.commands().len(), 1);
    Ok(())
}

#[test]
fn each_growth_is_refused(rt: HostRuntime) -> Result<(), Fail> {
    let text = many(rt.alloc(), 100)?;
    expect_refusals(&rt, rt.alloc(), 100, 3, |heap| {
        Ok(read_schedule(heap, &text)?.commands().len())
    })
}

//! Tests the reader of step scripts, whose events are atomic steps.
use crate::tests::rows::{expect, expect_at, expect_refusals};
use line_lanes::{Line64, Mask};
use link_core::Event;
use qolb_script::{ScriptError, Steps, read_steps};
use std::test::Fail;

/// Step scripts that are refused, each with its error.
static REFUSED: [(&str, ScriptError); 20] = [
    ("", ScriptError::BadLine(1)),
    ("\n \n", ScriptError::BadLine(1)),
    ("nodes 2 lines 1\n", ScriptError::BadLine(1)),
    ("lines 2\n", ScriptError::BadLine(1)),
    ("nodes 0\n", ScriptError::Number(1)),
    ("nodes 201\n", ScriptError::Number(1)),
    ("nodes 1 lease\n", ScriptError::BadLine(1)),
    ("nodes 1 lease 0\n", ScriptError::Number(1)),
    ("nodes 1 lease 1 1\n", ScriptError::BadLine(1)),
    ("nodes 2\n\nlink 3\n", ScriptError::Number(3)),
    ("nodes 2\nlink 3\n", ScriptError::Number(2)),
    ("nodes 2\nlink 0\n", ScriptError::Number(2)),
    ("nodes 2\nenq 3\n", ScriptError::BadLine(2)),
    ("nodes 2\nlink\n", ScriptError::BadLine(2)),
    ("nodes 2\nlink 1 0\n", ScriptError::BadLine(2)),
    ("nodes 2\nlink\t1\n", ScriptError::BadLine(2)),
    ("nodes 2\nwrite 1\n", ScriptError::BadLine(2)),
    ("nodes 2\nwrite 1 64 ff\n", ScriptError::Number(2)),
    ("nodes 2\nwrite 1 63 ffff\n", ScriptError::BadLine(2)),
    ("nodes 2\nlink 1\nwrite 3 0 zz\n", ScriptError::Number(3)),
];

#[test]
fn names_the_first_fault(rt: HostRuntime) {
    for (text, error) in &REFUSED {
        let found = read_steps(rt.alloc(), text.as_bytes()).err();
        expect_at(&rt, text, found, Some(*error));
    }
}

/// One event of each kind except for a write, each from a different node.
static EVENTS: [Event; 10] = [
    Event::Reset(1),
    Event::Prepend(2),
    Event::Link(3),
    Event::Load(4),
    Event::Home(5),
    Event::Done(6),
    Event::Grant(7),
    Event::Roll(8),
    Event::Freed(200),
    Event::Close(10),
];

#[test]
fn reads_every_event(rt: HostRuntime) -> Result<(), Fail> {
    let text =
        b"nodes 200 lease 7\nreset 1\nprepend 2\n\nlink 3\nload 4\nhome 5\ndone 6\ngrant 7\nroll 8\n  freed  200\nclose 10";
    let steps: Steps = read_steps(rt.alloc(), text)?;
    expect(&rt, "nodes", steps.nodes(), 200);
    expect(&rt, "lease", steps.lease(), Some(7));
    expect(&rt, "events", steps.events(), EVENTS.as_slice());
    Ok(())
}

#[test]
fn reads_a_write(rt: HostRuntime) -> Result<(), Fail> {
    let steps = read_steps(rt.alloc(), b"nodes 9\nwrite 9 62 aBFf\n")?;
    let mut bytes = [0; 64];
    bytes[62] = 0xab;
    bytes[63] = 0xff;
    let wanted = [Event::Write(9, Mask(3 << 62), Line64 { bytes })];
    expect(&rt, "a write", steps.events(), wanted.as_slice());
    Ok(())
}

#[test]
fn takes_no_more_than_the_most_events(rt: HostRuntime) -> Result<(), Fail> {
    let mut text = Vec::from_slice(rt.alloc(), b"nodes 2\n")?;
    for _ in 0..100_000 {
        text.extend_from_slice(b"load 1\n")?;
    }
    let steps = read_steps(rt.alloc(), &text)?;
    expect(&rt, "the most", steps.events().len(), 100_000);
    text.extend_from_slice(b"load\n")?;
    let error = read_steps(rt.alloc(), &text).err();
    expect(&rt, "one more", error, Some(ScriptError::TooMany(100_002)));
    Ok(())
}

#[test]
fn each_growth_is_refused(rt: HostRuntime) -> Result<(), Fail> {
    let text = b"nodes 2\nreset 1\nprepend 1\nhome 1\nreset 2\nprepend 2\nhome 2";
    expect_refusals(&rt, rt.alloc(), 6, 0, |heap| {
        Ok(read_steps(heap, text)?.events().len())
    })
}

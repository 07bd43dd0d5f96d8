//! Tests replays of step scripts, whose events are atomic steps.
use crate::tests::replays::repeated;
use crate::tests::rows::{expect, expect_at};
use linked_list_allocator::LocalHeap;
use qolb_run::{Detail, ReplayError, run_steps, run_steps_with};
use qolb_script::{ScriptError, Watched};
use std::alloc::Global;
use std::test::Fail;

/// A script in which a node withdraws before it is granted.
const SCRIPT: &str =
    "nodes 2\nreset 1\nprepend 1\nreset 2\nprepend 2\nlink 2\nhome 1\ndone 1\nroll 2\ngrant 1\nhome 1\nload 2\nfreed 1\nload 2\n";

const REPLY: &str =
    "went\ngranted\nwent\nwent\nqueued\nwent\nwent\nwithdrawn\nwent\nwent\nbusy\nreleased\nfree\nline 0 served 1 withdrawn 1 told 0 left 0\n";

/// The reply to `SCRIPT` with ranks. A link, a release that finds a successor, a grant that passes a node, and a
/// freeing each lower the rank by one.
const RANKED: &str =
    "went 0\ngranted 1\nwent 1\nwent 6\nqueued 5\nwent 4\nwent 3\nwithdrawn 3\nwent 2\nwent 1\nbusy 1\nreleased 0\nfree 0\nline 0 served 1 withdrawn 1 told 0 left 0\n";

#[test]
fn ranks_are_written(rt: HostRuntime) -> Result<(), Fail> {
    let mut text: Vec<u8> = Vec::new(rt.alloc());
    let done = run_steps_with(
        rt.alloc(),
        &mut Watched::new(SCRIPT.as_bytes()),
        &mut Watched::new(&mut text),
        Detail::Ranks,
    );
    expect(&rt, "done", done, Ok(()));
    expect(&rt, "the reply", text.as_slice(), RANKED.as_bytes());
    Ok(())
}

#[test]
fn the_longest_step_script_is_answered(rt: HostRuntime) -> Result<(), Fail> {
    let alloc = rt.alloc();
    let turn = "reset 1\nprepend 1\nhome 1\n";
    let script = repeated(alloc, "nodes 1\n", 33_333, turn, "reset 1\n")?;
    let mut text: Vec<u8> = Vec::new(alloc);
    let done = run_steps_with(
        alloc,
        &mut Watched::new(script.as_bytes()),
        &mut Watched::new(&mut text),
        Detail::Ranks,
    );
    expect(&rt, "done", done, Ok(()));
    let last = "went 0\nline 0 served 33333 withdrawn 0 told 0 left 0\n";
    let wanted = repeated(alloc, "", 33_333, "went 0\ngranted 1\nreleased 0\n", last)?;
    expect(&rt, "the reply", text.as_slice() == wanted.as_bytes(), true);
    Ok(())
}

/// Replays the script on a heap of `bytes` bytes. Returns the error, whether the reply is right, how much was written,
/// and how many bytes of the heap are in use at the end.
fn run_within(alloc: Global, bytes: usize) -> Option<(Option<ReplayError>, bool, usize, usize)> {
    let heap = LocalHeap::new(alloc, bytes).ok()?;
    let mut reader = Watched::new(SCRIPT.as_bytes());
    let mut text: Vec<u8> = Vec::new(alloc);
    let done = run_steps(&heap, &mut reader, &mut Watched::new(&mut text));
    let is_right = text.as_slice() == REPLY.as_bytes();
    Some((done.err(), is_right, text.len(), heap.used()))
}

#[test]
fn each_allocation_is_refused(rt: HostRuntime) -> Result<(), Fail> {
    let refused = (Some(ReplayError::Memory), false, 0, 0);
    let ran = (None, true, REPLY.len(), 0);
    let mut refusals = 0usize;
    for step in 1..200usize {
        let found = run_within(rt.alloc(), 32 * step).ok_or("a heap")?;
        if refusals.saturating_add(1) == step && found == refused {
            refusals = step;
        } else {
            expect_at(&rt, &step, found, ran);
        }
    }
    expect(&rt, "refusals", refusals > 5 && refusals < 199, true);
    Ok(())
}

/// Step scripts that are refused.
static FAULTS: [(&str, ScriptError); 4] = [
    ("", ScriptError::BadLine(1)),
    ("nodes 201", ScriptError::Number(1)),
    ("nodes 2\nreset 3\n", ScriptError::Number(2)),
    ("nodes 2\nreset\n", ScriptError::BadLine(2)),
];

#[test]
fn names_the_first_fault_of_steps(rt: HostRuntime) {
    for (script, fault) in &FAULTS {
        let mut text: Vec<u8> = Vec::new(rt.alloc());
        let done = run_steps(
            rt.alloc(),
            &mut Watched::new(script.as_bytes()),
            &mut Watched::new(&mut text),
        );
        expect(
            &rt,
            script,
            (done, text.len()),
            (Err(ReplayError::Script(*fault)), 0),
        );
    }
}

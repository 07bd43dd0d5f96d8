//! Tests the program with limited memory, in amounts that increase step by step.
use crate::tests::hostile::{BOARD, BOARD_REPORT, HAND_OVER, HANDED_OVER_DRAWN, LATE_LINK, LINKED};
use qolb_serve::serve;
use std::alloc::Global;
use std::process::Abort;
use std::rt::Clock;
use std::sync::Wait;
use std::test::Fail;
use std::thread::Threads;
use test_support::MemoryLimit;

/// Runs the script with at most `bytes` bytes of memory. Returns the exit status, the output and the complaint.
fn run_in<T: Threads + Wait + Clock + Eprint + Sync>(
    rt: &T,
    alloc: Global,
    limit: &MemoryLimit,
    bytes: usize,
    words: &[String],
    script: &str,
) -> Result<(u8, Vec<u8>, Vec<u8>), Fail> {
    let mut reader = script.as_bytes();
    let mut out: Vec<u8> = Vec::with_capacity(alloc, 1 << 10)?;
    let mut err: Vec<u8> = Vec::with_capacity(alloc, 1 << 10)?;
    let rest = limit.leave(alloc, bytes)?;
    let status = serve(rt, alloc, words, &mut reader, &mut out, &mut err);
    drop(rest);
    Ok((status, out, err))
}

/// Runs the script with at most `bytes` bytes of memory. Returns `true` if it was answered; otherwise it ran out of
/// memory and wrote no output.
fn is_answered<T: Threads + Wait + Clock + Eprint + Sync + Abort>(
    rt: &T,
    alloc: Global,
    limit: &MemoryLimit,
    bytes: usize,
    words: &[String],
    script: &str,
    reply: &str,
) -> Result<bool, Fail> {
    let (status, out, err) = run_in(rt, alloc, limit, bytes, words, script)?;
    let answered = status == 0;
    let (text, complaint) = if answered {
        (reply, "")
    } else {
        ("", "out of memory\n")
    };
    let is_right = out.as_slice() == text.as_bytes() && err.as_slice() == complaint.as_bytes();
    assert!(rt;
        is_right && (answered || status == 3),
        "{words:?} in {bytes} bytes: {status}"
    );
    Ok(answered)
}

/// Command lines of subcommands, each with a script and the output.
static RUNS: [(&[&str], &str, &str); 3] = [
    (&["steps", "--explain"], LATE_LINK, LINKED),
    (&["board"], BOARD, BOARD_REPORT),
    (&["draw"], HAND_OVER, HANDED_OVER_DRAWN),
];

/// Limits of memory in bytes: the first limit, a bound below which all limits are, and the step from one limit to the
/// next. The last limits have room for the threads' stacks.
static ROOMS: [(usize, usize, usize); 3] = [
    (1 << 6, 1 << 16, 1 << 6),
    (1 << 16, 1 << 18, 1 << 10),
    (1 << 20, 1 << 26, 1 << 20),
];

#[test]
fn each_allocation_is_refused(rt: HostRuntime) -> Result<(), Fail> {
    let alloc = rt.alloc();
    let limit = MemoryLimit::begin(alloc, 1 << 28)?;
    for (words, script, reply) in &RUNS {
        let mut all = vec![in alloc; "qolb".to_string(alloc)?]?;
        for word in *words {
            all.push(word.to_string(alloc)?)?;
        }
        let mut refused = 0u32;
        let mut answered = false;
        for (first, end, step) in &ROOMS {
            for bytes in (*first..*end).step_by(*step) {
                if !answered {
                    answered = is_answered(
                        &rt,
                        alloc,
                        &limit,
                        bytes,
                        all.as_slice(),
                        *script,
                        *reply,
                    )?;
                    refused = refused.saturating_add(1);
                }
            }
        }
        assert!(rt; answered && refused > 100, "{words:?}");
    }
    Ok(())
}

/// The kinds of lines, in ascending order of the memory that they take. With 200 nodes, a plain line takes 3.3 KB. The
/// words of a link line or of a ring take 26 or 33 KB; a ticket line takes 33 KB of words and 33 KB of slots. These
/// last three kinds also take 25 KB of ports each.
static BY_SIZE: [&str; 4] = ["plain", "link", "ring", "ticket"];

/// Limits of memory in KB. Each limit has room for eight lines of one more kind than the limit before it.
static LARGER_ROOMS: [usize; 4] = [300, 478, 650, 1_200];

/// The reply of a replay of eight lines for 200 nodes.
const EIGHT_LINES: &str =
    "line 0 served 0 withdrawn 0 told 0 left 0\nline 1 served 0 withdrawn 0 told 0 left 0\nline 2 served 0 withdrawn 0 told 0 left 0\nline 3 served 0 withdrawn 0 told 0 left 0\nline 4 served 0 withdrawn 0 told 0 left 0\nline 5 served 0 withdrawn 0 told 0 left 0\nline 6 served 0 withdrawn 0 told 0 left 0\nline 7 served 0 withdrawn 0 told 0 left 0\n";

#[test]
fn a_replay_takes_lines_of_the_kind_that_is_named(rt: HostRuntime) -> Result<(), Fail> {
    let alloc = rt.alloc();
    let limit = MemoryLimit::begin(alloc, 1 << 22)?;
    for (place, kind) in BY_SIZE.iter().enumerate() {
        let words = vec![in alloc;
            "qolb".to_string(alloc)?,
            "replay".to_string(alloc)?,
            "--kind".to_string(alloc)?,
            kind.to_string(alloc)?,
        ]?;
        for (larger, room) in LARGER_ROOMS.iter().enumerate() {
            let answered = is_answered(
                &rt,
                alloc,
                &limit,
                room << 10,
                words.as_slice(),
                "nodes 200 lines 8\n",
                EIGHT_LINES,
            )?;
            assert_eq!(rt; answered, place <= larger, "{kind} in {room} KB");
        }
    }
    Ok(())
}

/// The complaint about the last of these lines, if there is enough memory to read them.
const LAST_REFUSED: &str =
    "bad line 302\n    ask 1\nword 1 is none of reset, prepend, link, load, home, done, grant, roll, freed, write, close; for `ask` write `reset`, `prepend` and `link`\n";

#[test]
fn want_of_memory_is_not_explained(rt: HostRuntime) -> Result<(), Fail> {
    let alloc = rt.alloc();
    let limit = MemoryLimit::begin(alloc, 1 << 28)?;
    let mut words: Vec<String> = Vec::new(alloc);
    for word in ["qolb", "steps", "--explain"] {
        words.push(word.to_string(alloc)?)?;
    }
    let mut script = "nodes 1\n".to_string(alloc)?;
    for _ in 0..300u64 {
        script.push_str("reset 1\n")?;
    }
    script.push_str("ask 1\n")?;
    let (mut scarce, mut refused) = (0u32, 0u32);
    for bytes in (64..1usize << 16).step_by(64) {
        let (status, out, err) = run_in(
            &rt,
            alloc,
            &limit,
            bytes,
            words.as_slice(),
            script.as_str(),
        )?;
        let wanted = if status == 3 {
            scarce = scarce.saturating_add(1);
            "out of memory\n"
        } else {
            refused = refused.saturating_add(1);
            LAST_REFUSED
        };
        let is_said = out.is_empty() && err.as_slice() == wanted.as_bytes();
        assert!(rt;
            is_said && (status == 3 || status == 1),
            "{status} in {bytes} bytes"
        );
    }
    assert!(rt;
        scarce > 100 && refused > 100,
        "{scarce} and {refused} rooms"
    );
    Ok(())
}

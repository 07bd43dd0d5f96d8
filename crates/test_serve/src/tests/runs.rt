//! Tests complete runs of the program. Each test gives the words of the command line and a script, and the expected
//! status and output.
use crate::tests::long::with_explain;
use line_kinds::{LOCKS, lock_names};
use qolb_serve::serve;
use std::alloc::Global;
use std::io::{self, Read, Write};
use std::process::Abort;
use std::rt::Clock;
use std::sync::Wait;
use std::test::Fail;
use std::thread::Threads;

/// The kinds of lines of a replay.
pub static KINDS: [&str; LOCKS + 1] = lock_names!(array, "plain");

/// Runs the program with these words, and returns its exit status and its standard error.
pub fn run<T: Threads + Wait + Clock + Eprint + Sync, R: Read, W: Write>(
    rt: &T,
    alloc: Global,
    words: &[&str],
    reader: &mut R,
    out: &mut W,
) -> Result<(u8, String), Fail> {
    let mut all = vec![in alloc; "qolb".to_string(alloc)?]?;
    for word in words {
        all.push(word.to_string(alloc)?)?;
    }
    let mut err: Vec<u8> = Vec::new(alloc);
    let status = serve(rt, alloc, all.as_slice(), reader, out, &mut err);
    Ok((status, String::from_utf8(err)?))
}

/// Runs the program, and returns its exit status, standard output and standard error.
pub fn told<T: Threads + Wait + Clock + Eprint + Sync>(
    rt: &T,
    alloc: Global,
    words: &[&str],
    script: &str,
) -> Result<(u8, String, String), Fail> {
    let mut reader = script.as_bytes();
    let mut out: Vec<u8> = Vec::new(alloc);
    let (status, err) = run(rt, alloc, words, &mut reader, &mut out)?;
    Ok((status, String::from_utf8(out)?, err))
}

/// Checks that a run ends with this status, standard output and standard error.
pub fn expect<T: Threads + Wait + Clock + Eprint + Abort + Sync>(
    rt: &T,
    alloc: Global,
    words: &[&str],
    script: &str,
    want: (u8, &str, &str),
) -> Result<(), Fail> {
    let (status, out, err) = told(rt, alloc, words, script)?;
    assert_eq!(rt;
        (status, out.as_str(), err.as_str()),
        want,
        "of {words:?}, {script}"
    );
    Ok(())
}

/// Checks that a replay by each kind of lines ends as expected.
pub fn expect_by_each_kind<T: Threads + Wait + Clock + Eprint + Abort + Sync>(
    rt: &T,
    alloc: Global,
    script: &str,
    want: (u8, &str, &str),
) -> Result<(), Fail> {
    for kind in &KINDS {
        expect(rt, alloc, &["replay", "--kind", *kind], script, want)?;
    }
    Ok(())
}

/// Schedules, each with the exit status, standard output and standard error of its replay.
static SCHEDULES: [(&str, (u8, &str, &str)); 10] = [
    (
        "nodes 1 lines 1\n",
        (0, "line 0 served 0 withdrawn 0 told 0 left 0\n", ""),
    ),
    (
        "nodes 1 lines 1\nenq 1 0\nwrite 1 0 63 ffff\nshow 1 0\n",
        (1, "", "bad line 3\n"),
    ),
    ("", (1, "", "bad line 1\n")),
    (
        "nodes 33 lines 1",
        (0, "line 0 served 0 withdrawn 0 told 0 left 0\n", ""),
    ),
    ("nodes 201 lines 1", (1, "", "bad line 1\n")),
    // a last line without a newline
    (
        "nodes 2 lines 1\nenq 1 0",
        (
            0,
            "granted\nline 0 served 0 withdrawn 0 told 0 left 1\n",
            "",
        ),
    ),
    ("nodes 1 lines 1 lease 0", (1, "", "bad line 1\n")),
    ("nodes 1 lines 1 lease", (1, "", "bad line 1\n")),
    ("nodes 2 lines 1\nenq 3 0", (1, "", "bad line 2\n")),
    ("nodes 2 lines 1\nenq 1", (1, "", "bad line 2\n")),
];

#[test]
fn replays_and_refuses_scripts(rt: HostRuntime) -> Result<(), Fail> {
    for (script, want) in &SCHEDULES {
        expect_by_each_kind(&rt, rt.alloc(), script, *want)?;
    }
    Ok(())
}

/// The words of a task of each name.
static TASKS: [&[&str]; 8] = [
    &["replay", "--kind", "link"],
    &["steps"],
    &["board"],
    &["bank"],
    &["draw"],
    &["draw", "--svg"],
    &["draw", "--steps"],
    &["draw", "--steps", "--svg"],
];

/// Checks that a script is refused with this text on standard error.
fn expect_refused<T: Threads + Wait + Clock + Eprint + Abort + Sync>(
    rt: &T,
    alloc: Global,
    words: &[&str],
    script: &[u8],
    told: &str,
) -> Result<(), Fail> {
    let mut reader = script;
    let mut out: Vec<u8> = Vec::new(alloc);
    let (status, err) = run(rt, alloc, words, &mut reader, &mut out)?;
    assert_eq!(rt;
        (status, out.len(), err.as_str()),
        (1, 0, told),
        "of {words:?}"
    );
    Ok(())
}

#[test]
fn refuses_a_script_of_more_than_16_mebibytes(rt: HostRuntime) -> Result<(), Fail> {
    let alloc = rt.alloc();
    let script = vec![in alloc; b'\n'; 16_777_217]?;
    let explained = "script too long\na script has at most 16777216 bytes\n";
    for words in &TASKS {
        expect_refused(&rt, alloc, *words, &script, "script too long\n")?;
        let all = with_explain(alloc, *words)?;
        expect_refused(&rt, alloc, all.as_slice(), &script, explained)?;
    }
    Ok(())
}

#[test]
fn refuses_a_script_of_more_than_100_000_commands(rt: HostRuntime) -> Result<(), Fail> {
    let mut script = String::from_str(rt.alloc(), "\nnodes 1 lines 1\nenq 1 0\n")?;
    for _ in 0..100_000 {
        script.push_str("show 1 0\n")?;
    }
    let refused = (1, "", "bad line 100003\n");
    let words = ["replay", "--kind", "plain"];
    expect(&rt, rt.alloc(), words.as_slice(), script.as_str(), refused)?;
    let all = with_explain(rt.alloc(), words.as_slice())?;
    let explained = "bad line 100003\n    show 1 0\nmore than 100,000 commands, events or jobs\n";
    expect(
        &rt,
        rt.alloc(),
        all.as_slice(),
        script.as_str(),
        (1, "", explained),
    )
}

/// A writer that always fails.
#[derive(Drop)]
struct Broken;

impl Write for Broken {
    fn write(&mut self, _buf: &[u8]) -> io::Result<usize> {
        Err(io::Error::from(io::ErrorKind::Other))
    }

    fn flush(&mut self) -> io::Result<()> {
        Ok(())
    }
}

/// Command lines and scripts that are refused, with the exit status.
static REFUSED: [(&[&str], &str, u8); 2] = [
    (
        &["qolb", "replay", "--kind", "plain"],
        "nodes 0 lines 1\n",
        1,
    ),
    (&[], "", 2),
];

#[test]
fn a_failed_complaint_changes_no_status(rt: HostRuntime) -> Result<(), Fail> {
    let alloc = rt.alloc();
    for (words, script, want) in &REFUSED {
        let mut all = Vec::new(alloc);
        for word in *words {
            all.push(word.to_string(alloc)?)?;
        }
        let mut reader = script.as_bytes();
        let mut out: Vec<u8> = Vec::new(alloc);
        let status = serve(
            &rt,
            alloc,
            all.as_slice(),
            &mut reader,
            &mut out,
            &mut Broken,
        );
        assert_eq!(rt; status, *want, "of {words:?}");
    }
    Ok(())
}

//! Tests long scripts and long answers.
use crate::tests::hostile::{HAND_OVER, HANDED_OVER};
use crate::tests::runs::run;
use std::alloc::Global;
use std::process::Abort;
use std::rt::Clock;
use std::sync::Wait;
use std::test::Fail;
use std::thread::Threads;

/// How many times the middle part of a text is repeated.
const TIMES: u32 = 12_000;

/// What `show` answers about a line that no node has written.
const ZEROS: &str =
    "00000000000000000000000000000000000000000000000000000000000000000000000000000000000000000000000000000000000000000000000000000000\n";

/// A text: its first part, a part that is repeated, and the last part.
type Long = [&'static str; 3];

const HELD: Long = ["nodes 1 lines 1\nenq 1 0\n", "show 1 0\n", ""];

const SHOWN: Long = [
    "granted\n",
    ZEROS,
    "line 0 served 0 withdrawn 0 told 0 left 1\n",
];

/// What is repeated (a command or an event), the number of the first one, and the note on each.
type Note = (&'static str, u32, &'static str);

/// Command lines, each with a long script, the script's answer, and the notes on refusals. The answers of replays have
/// 1.5 MB.
static ANSWERED: [(&[&str], Long, Long, Option<Note>); 10] = [
    (&["replay", "--kind", "plain"], HELD, SHOWN, None),
    (&["replay", "--kind", "ring"], HELD, SHOWN, None),
    (&["replay", "--kind", "link"], HELD, SHOWN, None),
    (&["replay", "--kind", "ticket"], HELD, SHOWN, None),
    (
        &["replay", "--kind", "link"],
        ["nodes 1 lines 1\n", "poll 1 0\n", ""],
        [
            "",
            "misuse\n",
            "line 0 served 0 withdrawn 0 told 0 left 0\n",
        ],
        Some((
            "command",
            1,
            "poll 1 0: node 1 neither waits nor holds, which allows enq",
        )),
    ),
    (
        &["steps"],
        ["nodes 1\n", "link 1\n", ""],
        [
            "",
            "refused\n",
            "line 0 served 0 withdrawn 0 told 0 left 0\n",
        ],
        Some(("event", 1, "link 1: node 1 is at Idle, which allows reset")),
    ),
    (
        &["steps", "--rank"],
        ["nodes 1\nreset 1\nprepend 1\n", "link 1\n", "home 1\n"],
        [
            "went 0\ngranted 1\n",
            "refused 1\n",
            "released 0\nline 0 served 1 withdrawn 0 told 0 left 0\n",
        ],
        Some((
            "event",
            3,
            "link 1: node 1 is at Holding, which allows home, write, close",
        )),
    ),
    (
        &["board"],
        ["board workers 1\n", "1 take\n", ""],
        ["stored 0\nfull 0\ntaken 0\nempty 12000\nleft 0\n", "", ""],
        None,
    ),
    (
        &["bank", "--kind", "ring"],
        ["bank workers 1 lines 1\n", "1 in 0 1\n", "1 out 0 7\n"],
        ["in 12000\nout 7\ntotal 11993\n", "", ""],
        None,
    ),
    (
        &["bank", "--sleep"],
        ["bank workers 1 lines 1\n", "1 in 0 1\n", "1 out 0 7\n"],
        ["in 12000\nout 7\ntotal 11993\n", "", ""],
        None,
    ),
];

/// Returns the text.
fn whole(alloc: Global, long: &Long) -> Result<String, Fail> {
    repeated(alloc, long, TIMES)
}

/// Returns the text with its middle part repeated `times` times.
fn repeated(alloc: Global, long: &Long, times: u32) -> Result<String, Fail> {
    let [first, middle, last] = *long;
    let mut text = first.to_string(alloc)?;
    for _ in 0..times {
        text.push_str(middle)?;
    }
    text.push_str(last)?;
    Ok(text)
}

/// Returns an answer, followed by a note on each of the repeated commands or events if there are notes.
fn with_notes(alloc: Global, answer: &str, note: Option<Note>) -> Result<String, Fail> {
    let mut text = answer.to_string(alloc)?;
    if let Some((what, first, note)) = note {
        for before in 0..TIMES {
            let number = before.saturating_add(first);
            text.push_str(format!(in alloc; "{what} {number}, {note}\n")?.as_str())?;
        }
    }
    Ok(text)
}

/// Runs the program, and returns its exit status, standard output and standard error.
fn answered<T: Threads + Wait + Clock + Eprint + Sync>(
    rt: &T,
    alloc: Global,
    words: &[&str],
    script: &str,
) -> Result<(u8, Vec<u8>, String), Fail> {
    let mut reader = script.as_bytes();
    let mut out: Vec<u8> = Vec::new(alloc);
    let (status, err) = run(rt, alloc, words, &mut reader, &mut out)?;
    Ok((status, out, err))
}

/// Checks that a run with these words ends as expected. If it does not, the long text is not printed.
fn expect<T: Threads + Wait + Clock + Eprint + Abort + Sync>(
    rt: &T,
    alloc: Global,
    words: &[&str],
    script: &str,
    want: (u8, &[u8], &str),
) -> Result<(), Fail> {
    let (status, out, err) = answered(rt, alloc, words, script)?;
    assert_eq!(rt; (status, err.as_str()), (want.0, want.2), "of {words:?}");
    assert!(rt; out.as_slice() == want.1, "the answer of {words:?}");
    Ok(())
}

/// Returns these words and `--explain`.
pub fn with_explain<'a>(alloc: Global, words: &[&'a str]) -> Result<Vec<&'a str>, Fail> {
    let mut all = Vec::new(alloc);
    all.extend_from_slice(words)?;
    all.push("--explain")?;
    Ok(all)
}

/// Checks that a run with these words ends as expected, and also a run with these words and `--explain`.
fn expect_both<T: Threads + Wait + Clock + Eprint + Abort + Sync>(
    rt: &T,
    alloc: Global,
    words: &[&str],
    script: &str,
    want: (u8, &[u8], &str),
    explained: (u8, &[u8], &str),
) -> Result<(), Fail> {
    expect(rt, alloc, words, script, want)?;
    let all = with_explain(alloc, words)?;
    expect(rt, alloc, all.as_slice(), script, explained)
}

#[test]
fn a_long_script_is_answered_whole(rt: HostRuntime) -> Result<(), Fail> {
    let alloc = rt.alloc();
    for (words, script, answer, note) in &ANSWERED {
        let script = whole(alloc, script)?;
        let answer = whole(alloc, answer)?;
        let noted = with_notes(alloc, answer.as_str(), *note)?;
        expect_both(
            &rt,
            alloc,
            *words,
            script.as_str(),
            (0, answer.as_bytes(), ""),
            (0, noted.as_bytes(), ""),
        )?;
    }
    Ok(())
}

/// A script of 100,000 commands, the most that a script may have, is answered. The answer has 12.9 MB.
#[test]
fn the_most_commands_are_answered(rt: HostRuntime) -> Result<(), Fail> {
    let alloc = rt.alloc();
    let script = repeated(alloc, &HELD, 99_999)?;
    let answer = repeated(alloc, &SHOWN, 99_999)?;
    let words = ["replay", "--kind", "plain"];
    let want = (0, answer.as_bytes(), "");
    expect(&rt, alloc, words.as_slice(), script.as_str(), want)
}

/// The name of work, a script with the maximum number of jobs, and the report.
static MOST_WORK: [(&str, Long, &str); 2] = [
    (
        "board",
        ["board workers 1\n", "1 take\n", ""],
        "stored 0\nfull 0\ntaken 0\nempty 100000\nleft 0\n",
    ),
    (
        "bank",
        ["bank workers 1 lines 1\n", "1 in 0 1\n", ""],
        "in 100000\nout 0\ntotal 100000\n",
    ),
];

#[test]
fn the_most_jobs_are_done(rt: HostRuntime) -> Result<(), Fail> {
    let alloc = rt.alloc();
    for (name, script, report) in &MOST_WORK {
        let script = repeated(alloc, script, 100_000)?;
        let want = (0, report.as_bytes(), "");
        expect(&rt, alloc, &[*name], script.as_str(), want)?;
    }
    Ok(())
}

/// The number of bytes of a script in which most lines are empty.
const BYTES: usize = 1_500_000;

/// Command lines, the last lines of such a script, and how the run ends. In the refused script, 1,499,976 empty lines
/// precede these.
static BEHIND_EMPTY_LINES: [(&[&str], &str, (u8, &str, &str)); 2] = [
    (
        &["replay", "--kind", "plain"],
        HAND_OVER,
        (0, HANDED_OVER, ""),
    ),
    (
        &["replay", "--kind", "plain", "--explain"],
        "nodes 1 lines 1\nask 1 0\n",
        (
            1,
            "",
            "bad line 1499978\n    ask 1 0\nword 1 is none of enq, poll, write, show, deq, out, shut; for `ask` write `enq`\n",
        ),
    ),
];

#[test]
fn what_is_behind_many_empty_lines_is_answered_or_explained(rt: HostRuntime) -> Result<(), Fail> {
    let alloc = rt.alloc();
    for (words, lines, want) in &BEHIND_EMPTY_LINES {
        let mut script = vec![in alloc; b'\n'; BYTES.saturating_sub(lines.len())]?;
        script.extend_from_slice(lines.as_bytes())?;
        let mut reader = script.as_slice();
        let mut out: Vec<u8> = Vec::new(alloc);
        let (status, err) = run(&rt, alloc, *words, &mut reader, &mut out)?;
        let out = String::from_utf8(out)?;
        assert_eq!(rt; (status, out.as_str(), err.as_str()), *want, "of {words:?}");
    }
    Ok(())
}

/// Command lines, a long script whose last line is refused, and the complaint about that line.
static REFUSED: [(&[&str], Long, &str); 6] = [
    (
        &["replay", "--kind", "link"],
        ["nodes 1 lines 1\n", "show 1 0\n", "ask 1 0\n"],
        "    ask 1 0\nword 1 is none of enq, poll, write, show, deq, out, shut; for `ask` write `enq`\n",
    ),
    (
        &["draw", "--svg"],
        ["nodes 1 lines 1\n", "show 1 0\n", "ask 1 0\n"],
        "    ask 1 0\nword 1 is none of enq, poll, write, show, deq, out, shut; for `ask` write `enq`\n",
    ),
    (
        &["steps"],
        ["nodes 1\n", "link 1\n", "ask 1\n"],
        "    ask 1\nword 1 is none of reset, prepend, link, load, home, done, grant, roll, freed, write, close; for `ask` write `reset`, `prepend` and `link`\n",
    ),
    (
        &["draw", "--steps"],
        ["nodes 1\n", "link 1\n", "ask 1\n"],
        "    ask 1\nword 1 is none of reset, prepend, link, load, home, done, grant, roll, freed, write, close; for `ask` write `reset`, `prepend` and `link`\n",
    ),
    (
        &["board"],
        ["board workers 1\n", "1 take\n", "1 ask\n"],
        "    1 ask\nword 2 is neither put nor take\n",
    ),
    (
        &["bank"],
        ["bank workers 1 lines 1\n", "1 in 0 1\n", "1 ask\n"],
        "    1 ask\nword 2 is none of in, out, move\n",
    ),
];

#[test]
fn the_last_line_of_a_long_script_is_refused(rt: HostRuntime) -> Result<(), Fail> {
    let alloc = rt.alloc();
    let bad_line = "bad line 12002\n";
    for (words, script, reason) in &REFUSED {
        let script = whole(alloc, script)?;
        let mut all = bad_line.to_string(alloc)?;
        all.push_str(*reason)?;
        let explained = (1, b"".as_slice(), all.as_str());
        expect_both(
            &rt,
            alloc,
            *words,
            script.as_str(),
            (1, b"".as_slice(), bad_line),
            explained,
        )?;
    }
    Ok(())
}

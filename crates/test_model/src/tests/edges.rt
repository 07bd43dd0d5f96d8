//! Tests the messages for unusual inputs: numbers just outside their ranges, words that resemble no known word, and
//! bytes that control a terminal.
use crate::tests::reasons::refusal_of;
use crate::tests::rows::expect;
use qolb_explain::complaint_about;
use qolb_script::{Refusal, ScriptKind};
use std::alloc::Global;
use std::process::Abort;
use std::test::Fail;

/// Scripts that should be of these kinds, with the number of the refused line and the complaint about the line.
static EDGES: [(ScriptKind, &str, (u64, &str)); 13] = [
    (
        ScriptKind::Schedule,
        "nodes 2 lock 1\n",
        (1, "    nodes 2 lock 1\nword 3 is not `lines`"),
    ),
    (
        ScriptKind::Steps,
        "nodes 2\nunlink 1\n",
        (
            2,
            "    unlink 1\nword 1 is none of reset, prepend, link, load, home, done, grant, roll, freed, write, close",
        ),
    ),
    (
        ScriptKind::Board,
        "board workers 2\n1 puts 5\n",
        (2, "    1 puts 5\nword 2 is neither put nor take"),
    ),
    (
        ScriptKind::Bank,
        "bank workers 2 lines 1\n1 remove 0 5\n",
        (2, "    1 remove 0 5\nword 2 is none of in, out, move"),
    ),
    (
        ScriptKind::Schedule,
        "nodes 2 lines 1\nenq\0 1 0\n",
        (
            2,
            "    enq\\x00 1 0\nbyte 4, \\x00, is neither a space nor a visible ASCII character",
        ),
    ),
    (
        ScriptKind::Steps,
        "nodes 2\n\u{7}reset 1\n",
        (
            2,
            "    \\x07reset 1\nbyte 1, \\x07, is neither a space nor a visible ASCII character",
        ),
    ),
    (
        ScriptKind::Board,
        "board workers 201\n",
        (
            1,
            "    board workers 201\nword 3 is no number from 1 to 200",
        ),
    ),
    (
        ScriptKind::Schedule,
        "nodes 1 lines 0\n",
        (1, "    nodes 1 lines 0\nword 4 is no number from 1 to 8"),
    ),
    (
        ScriptKind::Bank,
        "bank workers 200 lines 9\n",
        (
            1,
            "    bank workers 200 lines 9\nword 5 is no number from 1 to 8",
        ),
    ),
    (
        ScriptKind::Schedule,
        "nodes 1 lines 8\nenq 1 8\n",
        (2, "    enq 1 8\nword 3 is no number from 0 to 7"),
    ),
    (
        ScriptKind::Steps,
        "nodes 1\nwrite 1 64 ff\n",
        (2, "    write 1 64 ff\nword 3 is no number from 0 to 63"),
    ),
    (
        ScriptKind::Steps,
        "nodes 1 lease 18446744073709551616\n",
        (
            1,
            "    nodes 1 lease 18446744073709551616\nword 4 is no number from 1 to 18446744073709551615",
        ),
    ),
    (
        ScriptKind::Schedule,
        "nodes 1 lines 1 lease 000000000000000000001\n",
        (
            1,
            "    nodes 1 lines 1 lease 000000000000000000001\nword 6 is no number from 1 to 18446744073709551615; a number has at most 20 digits",
        ),
    ),
];

/// Reads a script that should be of this kind, and returns the number of the refused line and the complaint about the
/// line.
fn complaint_of(alloc: Global, kind: ScriptKind, script: &[u8]) -> Result<(u64, String), Fail> {
    let why = refusal_of(alloc, kind, script).ok_or("a refusal")?;
    let complaint = complaint_about(script, why).ok_or("a complaint")?;
    let text = format!(in alloc; "{complaint}")?;
    match why {
        Refusal::Memory => Ok((0, text)),
        Refusal::Line(number, _) => Ok((number, text)),
    }
}

/// Expects that this line of a script is refused with this complaint.
fn expect_said<R: Abort>(
    rt: &R,
    alloc: Global,
    kind: ScriptKind,
    script: &str,
    wanted: (u64, &str),
) -> Result<(), Fail> {
    let (number, text) = complaint_of(alloc, kind, script.as_bytes())?;
    expect(rt, script, (number, text.as_str()), wanted);
    Ok(())
}

#[test]
fn says_what_is_just_outside(rt: HostRuntime) -> Result<(), Fail> {
    for (kind, script, wanted) in &EDGES {
        expect_said(&rt, rt.alloc(), *kind, *script, *wanted)?;
    }
    Ok(())
}

/// Returns `true` if a terminal only displays the byte and does nothing else with it.
fn is_seen(byte: u8) -> bool {
    matches!(byte, b' '..=b'~')
}

/// The complaint about a command whose first word contains this byte, which is not allowed in a script.
fn said_of(alloc: Global, byte: u8) -> Result<String, Fail> {
    Ok(format!(in alloc;
        "    x\\x{byte:02x}y 1 0\nbyte 2, \\x{byte:02x}, is neither a space nor a visible ASCII character"
    )?)
}

/// Checks that a complaint contains no byte on which a terminal acts, except for the newline after the refused line.
#[test]
fn no_byte_of_a_word_acts_on_a_terminal(rt: HostRuntime) -> Result<(), Fail> {
    let alloc = rt.alloc();
    for code in 0..256usize {
        let byte = code as u8;
        let mut script = Vec::from_slice(alloc, b"nodes 2 lines 1\nx")?;
        script.push(byte)?;
        script.extend_from_slice(b"y 1 0\n")?;
        let (number, text) = complaint_of(alloc, ScriptKind::Schedule, &script)?;
        let said = said_of(alloc, byte)?;
        let is_bad = !is_seen(byte) && byte != b'\n';
        let (line, what) = text.as_str().split_once('\n').ok_or("two lines")?;
        let is_safe = line.bytes().all(is_seen) && what.bytes().all(is_seen);
        let is_said = if matches!(byte, b'\t' | b'\r') {
            text.as_str().starts_with(said.as_str())
        } else {
            text.as_str() == said.as_str()
        };
        let found = (number, is_safe, is_said);
        expect(&rt, said.as_str(), found, (2, true, is_bad));
    }
    Ok(())
}

#[test]
fn node_200_is_the_last(rt: HostRuntime) -> Result<(), Fail> {
    let alloc = rt.alloc();
    let mut script = "nodes 200 lines 8\n".to_string(alloc)?;
    for before in 0..200u64 {
        let node = before + 1;
        script.push_str(format!(in alloc; "enq {node} 7\n")?.as_str())?;
    }
    let refused = refusal_of(alloc, ScriptKind::Schedule, script.as_bytes());
    expect(&rt, "200 nodes", refused, None);
    script.push_str("enq 201 7\n")?;
    let wanted = "    enq 201 7\nword 2 is no number from 1 to 200";
    expect_said(
        &rt,
        alloc,
        ScriptKind::Schedule,
        script.as_str(),
        (202, wanted),
    )?;
    let wanted = "    nodes 201 lines 8\nword 2 is no number from 1 to 200";
    let script = "nodes 201 lines 8\n";
    expect_said(&rt, alloc, ScriptKind::Schedule, script, (1, wanted))
}

/// Checks that the complaint shows the first 200 bytes of a line, and that the reader checks all of the line.
#[test]
fn a_byte_that_is_not_shown_is_told(rt: HostRuntime) -> Result<(), Fail> {
    let alloc = rt.alloc();
    let mut shown = String::new(alloc);
    for _ in 0..200u64 {
        shown.push_str("x")?;
    }
    for (more, place) in [("", 201), (shown.as_str(), 401)] {
        let script = format!(in alloc; "nodes 2 lines 1\n{shown}{more}\t\n")?;
        let wanted = format!(in alloc;
            "    {shown} ..\nbyte {place}, \\x09, is neither a space nor a visible ASCII character; spaces separate words"
        )?;
        expect_said(
            &rt,
            alloc,
            ScriptKind::Schedule,
            script.as_str(),
            (2, wanted.as_str()),
        )?;
    }
    Ok(())
}

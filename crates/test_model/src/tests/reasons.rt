//! Tests what is reported about a refused script: the number of the refused line of text, and the first fault in it.
use crate::tests::rows::expect;
use qolb_explain::complaint_about;
use qolb_script::{
    Allowed, Form, Reason, Refusal, ScriptKind, WorkKind, parse_schedule, parse_steps, parse_work,
};
use std::alloc::Global;
use std::process::Abort;
use std::test::Fail;

/// Schedules, each with the number of the refused line and the reason.
static SCHEDULES: [(&str, Option<(u64, Reason)>); 37] = [
    ("", Some((1, Reason::Empty(ScriptKind::Schedule)))),
    ("\n  \n", Some((1, Reason::Empty(ScriptKind::Schedule)))),
    ("\n\t\n", Some((2, Reason::Byte))),
    (
        "node 2 lines\n",
        Some((1, Reason::Begin(ScriptKind::Schedule))),
    ),
    (
        "nodes 2 line 9\n",
        Some((
            1,
            Reason::Word {
                place: 3,
                allowed: Allowed::Lines,
            },
        )),
    ),
    (
        "nodes 2 lines\n",
        Some((1, Reason::Count(Form::Header(ScriptKind::Schedule)))),
    ),
    (
        "nodes 2 lines 1 1\n",
        Some((1, Reason::Count(Form::Header(ScriptKind::Schedule)))),
    ),
    (
        "nodes 0 line 9 leases 0\n",
        Some((
            1,
            Reason::Word {
                place: 3,
                allowed: Allowed::Lines,
            },
        )),
    ),
    (
        "nodes 0 lines 9 leases 0\n",
        Some((
            1,
            Reason::Word {
                place: 5,
                allowed: Allowed::Lease,
            },
        )),
    ),
    (
        "nodes 201 lines 9\n",
        Some((
            1,
            Reason::Number {
                place: 2,
                low: 1,
                high: 200,
            },
        )),
    ),
    (
        "nodes 200 lines 9\n",
        Some((
            1,
            Reason::Number {
                place: 4,
                low: 1,
                high: 8,
            },
        )),
    ),
    (
        "nodes 0 lines 9 lease 0\n",
        Some((
            1,
            Reason::Number {
                place: 2,
                low: 1,
                high: 200,
            },
        )),
    ),
    (
        "nodes 1 lines 9 lease 0\n",
        Some((
            1,
            Reason::Number {
                place: 4,
                low: 1,
                high: 8,
            },
        )),
    ),
    (
        "nodes 1 lines 8 lease 0\n",
        Some((
            1,
            Reason::Number {
                place: 6,
                low: 1,
                high: 18446744073709551615,
            },
        )),
    ),
    (
        "nodes 2 lines 1\nask\n",
        Some((
            2,
            Reason::Word {
                place: 1,
                allowed: Allowed::Commands,
            },
        )),
    ),
    (
        "nodes 2 lines 1\n\nenq 3\n",
        Some((3, Reason::Count(Form::Call))),
    ),
    (
        "nodes 2 lines 1\nenq 1 0 0\n",
        Some((2, Reason::Count(Form::Call))),
    ),
    (
        "nodes 2 lines 1\nwrite 1 0 0\n",
        Some((2, Reason::Count(Form::Write))),
    ),
    ("nodes 2 lines 1\nenq 1 0\r\n", Some((2, Reason::Byte))),
    (
        "nodes 2 lines 1\nenq 3 1\n",
        Some((
            2,
            Reason::Number {
                place: 2,
                low: 1,
                high: 2,
            },
        )),
    ),
    (
        "nodes 2 lines 8\nenq 2 8\n",
        Some((
            2,
            Reason::Number {
                place: 3,
                low: 0,
                high: 7,
            },
        )),
    ),
    (
        "nodes 2 lines 1\npoll +1 0\n",
        Some((
            2,
            Reason::Number {
                place: 2,
                low: 1,
                high: 2,
            },
        )),
    ),
    (
        "nodes 2 lines 1\nwrite 0 1 64 f\n",
        Some((
            2,
            Reason::Number {
                place: 2,
                low: 1,
                high: 2,
            },
        )),
    ),
    (
        "nodes 2 lines 1\nwrite 1 1 64 f\n",
        Some((
            2,
            Reason::Number {
                place: 3,
                low: 0,
                high: 0,
            },
        )),
    ),
    (
        "nodes 2 lines 1\nwrite 1 0 64 f\n",
        Some((
            2,
            Reason::Number {
                place: 4,
                low: 0,
                high: 63,
            },
        )),
    ),
    (
        "nodes 2 lines 1\nwrite 1 0 0 abc\n",
        Some((2, Reason::Hex(5))),
    ),
    (
        "nodes 2 lines 1\nwrite 1 0 63 fg\n",
        Some((2, Reason::Hex(5))),
    ),
    (
        "nodes 2 lines 1\nwrite 1 0 63 00fF\n",
        Some((2, Reason::Fit(5))),
    ),
    ("nodes 2 lines 1\nwrite 1 0 63 fF\n", None),
    ("nodes 200 lines 8 lease 18446744073709551615\n", None),
    (
        "nodes 2 lines 1\nenq 3 0\nenq\n",
        Some((
            2,
            Reason::Number {
                place: 2,
                low: 1,
                high: 2,
            },
        )),
    ),
    ("enq 1 0\n", Some((1, Reason::Begin(ScriptKind::Schedule)))),
    (
        "board workers 0\n",
        Some((1, Reason::Begin(ScriptKind::Schedule))),
    ),
    (
        "\nnodes 2\nenq 1 0\n",
        Some((
            2,
            Reason::Other {
                found: ScriptKind::Steps,
                asked: ScriptKind::Schedule,
            },
        )),
    ),
    (
        "nodes 2 lease 1\n",
        Some((
            1,
            Reason::Other {
                found: ScriptKind::Steps,
                asked: ScriptKind::Schedule,
            },
        )),
    ),
    (
        "board workers 200\n",
        Some((
            1,
            Reason::Other {
                found: ScriptKind::Board,
                asked: ScriptKind::Schedule,
            },
        )),
    ),
    (
        "bank workers 1 lines 8\n",
        Some((
            1,
            Reason::Other {
                found: ScriptKind::Bank,
                asked: ScriptKind::Schedule,
            },
        )),
    ),
];

/// Step scripts, each with the number of the refused line and the reason.
static STEPS: [(&str, Option<(u64, Reason)>); 21] = [
    ("\n", Some((1, Reason::Empty(ScriptKind::Steps)))),
    ("nodes\t2\n", Some((1, Reason::Byte))),
    ("node\n", Some((1, Reason::Begin(ScriptKind::Steps)))),
    (
        "nodes\n",
        Some((1, Reason::Count(Form::Header(ScriptKind::Steps)))),
    ),
    (
        "nodes 2 lease\n",
        Some((1, Reason::Count(Form::Header(ScriptKind::Steps)))),
    ),
    (
        "nodes 0 leases 0\n",
        Some((
            1,
            Reason::Word {
                place: 3,
                allowed: Allowed::Lease,
            },
        )),
    ),
    (
        "nodes 0\n",
        Some((
            1,
            Reason::Number {
                place: 2,
                low: 1,
                high: 200,
            },
        )),
    ),
    (
        "nodes 0 lease 0\n",
        Some((
            1,
            Reason::Number {
                place: 2,
                low: 1,
                high: 200,
            },
        )),
    ),
    (
        "nodes 1 lease 0\n",
        Some((
            1,
            Reason::Number {
                place: 4,
                low: 1,
                high: 18446744073709551615,
            },
        )),
    ),
    (
        "nodes 2\nenq\n",
        Some((
            2,
            Reason::Word {
                place: 1,
                allowed: Allowed::Events,
            },
        )),
    ),
    ("nodes 2\nreset\n", Some((2, Reason::Count(Form::Event)))),
    (
        "nodes 2\nwrite 1 0\n",
        Some((2, Reason::Count(Form::StepWrite))),
    ),
    (
        "nodes 2\nreset 3\n",
        Some((
            2,
            Reason::Number {
                place: 2,
                low: 1,
                high: 2,
            },
        )),
    ),
    (
        "nodes 2\nwrite 3 64 f\n",
        Some((
            2,
            Reason::Number {
                place: 2,
                low: 1,
                high: 2,
            },
        )),
    ),
    (
        "nodes 2\nwrite 1 64 f\n",
        Some((
            2,
            Reason::Number {
                place: 3,
                low: 0,
                high: 63,
            },
        )),
    ),
    ("nodes 2\nwrite 1 0 f\n", Some((2, Reason::Hex(4)))),
    ("nodes 2\nwrite 1 63 ffff\n", Some((2, Reason::Fit(4)))),
    ("nodes 2\nreset 1\nclose 2\nwrite 1 62 ffff\n", None),
    (
        "nodes 2 lines 8\n",
        Some((
            1,
            Reason::Other {
                found: ScriptKind::Schedule,
                asked: ScriptKind::Steps,
            },
        )),
    ),
    (
        "nodes 2 lines 1 lease 3\n",
        Some((
            1,
            Reason::Other {
                found: ScriptKind::Schedule,
                asked: ScriptKind::Steps,
            },
        )),
    ),
    (
        "nodes 2 lines 9\n",
        Some((
            1,
            Reason::Word {
                place: 3,
                allowed: Allowed::Lease,
            },
        )),
    ),
];

/// Returns the reason why a script of this kind is refused.
pub(crate) fn refusal_of(alloc: Global, kind: ScriptKind, text: &[u8]) -> Option<Refusal> {
    match kind {
        ScriptKind::Schedule => parse_schedule(alloc, text).err(),
        ScriptKind::Steps => parse_steps(alloc, text).err(),
        ScriptKind::Board => parse_work(alloc, text, WorkKind::Board).err(),
        ScriptKind::Bank => parse_work(alloc, text, WorkKind::Bank).err(),
    }
}

/// Expects that each script of this kind is refused at the line and for the reason beside it, or that it is accepted.
pub(crate) fn expect_reasons<R: Abort>(
    rt: &R,
    alloc: Global,
    kind: ScriptKind,
    scripts: &[(&str, Option<(u64, Reason)>)],
) {
    for (text, wanted) in scripts {
        let wanted = match wanted {
            Some((line, reason)) => Some(Refusal::Line(*line, *reason)),
            None => None,
        };
        expect(rt, *text, refusal_of(alloc, kind, text.as_bytes()), wanted);
    }
}

#[test]
fn tells_what_is_wrong(rt: HostRuntime) {
    expect_reasons(&rt, rt.alloc(), ScriptKind::Schedule, &SCHEDULES);
    expect_reasons(&rt, rt.alloc(), ScriptKind::Steps, &STEPS);
}

/// Returns the text of a complaint.
fn shown(alloc: Global, script: &[u8]) -> Result<String, Fail> {
    let why = refusal_of(alloc, ScriptKind::Schedule, script).ok_or("a refusal")?;
    let complaint = complaint_about(script, why).ok_or("a complaint")?;
    Ok(format!(in alloc; "{complaint}")?)
}

/// Expects this line in the complaint about a byte of the script.
fn expect_shown<R: Abort>(rt: &R, alloc: Global, script: &[u8], line: &str) -> Result<(), Fail> {
    let found = shown(alloc, script)?;
    let wanted = format!(in alloc;
        "{line}\nbyte 200, \\x1b, is neither a space nor a visible ASCII character"
    )?;
    expect(rt, "the complaint", found.as_str(), wanted.as_str());
    Ok(())
}

#[test]
fn shows_200_bytes_at_most(rt: HostRuntime) -> Result<(), Fail> {
    let alloc = rt.alloc();
    let mut script = Vec::new(alloc);
    let mut wanted = "    ".to_string(alloc)?;
    for _ in 0..199 {
        script.push(b'x')?;
        wanted.push('x')?;
    }
    script.push(b'\x1b')?;
    wanted.push_str("\\x1b")?;
    expect_shown(&rt, alloc, &script, wanted.as_str())?;
    script.push(b'x')?;
    wanted.push_str(" ..")?;
    expect_shown(&rt, alloc, &script, wanted.as_str())
}

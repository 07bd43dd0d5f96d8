//! Tests the reasons for refusing a work script.
use crate::tests::reasons::expect_reasons;
use qolb_script::{Allowed, Form, Reason, ScriptKind};

/// Work scripts of boards, each with the number of the refused line and the reason.
static BOARDS: [(&str, Option<(u64, Reason)>); 16] = [
    ("", Some((1, Reason::Empty(ScriptKind::Board)))),
    (
        "bank workers 1 lines 1\n",
        Some((
            1,
            Reason::Other {
                found: ScriptKind::Bank,
                asked: ScriptKind::Board,
            },
        )),
    ),
    (
        "board workers\n",
        Some((1, Reason::Count(Form::Header(ScriptKind::Board)))),
    ),
    (
        "board worker 0\n",
        Some((
            1,
            Reason::Word {
                place: 2,
                allowed: Allowed::Workers,
            },
        )),
    ),
    (
        "board workers 0\n",
        Some((
            1,
            Reason::Number {
                place: 3,
                low: 1,
                high: 200,
            },
        )),
    ),
    (
        "board workers 1\n2\n",
        Some((2, Reason::Count(Form::Job(ScriptKind::Board)))),
    ),
    (
        "board workers 1\n1 give 3\n",
        Some((
            2,
            Reason::Word {
                place: 2,
                allowed: Allowed::BoardJobs,
            },
        )),
    ),
    (
        "board workers 1\n2 give 3\n",
        Some((2, Reason::NoWorker(1))),
    ),
    ("board workers 7\nput 3\n", Some((2, Reason::NoWorker(7)))),
    (
        "board workers 1\n2 take 3\n",
        Some((2, Reason::Count(Form::Take))),
    ),
    (
        "board workers 1\n2 put\n",
        Some((2, Reason::Count(Form::Put))),
    ),
    (
        "board workers 1\n2 take\n",
        Some((
            2,
            Reason::Number {
                place: 1,
                low: 1,
                high: 1,
            },
        )),
    ),
    (
        "board workers 3\n4 put x\n",
        Some((
            2,
            Reason::Number {
                place: 1,
                low: 1,
                high: 3,
            },
        )),
    ),
    (
        "board workers 1\n1 take\n1 put x\n",
        Some((
            3,
            Reason::Number {
                place: 3,
                low: 0,
                high: 18446744073709551615,
            },
        )),
    ),
    (
        "bank workers 1\n",
        Some((1, Reason::Begin(ScriptKind::Board))),
    ),
    (
        "nodes 1 lines 1\n",
        Some((
            1,
            Reason::Other {
                found: ScriptKind::Schedule,
                asked: ScriptKind::Board,
            },
        )),
    ),
];

/// Work scripts of banks, each with the number of the refused line and the reason.
static BANKS: [(&str, Option<(u64, Reason)>); 23] = [
    (
        "board workers 1\n",
        Some((
            1,
            Reason::Other {
                found: ScriptKind::Board,
                asked: ScriptKind::Bank,
            },
        )),
    ),
    (
        "bank workers 1\n",
        Some((1, Reason::Count(Form::Header(ScriptKind::Bank)))),
    ),
    (
        "bank worker 1 line 1\n",
        Some((
            1,
            Reason::Word {
                place: 2,
                allowed: Allowed::Workers,
            },
        )),
    ),
    (
        "bank workers 1 line 1\n",
        Some((
            1,
            Reason::Word {
                place: 4,
                allowed: Allowed::Lines,
            },
        )),
    ),
    (
        "bank workers 0 lines 9\n",
        Some((
            1,
            Reason::Number {
                place: 3,
                low: 1,
                high: 200,
            },
        )),
    ),
    (
        "bank workers 1 lines 9\n",
        Some((
            1,
            Reason::Number {
                place: 5,
                low: 1,
                high: 8,
            },
        )),
    ),
    (
        "bank workers 1 lines 2\n1\n",
        Some((2, Reason::Count(Form::Job(ScriptKind::Bank)))),
    ),
    (
        "bank workers 1 lines 2\n1 put 2\n",
        Some((
            2,
            Reason::Word {
                place: 2,
                allowed: Allowed::BankJobs,
            },
        )),
    ),
    (
        "bank workers 5 lines 2\n6 put 2\n",
        Some((2, Reason::NoWorker(5))),
    ),
    (
        "bank workers 5 lines 2\nin 0 1\n",
        Some((2, Reason::NoWorker(5))),
    ),
    (
        "bank workers 1 lines 2\n1 in 2\n",
        Some((2, Reason::Count(Form::Payment))),
    ),
    (
        "bank workers 1 lines 2\n2 in 16 x\n",
        Some((
            2,
            Reason::Number {
                place: 1,
                low: 1,
                high: 1,
            },
        )),
    ),
    (
        "bank workers 1 lines 2\n1 in 16 x\n",
        Some((
            2,
            Reason::Number {
                place: 3,
                low: 0,
                high: 15,
            },
        )),
    ),
    (
        "bank workers 1 lines 2\n1 out 15 x\n",
        Some((
            2,
            Reason::Number {
                place: 4,
                low: 0,
                high: 18446744073709551615,
            },
        )),
    ),
    (
        "bank workers 1 lines 2\n1 move 1 2\n",
        Some((2, Reason::Count(Form::Move))),
    ),
    (
        "bank workers 1 lines 2\n2 move 16 16 x\n",
        Some((
            2,
            Reason::Number {
                place: 1,
                low: 1,
                high: 1,
            },
        )),
    ),
    (
        "bank workers 1 lines 2\n1 move 16 16 x\n",
        Some((
            2,
            Reason::Number {
                place: 3,
                low: 0,
                high: 15,
            },
        )),
    ),
    (
        "bank workers 1 lines 2\n1 move 15 16 x\n",
        Some((
            2,
            Reason::Number {
                place: 4,
                low: 0,
                high: 15,
            },
        )),
    ),
    (
        "bank workers 1 lines 2\n1 move 15 15 x\n",
        Some((
            2,
            Reason::Number {
                place: 5,
                low: 0,
                high: 18446744073709551615,
            },
        )),
    ),
    (
        "bank workers 1 lines 2\n1 in 0 5\t\n",
        Some((2, Reason::Byte)),
    ),
    ("bank workers 1 lines 2\n1 move 0 15 5\n", None),
    ("", Some((1, Reason::Empty(ScriptKind::Bank)))),
    (
        "nodes 4\n",
        Some((
            1,
            Reason::Other {
                found: ScriptKind::Steps,
                asked: ScriptKind::Bank,
            },
        )),
    ),
];

#[test]
fn tells_what_is_wrong_with_work(rt: HostRuntime) {
    expect_reasons(&rt, rt.alloc(), ScriptKind::Board, &BOARDS);
    expect_reasons(&rt, rt.alloc(), ScriptKind::Bank, &BANKS);
}

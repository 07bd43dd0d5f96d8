//! Tests the message for each fault in a script. The message says what would be allowed in place of the faulty text,
//! and which form the line of text must have.
use crate::tests::rows::expect;
use qolb_explain::Complaint;
use qolb_script::{Allowed, Form, Reason, ScriptKind};
use std::test::Fail;

/// Lines with the reasons why they are refused, each with the complaint.
static TEXTS: [(&str, Reason, &str); 56] = [
    (
        "",
        Reason::Empty(ScriptKind::Schedule),
        "no line has a word, and a script begins with `nodes N lines L`",
    ),
    (
        "",
        Reason::Empty(ScriptKind::Steps),
        "no line has a word, and a script begins with `nodes N`",
    ),
    (
        "",
        Reason::Empty(ScriptKind::Board),
        "no line has a word, and a script begins with `board workers W`",
    ),
    (
        "",
        Reason::Empty(ScriptKind::Bank),
        "no line has a word, and a script begins with `bank workers W lines L`",
    ),
    (
        "enq 1 0",
        Reason::Begin(ScriptKind::Schedule),
        "    enq 1 0\na script begins with `nodes N lines L`",
    ),
    (
        "reset 1",
        Reason::Begin(ScriptKind::Steps),
        "    reset 1\na script begins with `nodes N`",
    ),
    (
        "1 take",
        Reason::Begin(ScriptKind::Board),
        "    1 take\na script begins with `board workers W`",
    ),
    (
        "1 in 0 1",
        Reason::Begin(ScriptKind::Bank),
        "    1 in 0 1\na script begins with `bank workers W lines L`",
    ),
    (
        "nodes 2 lines 1",
        Reason::Other {
            found: ScriptKind::Schedule,
            asked: ScriptKind::Steps,
        },
        "    nodes 2 lines 1\nthis begins a schedule, for `qolb replay` and `qolb draw`; a step script begins with `nodes N`",
    ),
    (
        "nodes 2",
        Reason::Other {
            found: ScriptKind::Steps,
            asked: ScriptKind::Schedule,
        },
        "    nodes 2\nthis begins a step script, for `qolb steps` and `qolb draw --steps`; a schedule begins with `nodes N lines L`",
    ),
    (
        "board workers 2",
        Reason::Other {
            found: ScriptKind::Board,
            asked: ScriptKind::Bank,
        },
        "    board workers 2\nthis begins a board script, for `qolb board`; a bank script begins with `bank workers W lines L`",
    ),
    (
        "bank workers 2 lines 1",
        Reason::Other {
            found: ScriptKind::Bank,
            asked: ScriptKind::Board,
        },
        "    bank workers 2 lines 1\nthis begins a bank script, for `qolb bank`; a board script begins with `board workers W`",
    ),
    (
        "enq 1 0\r",
        Reason::Byte,
        "    enq 1 0\\x0d\nbyte 8, \\x0d, is neither a space nor a visible ASCII character; a line ends with \\x0a alone",
    ),
    (
        " enq\t1\t0",
        Reason::Byte,
        "     enq\\x091\\x090\nbyte 5, \\x09, is neither a space nor a visible ASCII character; spaces separate words",
    ),
    (
        "\u{feff}nodes 2",
        Reason::Byte,
        "    \\xef\\xbb\\xbfnodes 2\nbyte 1, \\xef, is neither a space nor a visible ASCII character; a script has no byte order mark",
    ),
    (
        "nodes\u{feff} 2",
        Reason::Byte,
        "    nodes\\xef\\xbb\\xbf 2\nbyte 6, \\xef, is neither a space nor a visible ASCII character",
    ),
    (
        "\u{fb01} 1 0",
        Reason::Byte,
        "    \\xef\\xac\\x81 1 0\nbyte 1, \\xef, is neither a space nor a visible ASCII character",
    ),
    (
        "~\u{7f}\r",
        Reason::Byte,
        "    ~\\x7f\\x0d\nbyte 2, \\x7f, is neither a space nor a visible ASCII character",
    ),
    (
        "enq 3 0",
        Reason::Number {
            place: 2,
            low: 1,
            high: 2,
        },
        "    enq 3 0\nword 2 is no number from 1 to 2",
    ),
    (
        "enq 1 1",
        Reason::Number {
            place: 3,
            low: 0,
            high: 0,
        },
        "    enq 1 1\nword 3 is not 0",
    ),
    (
        "in 0 1",
        Reason::Number {
            place: 1,
            low: 1,
            high: 2,
        },
        "    in 0 1\nword 1 is no number from 1 to 2; a job begins with the number of its worker",
    ),
    (
        "2 take",
        Reason::Number {
            place: 1,
            low: 1,
            high: 1,
        },
        "    2 take\nword 1 is not 1; a job begins with the number of its worker",
    ),
    (
        "enq 000000000000000000001 0",
        Reason::Number {
            place: 2,
            low: 1,
            high: 2,
        },
        "    enq 000000000000000000001 0\nword 2 is no number from 1 to 2; a number has at most 20 digits",
    ),
    (
        "enq 1 000000000000000000000",
        Reason::Number {
            place: 3,
            low: 0,
            high: 0,
        },
        "    enq 1 000000000000000000000\nword 3 is not 0; a number has at most 20 digits",
    ),
    (
        "000000000000000000001 take",
        Reason::Number {
            place: 1,
            low: 1,
            high: 2,
        },
        "    000000000000000000001 take\nword 1 is no number from 1 to 2; a number has at most 20 digits; a job begins with the number of its worker",
    ),
    (
        "enq 00000000000000000003 0",
        Reason::Number {
            place: 2,
            low: 1,
            high: 2,
        },
        "    enq 00000000000000000003 0\nword 2 is no number from 1 to 2",
    ),
    (
        "enq 1x0000000000000000000 0",
        Reason::Number {
            place: 2,
            low: 1,
            high: 2,
        },
        "    enq 1x0000000000000000000 0\nword 2 is no number from 1 to 2",
    ),
    (
        "write 1 0 0 a",
        Reason::Hex(5),
        "    write 1 0 0 a\nword 5 is not hex, of two digits a byte",
    ),
    (
        "write 1 63 abcd",
        Reason::Fit(4),
        "    write 1 63 abcd\nthe bytes of word 4 do not fit: a line has 64",
    ),
    (
        "withdraw 1 0",
        Reason::Word {
            place: 1,
            allowed: Allowed::Commands,
        },
        "    withdraw 1 0\nword 1 is none of enq, poll, write, show, deq, out, shut; for `withdraw` write `out`",
    ),
    (
        "withdraws 1 0",
        Reason::Word {
            place: 1,
            allowed: Allowed::Commands,
        },
        "    withdraws 1 0\nword 1 is none of enq, poll, write, show, deq, out, shut",
    ),
    (
        "1 enq 0",
        Reason::Word {
            place: 1,
            allowed: Allowed::Commands,
        },
        "    1 enq 0\nword 1 is none of enq, poll, write, show, deq, out, shut",
    ),
    (
        "Release 1 0",
        Reason::Word {
            place: 1,
            allowed: Allowed::Commands,
        },
        "    Release 1 0\nword 1 is none of enq, poll, write, show, deq, out, shut; for `Release` write `deq`",
    ),
    (
        "poll 1",
        Reason::Word {
            place: 1,
            allowed: Allowed::Events,
        },
        "    poll 1\nword 1 is none of reset, prepend, link, load, home, done, grant, roll, freed, write, close; for `poll` write `load`",
    ),
    (
        "1 push 5",
        Reason::Word {
            place: 2,
            allowed: Allowed::BoardJobs,
        },
        "    1 push 5\nword 2 is neither put nor take; for `push` write `put`",
    ),
    (
        " 1   push 5",
        Reason::Word {
            place: 2,
            allowed: Allowed::BoardJobs,
        },
        "     1   push 5\nword 2 is neither put nor take; for `push` write `put`",
    ),
    (
        "1 withdraw 0 5",
        Reason::Word {
            place: 2,
            allowed: Allowed::BankJobs,
        },
        "    1 withdraw 0 5\nword 2 is none of in, out, move; for `withdraw` write `out`",
    ),
    (
        "nodes 2 line 1",
        Reason::Word {
            place: 3,
            allowed: Allowed::Lines,
        },
        "    nodes 2 line 1\nword 3 is not `lines`",
    ),
    (
        "nodes 2 leases 1",
        Reason::Word {
            place: 3,
            allowed: Allowed::Lease,
        },
        "    nodes 2 leases 1\nword 3 is not `lease`",
    ),
    (
        "nodes 2 lines 1 leases 1",
        Reason::Word {
            place: 5,
            allowed: Allowed::Lease,
        },
        "    nodes 2 lines 1 leases 1\nword 5 is not `lease`",
    ),
    (
        "board worker 1",
        Reason::Word {
            place: 2,
            allowed: Allowed::Workers,
        },
        "    board worker 1\nword 2 is not `workers`",
    ),
    (
        "nodes 2 lines",
        Reason::Count(Form::Header(ScriptKind::Schedule)),
        "    nodes 2 lines\nwrong number of words, the form is `nodes N lines L` or `nodes N lines L lease C`",
    ),
    (
        "nodes",
        Reason::Count(Form::Header(ScriptKind::Steps)),
        "    nodes\nwrong number of words, the form is `nodes N` or `nodes N lease C`",
    ),
    (
        "board workers",
        Reason::Count(Form::Header(ScriptKind::Board)),
        "    board workers\nwrong number of words, the form is `board workers W`",
    ),
    (
        "bank workers",
        Reason::Count(Form::Header(ScriptKind::Bank)),
        "    bank workers\nwrong number of words, the form is `bank workers W lines L`",
    ),
    (
        "shut 1",
        Reason::Count(Form::Call),
        "    shut 1\nwrong number of words, the form is `shut NODE LINE`",
    ),
    (
        "write 1",
        Reason::Count(Form::Write),
        "    write 1\nwrong number of words, the form is `write NODE LINE OFFSET HEX`",
    ),
    (
        " roll ",
        Reason::Count(Form::Event),
        "     roll \nwrong number of words, the form is `roll NODE`",
    ),
    (
        "write 1",
        Reason::Count(Form::StepWrite),
        "    write 1\nwrong number of words, the form is `write NODE OFFSET HEX`",
    ),
    (
        "1",
        Reason::Count(Form::Job(ScriptKind::Board)),
        "    1\nwrong number of words, the form is `WORKER put TASK` or `WORKER take`",
    ),
    (
        "1",
        Reason::Count(Form::Job(ScriptKind::Bank)),
        "    1\nwrong number of words, the form is `WORKER in ACCOUNT AMOUNT`, the same with `out`, or `WORKER move FROM TO AMOUNT`",
    ),
    (
        "1 put",
        Reason::Count(Form::Put),
        "    1 put\nwrong number of words, the form is `WORKER put TASK`",
    ),
    (
        "1 take 5",
        Reason::Count(Form::Take),
        "    1 take 5\nwrong number of words, the form is `WORKER take`",
    ),
    (
        "1 out 5",
        Reason::Count(Form::Payment),
        "    1 out 5\nwrong number of words, the form is `WORKER out ACCOUNT AMOUNT`",
    ),
    (
        "1  out 5",
        Reason::Count(Form::Payment),
        "    1  out 5\nwrong number of words, the form is `WORKER out ACCOUNT AMOUNT`",
    ),
    (
        "1 move 5",
        Reason::Count(Form::Move),
        "    1 move 5\nwrong number of words, the form is `WORKER move FROM TO AMOUNT`",
    ),
];

#[test]
fn says_what_may_stand_there(rt: HostRuntime) -> Result<(), Fail> {
    for (line, reason, wanted) in &TEXTS {
        let complaint = Complaint {
            line: line.as_bytes(),
            reason: *reason,
        };
        let text = format!(in rt.alloc(); "{complaint}")?;
        expect(&rt, *line, text.as_str(), *wanted);
    }
    Ok(())
}

//! Tests the option `--explain`, with which the program prints, for a refused script, what would be allowed.
use crate::tests::runs::{expect, told};
use std::test::Fail;

/// Command lines with `--explain`, scripts that are refused, and the explanations. There is one for each kind of fault,
/// except for a line past the largest line number, because such a test takes long.
static EXPLAINED: [(&[&str], &str, &str); 17] = [
    (
        &["replay", "--kind", "plain"],
        "",
        "bad line 1\nno line has a word, and a script begins with `nodes N lines L`\n",
    ),
    (
        &["replay", "--kind", "ring"],
        "nodes 2 lines 1\n\n  enq\t1 0\u{e9}\0\u{7f}~\\ \n",
        "bad line 3\n      enq\\x091 0\\xc3\\xa9\\x00\\x7f~\\ \nbyte 6, \\x09, is neither a space nor a visible ASCII character; spaces separate words\n",
    ),
    (
        &["replay", "--kind", "link"],
        "nodes 2 lines 1\nenq 1 0\nask 1 0",
        "bad line 3\n    ask 1 0\nword 1 is none of enq, poll, write, show, deq, out, shut; for `ask` write `enq`\n",
    ),
    (
        &["replay", "--kind", "ticket"],
        "nodes 2 lines 1\nenq 1\n",
        "bad line 2\n    enq 1\nwrong number of words, the form is `enq NODE LINE`\n",
    ),
    (
        &["replay", "--kind", "plain"],
        "nodes 2 lines 1\nenq  3 0\n",
        "bad line 2\n    enq  3 0\nword 2 is no number from 1 to 2\n",
    ),
    (
        &["draw"],
        "nodes 2 lines 1\nwrite 1 0 0 abc\n",
        "bad line 2\n    write 1 0 0 abc\nword 5 is not hex, of two digits a byte\n",
    ),
    (
        &["draw", "--svg"],
        "nodes 2 lines 1\nwrite 1 0 63 ffff\n",
        "bad line 2\n    write 1 0 63 ffff\nthe bytes of word 5 do not fit: a line has 64\n",
    ),
    (
        &["steps"],
        "nodes 2\nenq 1\n",
        "bad line 2\n    enq 1\nword 1 is none of reset, prepend, link, load, home, done, grant, roll, freed, write, close; for `enq` write `reset`, `prepend` and `link`\n",
    ),
    (
        &["draw", "--steps"],
        "nodes 2\nload\n",
        "bad line 2\n    load\nwrong number of words, the form is `load NODE`\n",
    ),
    (
        &["draw", "--steps", "--svg"],
        "nodes 2\nreset 3\n",
        "bad line 2\n    reset 3\nword 2 is no number from 1 to 2\n",
    ),
    (
        &["steps", "--rank"],
        "nodes 0\n",
        "bad line 1\n    nodes 0\nword 2 is no number from 1 to 200\n",
    ),
    (
        &["board"],
        "board workers 3\n1 give 2\n",
        "bad line 2\n    1 give 2\nword 2 is neither put nor take; for `give` write `put`\n",
    ),
    (
        &["board", "--progress"],
        "board workers 3\n4 take\n",
        "bad line 2\n    4 take\nword 1 is no number from 1 to 3; a job begins with the number of its worker\n",
    ),
    (
        &["board", "--sleep"],
        "bank workers 3 lines 1\n",
        "bad line 1\n    bank workers 3 lines 1\nthis begins a bank script, for `qolb bank`; a board script begins with `board workers W`\n",
    ),
    (
        &["bank"],
        "bank workers 3 lines 2\n1 move 0 16 5\n",
        "bad line 2\n    1 move 0 16 5\nword 4 is no number from 0 to 15\n",
    ),
    (
        &["bank", "--kind", "ring"],
        "board workers 3\n",
        "bad line 1\n    board workers 3\nthis begins a board script, for `qolb board`; a bank script begins with `bank workers W lines L`\n",
    ),
    (
        &["bank"],
        "bank workers 1 lines 1 lines 1\n",
        "bad line 1\n    bank workers 1 lines 1 lines 1\nwrong number of words, the form is `bank workers W lines L`\n",
    ),
];

#[test]
fn explains_what_was_wrong(rt: HostRuntime) -> Result<(), Fail> {
    let alloc = rt.alloc();
    for (words, script, told) in &EXPLAINED {
        let mut all: Vec<&str> = Vec::new(alloc);
        for word in *words {
            all.push(*word)?;
        }
        let (first, _) = told.split_once('\n').ok_or("a line")?;
        let plain = format!(in alloc; "{first}\n")?;
        expect(&rt, alloc, all.as_slice(), *script, (1, "", plain.as_str()))?;
        all.push("--explain")?;
        expect(&rt, alloc, all.as_slice(), *script, (1, "", *told))?;
    }
    Ok(())
}

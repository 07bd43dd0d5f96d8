//! Tests the commands that draw pictures and that run step scripts.
use crate::tests::runs::{expect, told};
use std::test::Fail;

/// Command lines of `draw` that are refused.
static NO_DRAWING: [&[&str]; 4] = [
    &["draw", "--kind"],
    &["draw", "plain"],
    &["draw", "--svg=1"],
    &["draw", "--steps=1"],
];

/// A schedule in which one node hands the line over to another.
const DRAWN: &str = "nodes 2 lines 1\nenq 1 0\nenq 2 0\ndeq 1 0\npoll 2 0\n";

/// A step script in which one node acquires and releases the line.
const STEPPED: &str = "nodes 1\nreset 1\nprepend 1\nhome 1\n";

/// Command lines, each with a script, the beginning of its picture, and another part of the picture.
static PICTURES: [(&[&str], &str, &str, &str); 4] = [
    (
        &["draw"],
        DRAWN,
        "line 0\n\n         1234\nnode   1 HH>.\nnode   2 .w<H\n\n",
        ". idle   w waits",
    ),
    (
        &["draw", "--svg"],
        DRAWN,
        "<svg ",
        "<path class='arrow' d='M160 68V108'><title>3: node 1 hands over to node 2</title></path>",
    ),
    (
        &["draw", "--steps"],
        STEPPED,
        "1\nr      1: reset 1: went; the line lies at home\n",
        ". Idle   r Ready",
    ),
    (
        &["draw", "--svg", "--steps"],
        STEPPED,
        "<svg ",
        "<title>2: prepend 1: granted</title>",
    ),
];

#[test]
fn draws_in_each_form(rt: HostRuntime) -> Result<(), Fail> {
    for (words, script, first, part) in &PICTURES {
        let (status, out, err) = told(&rt, rt.alloc(), *words, *script)?;
        assert_eq!(rt; (status, err.as_str()), (0, ""), "of {words:?}");
        assert!(rt;
            out.starts_with(*first) && out.contains(*part),
            "of {words:?}"
        );
    }
    Ok(())
}

/// Scripts whose second line is malformed or has a number out of range, with the command lines that refuse them.
static FAULTY: [(&[&str], &str); 6] = [
    (&["draw"], "nodes 2 lines 1\nenq 3 0"),
    (&["draw"], "nodes 2 lines 1\nenq 1"),
    (&["steps"], "nodes 2\nreset 3\n"),
    (&["steps"], "nodes 2\nreset\n"),
    (&["draw", "--steps"], "nodes 2\nreset 3\n"),
    (&["draw", "--steps", "--svg"], "nodes 2\nreset\n"),
];

#[test]
fn refuses_to_draw_and_to_step(rt: HostRuntime) -> Result<(), Fail> {
    let refused = (1, "", "bad line 2\n");
    for (words, script) in &FAULTY {
        expect(&rt, rt.alloc(), *words, *script, refused)?;
    }
    for words in &NO_DRAWING {
        let (status, out, _) = told(&rt, rt.alloc(), *words, DRAWN)?;
        assert_eq!(rt; (status, out.as_str()), (2, ""), "of {words:?}");
    }
    Ok(())
}

/// Step scripts with their answers and the last line of the answer. In the scripts and answers, `, ` stands for a
/// newline.
static STEPS: [(&str, &str, &str); 11] = [
    // no event
    ("nodes 2", "", "line 0 served 0 withdrawn 0 told 0 left 0"),
    // a releasing node leaves the line to a node that stopped before it linked itself
    (
        "nodes 2, reset 1, prepend 1, write 1 0 ab, reset 2, prepend 2, home 1, done 1, load 1, link 2, load 1, reset 1, prepend 1, link 1",
        "went, granted, went, went, went, went, released, busy, granted, free, went, went, queued",
        "line 0 served 1 withdrawn 0 told 0 left 2",
    ),
    // a node withdraws before it is granted
    (
        "nodes 2, reset 1, prepend 1, reset 2, prepend 2, link 2, home 1, done 1, roll 2, grant 1, home 1, load 2, freed 1, load 2",
        "went, granted, went, went, queued, went, went, withdrawn, went, went, busy, released, free",
        "line 0 served 1 withdrawn 1 told 0 left 0",
    ),
    // a node withdraws after it is granted
    (
        "nodes 2, reset 1, prepend 1, reset 2, prepend 2, link 2, home 1, done 1, grant 1, roll 2",
        "went, granted, went, went, queued, went, went, released, granted",
        "line 0 served 1 withdrawn 0 told 0 left 1",
    ),
    // a closed line is passed on at once
    (
        "nodes 2, reset 1, prepend 1, close 1, home 1, reset 1, prepend 1, home 1",
        "went, granted, went, shut, went, went, closed",
        "line 0 served 1 withdrawn 0 told 1 left 0",
    ),
    // events that are not enabled
    (
        "nodes 1, link 1, prepend 1, reset 1, home 1",
        "refused, refused, went, refused",
        "line 0 served 0 withdrawn 0 told 0 left 0",
    ),
    // a chain of withdrawn nodes that ends at a late linker
    (
        "nodes 4, reset 1, prepend 1, reset 2, prepend 2, link 2, reset 3, prepend 3, link 3, roll 2, roll 3, reset 4, prepend 4, home 1, done 1, grant 1, home 1, done 1, grant 1, home 1, done 1, freed 1, freed 1, load 2, load 3, link 4, load 3",
        "went, granted, went, went, queued, went, went, queued, withdrawn, withdrawn, went, went, went, went, went, went, went, went, went, went, went, released, free, busy, granted, free",
        "line 0 served 1 withdrawn 2 told 0 left 1",
    ),
    // a closed line passes a withdrawn node
    (
        "nodes 3, reset 1, prepend 1, reset 2, prepend 2, link 2, reset 3, prepend 3, link 3, roll 2, close 1, home 1, done 1, grant 1, home 1, done 1, grant 1, freed 1, load 3, home 3, load 2",
        "went, granted, went, went, queued, went, went, queued, withdrawn, went, went, went, went, went, went, went, shut, went, closed, free",
        "line 0 served 1 withdrawn 1 told 1 left 0",
    ),
    // a told node is busy before the late link of another node, and free after it
    (
        "nodes 2, reset 1, prepend 1, close 1, home 1, reset 2, prepend 2, reset 1, prepend 1, home 2, done 2, load 2, link 1, home 1, load 2",
        "went, granted, went, shut, went, went, went, went, went, closed, busy, went, closed, free",
        "line 0 served 1 withdrawn 0 told 2 left 0",
    ),
    // the last turn of a lease closes the line
    (
        "nodes 1 lease 1, reset 1, prepend 1, home 1, reset 1, prepend 1, home 1",
        "went, granted, shut, went, went, closed",
        "line 0 served 1 withdrawn 0 told 1 left 0",
    ),
    // the script ends in the middle of a release
    (
        "nodes 2, reset 1, prepend 1, reset 2, prepend 2, link 2, home 1",
        "went, granted, went, went, queued, went",
        "line 0 served 0 withdrawn 0 told 0 left 2",
    ),
];

#[test]
fn runs_step_scripts(rt: HostRuntime) -> Result<(), Fail> {
    let alloc = rt.alloc();
    for (script, words, summary) in &STEPS {
        let script = script.replace(alloc, ", ", "\n")?;
        let mut want = words.replace(alloc, ", ", "\n")?;
        if !want.is_empty() {
            want.push_str("\n")?;
        }
        want.push_str(*summary)?;
        want.push_str("\n")?;
        expect(
            &rt,
            alloc,
            &["steps"],
            script.as_str(),
            (0, want.as_str(), ""),
        )?;
    }
    Ok(())
}

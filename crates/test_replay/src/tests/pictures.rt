//! Tests the pictures that are drawn from schedules, which are scripts of calls.
use crate::tests::rows::{expect, expect_refusals};
use crate::tests::styles::{Sheet, are_seen, signs_differ};
use qolb_draw::{Form, draw_schedule};
use std::alloc::Global;
use std::str;
use std::test::Fail;

/// Returns the picture of the script.
fn drawn(alloc: Global, script: &str, form: Form) -> Result<String, Fail> {
    Ok(String::from_utf8(draw_schedule(alloc, script.as_bytes(), form)?)?)
}

const LETTERS: &str =
    ". idle   w waits   t its turn has come   H holds   > hands over to <\nx withdrawn   c told that the line is closed   - closed   ! misuse\n";

const HAND_OVER: &str = "nodes 2 lines 1\nenq 1 0\nenq 2 0\npoll 2 0\ndeq 1 0\npoll 2 0\n";

const MISUSED: &str =
    "nodes 2 lines 1\npoll 1 0\nenq 1 0\nenq 1 0\nenq 2 0\ndeq 2 0\ndeq 1 0\nshow 2 0\npoll 2 0\n";

/// Scripts and their pictures, without the legend.
static PICTURES: [(&str, &str); 3] = [
    // a withdrawn node is passed, and makes a new request
    (
        "nodes 3 lines 1\nenq 1 0\nenq 2 0\nenq 3 0\nout 2 0\nenq 2 0\ndeq 1 0\nenq 2 0\npoll 3 0\ndeq 3 0\npoll 2 0\n",
        "line 0\n\n                  1\n         1234567890\nnode   1 HHHHH>....\nnode   2 .wwxx.ww<H\nnode   3 ..www<tH>.\n\n",
    ),
    // the waiters are told in turn that the line is closed, and a told node passes the withdrawn node behind it
    (
        "nodes 4 lines 1\nenq 1 0\nenq 2 0\nenq 3 0\nenq 4 0\nout 3 0\nshut 1 0\nenq 3 0\npoll 2 0\nenq 3 0\npoll 4 0\n",
        "line 0\n\n                  1\n         1234567890\nnode   1 HHHHH>----\nnode   2 .wwww<tc--\nnode   3 ..wwxxx-w<\nnode   4 ...wwww<tc\n\n",
    ),
    // commands on two lines; a command that is misuse changes nothing
    (
        "nodes 12 lines 2\nenq 12 1\nenq 3 0\ndeq 3 1\ndeq 12 1\ndeq 3 0\n",
        "line 0\n\n         25\nnode   3 H.\n\nline 1\n\n         134\nnode   3 .!.\nnode  12 HH.\n\n",
    ),
];

#[test]
fn draws_scripts(rt: HostRuntime) -> Result<(), Fail> {
    for (script, picture) in &PICTURES {
        let whole = format!(in rt.alloc(); "{picture}{LETTERS}")?;
        expect(&rt, script, drawn(rt.alloc(), script, Form::Text)?, whole);
    }
    Ok(())
}

/// A script of 100,000 commands by 200 nodes, on the last of eight lines. The first node holds the line, and each other
/// node waits from its first command on.
fn largest_script(alloc: Global) -> Result<String, Fail> {
    let mut script = String::from_str(alloc, "nodes 200 lines 8\n")?;
    for node in 1..201u64 {
        script.push_str(format!(in alloc; "enq {node} 7\n")?.as_str())?;
    }
    for _ in 200..100_000 {
        script.push_str("poll 200 7\n")?;
    }
    Ok(script)
}

/// The size of the largest picture, without the legend. The heads of the eight lines take eight letters each. A block
/// of the last line has a row for each of the 200 nodes and, above these, a row for each digit of its largest number.
/// Each row has a label of nine letters, a letter for each command of the block, and a newline; another newline is
/// above each block. 1,428 blocks have 70 commands: the largest number of the first block has two digits, those of 13
/// blocks have three, those of 128 blocks four, and those of 1,286 blocks five. The last block has 40 commands, and its
/// largest number has six digits.
const LARGEST: usize = 8 * 8 + 1_429 + 80 * (202 + 13 * 203 + 128 * 204 + 1_286 * 205) + 50 * 206;

/// How the picture of the last line begins, after seven lines without rows.
const FIRST_ROWS: &str =
    "line 0\n\nline 1\n\nline 2\n\nline 3\n\nline 4\n\nline 5\n\nline 6\n\nline 7\n
                  1111111111222222222233333333334444444444555555555566666666667
         1234567890123456789012345678901234567890123456789012345678901234567890
node   1 HHHHHHHHHHHHHHHHHHHHHHHHHHHHHHHHHHHHHHHHHHHHHHHHHHHHHHHHHHHHHHHHHHHHHH
node   2 .wwwwwwwwwwwwwwwwwwwwwwwwwwwwwwwwwwwwwwwwwwwwwwwwwwwwwwwwwwwwwwwwwwwww
";

/// How the picture of the last line ends.
const LAST_ROWS: &str =
    "node 199 wwwwwwwwwwwwwwwwwwwwwwwwwwwwwwwwwwwwwwww\nnode 200 wwwwwwwwwwwwwwwwwwwwwwwwwwwwwwwwwwwwwwww\n\n";

#[test]
fn draws_as_many_marks_as_there_may_be(rt: HostRuntime) -> Result<(), Fail> {
    let script = largest_script(rt.alloc())?;
    let picture = draw_schedule(rt.alloc(), script.as_bytes(), Form::Text)?;
    expect(
        &rt,
        "the size",
        picture.len(),
        LARGEST.saturating_add(LETTERS.len()),
    );
    expect(
        &rt,
        "the first rows",
        picture.starts_with(FIRST_ROWS.as_bytes()),
        true,
    );
    let end = format!(in rt.alloc(); "{LAST_ROWS}{LETTERS}")?;
    expect(
        &rt,
        "the last rows",
        picture.ends_with(end.as_bytes()),
        true,
    );
    Ok(())
}

/// The number of bytes after the bar of the last node: its name, repeated every 20 commands, and then the shapes of
/// 100,000 commands. Searching for the bar from the front would take long.
const BEHIND_THE_LAST_BAR: usize = 19_151_203;

#[test]
fn draws_as_many_marks_as_an_svg(rt: HostRuntime) -> Result<(), Fail> {
    let script = largest_script(rt.alloc())?;
    let svg = draw_schedule(rt.alloc(), script.as_bytes(), Form::Svg)?;
    // seven lines without rows, and one with 200
    let head = "<svg xmlns='http://www.w3.org/2000/svg' width='3200128' height='8544' ";
    expect(&rt, "the size", svg.starts_with(head.as_bytes()), true);
    let first = svg.get(..10_000).ok_or("a beginning")?;
    expect(
        &rt,
        "the first bar",
        str::from_utf8(first)?.contains(
            "<rect class='holds' x='96' y='60' width='3200000' height='16'><title>node 1 holds the line</title></rect>\n",
        ),
        true,
    );
    // the bar from the last node's request to the end
    let last =
        "<rect class='waits' x='6464' y='8020' width='3193632' height='16'><title>node 200 waits</title></rect>\n";
    let to_last = svg
        .get(..svg.len().saturating_sub(BEHIND_THE_LAST_BAR))
        .ok_or("a last bar")?;
    expect(
        &rt,
        "the last bar",
        to_last.ends_with(last.as_bytes()),
        true,
    );
    let end =
        "<title>100000: poll 200 7: waiting</title></use>\n<text class='small' x='3200064' y='47'>poll</text>\n</g>\n</svg>\n";
    expect(&rt, "the end", svg.ends_with(end.as_bytes()), true);
    Ok(())
}

#[test]
fn each_allocation_is_refused(rt: HostRuntime) -> Result<(), Fail> {
    let whole = drawn(rt.alloc(), HAND_OVER, Form::Svg)?;
    expect_refusals(&rt, rt.alloc(), |heap| {
        let picture = draw_schedule(heap, HAND_OVER.as_bytes(), Form::Svg)?;
        Ok(picture.as_slice() == whole.as_bytes())
    })
}

/// Returns the part of a timeline after its legend.
fn body_of(svg: &str) -> Option<&str> {
    svg.split_once("not allowed</text>\n").map(|parts| parts.1)
}

#[test]
fn draws_a_timeline(rt: HostRuntime) -> Result<(), Fail> {
    let script = "nodes 2 lines 1\nenq 1 0\nenq 2 0\ndeq 1 0\n";
    let svg = drawn(rt.alloc(), script, Form::Svg)?;
    // The picture is at least as wide as the legend, which is 64 pixels high. Below it, a line takes 60 pixels, and
    // each of its rows takes 40.
    expect(
        &rt,
        "the size",
        svg.starts_with("<svg xmlns='http://www.w3.org/2000/svg' width='640' height='204' "),
        true,
    );
    let want = "<g transform='translate(0,64)'><text x='8' y='16'>line 0</text>
<path class='lane' d='M96 68H192'/>
<rect class='holds' x='96' y='60' width='64' height='16'><title>node 1 holds the line</title></rect>
<text class='name' x='8' y='72'>node 1</text>
<path class='lane' d='M96 108H192'/>
<rect class='waits' x='128' y='100' width='32' height='16'><title>node 2 waits</title></rect>
<rect class='turn' x='160' y='100' width='32' height='16'><title>node 2 may take its turn</title></rect>
<text class='name' x='8' y='112'>node 2</text>
<text class='small' x='96' y='36'>1</text>
<use href='#call' x='96' y='68'><title>1: enq 1 0: granted</title></use>
<text class='small' x='96' y='47'>enq</text>
<text class='small' x='128' y='36'>2</text>
<use href='#call' x='128' y='108'><title>2: enq 2 0: queued</title></use>
<text class='small' x='128' y='47'>enq</text>
<text class='small' x='160' y='36'>3</text>
<path class='arrow' d='M160 68V108'><title>3: node 1 hands over to node 2</title></path>
<use href='#call' x='160' y='68'><title>3: deq 1 0: released</title></use>
<text class='small' x='160' y='47'>deq</text>
</g>
</svg>
";
    expect(&rt, "the body", body_of(svg.as_str()), Some(want));
    Ok(())
}

/// Scripts, each with a part of its timeline.
static SHAPES: [(&str, &str); 13] = [
    // two bytes up to place 63, in full, and the first two of three bytes
    (
        "nodes 1 lines 1\nenq 1 0\nwrite 1 0 62 0aF0\n",
        "<text class='small' x='128' y='57'>0af0</text>\n<use href='#call' x='128' y='68'><title>2: write 1 0 62 0af0: ok</title></use>\n",
    ),
    (
        "nodes 1 lines 1\nenq 1 0\nwrite 1 0 5 010203\n",
        "<text class='small' x='128' y='57'>0102&#8230;</text>\n<use href='#call' x='128' y='68'><title>2: write 1 0 5 010203: ok</title></use>\n",
    ),
    // a whole line
    (
        "nodes 1 lines 1\nenq 1 0\nwrite 1 0 0 000102030405060708090a0b0c0d0e0f101112131415161718191a1b1c1d1e1f202122232425262728292a2b2c2d2e2f303132333435363738393a3b3c3d3e3f\n",
        "<text class='small' x='128' y='57'>0001&#8230;</text>\n<use href='#call' x='128' y='68'><title>2: write 1 0 0 000102030405060708090a0b0c0d0e0f101112131415161718191a1b1c1d1e1f202122232425262728292a2b2c2d2e2f303132333435363738393a3b3c3d3e3f: ok</title></use>\n",
    ),
    // an unwritten byte is not shown beside the bar
    (
        "nodes 1 lines 1\nwrite 1 0 0 01\n",
        "<text class='small' x='96' y='36'>1</text>\n<use href='#misuse' x='96' y='68'><title>1: write 1 0 0 01: misuse</title></use>\n",
    ),
    // a bar continues over a command that is misuse
    (
        MISUSED,
        "<rect class='waits' x='192' y='100' width='64' height='16'><title>node 2 waits</title></rect>\n",
    ),
    (
        MISUSED,
        "<rect class='turn' x='256' y='100' width='64' height='16'><title>node 2 may take its turn</title></rect>\n",
    ),
    // a withdrawn node has its bar until it is passed
    (
        "nodes 2 lines 1\nenq 1 0\nenq 2 0\nout 2 0\npoll 1 0\ndeq 1 0\n",
        "<rect class='withdrawn' x='160' y='100' width='64' height='16'><title>node 2 has withdrawn</title></rect>\n",
    ),
    (
        "nodes 2 lines 1\nenq 1 0\nenq 2 0\nout 2 0\n",
        "<use href='#out' x='160' y='108'><title>3: out 2 0: withdrawn</title></use>\n",
    ),
    // a node that is told that the line is closed
    (
        "nodes 2 lines 1\nenq 1 0\nshut 1 0\nenq 2 0\n",
        "<use href='#told' x='160' y='108'><title>3: enq 2 0: closed</title></use>\n",
    ),
    // each calling node has a row; the second line is below the first, which has one row
    (
        "nodes 9 lines 2\nenq 7 0\nenq 9 1\nenq 8 1\n",
        "<g transform='translate(0,164)'><text x='8' y='16'>line 1</text>\n<path class='lane' d='M96 68H160'/>\n<rect class='waits' x='128' y='60' width='32' height='16'><title>node 8 waits</title></rect>\n<text class='name' x='8' y='72'>node 8</text>\n<path class='lane' d='M96 108H160'/>\n<rect class='holds' x='96' y='100' width='64' height='16'><title>node 9 holds the line</title></rect>\n<text class='name' x='8' y='112'>node 9</text>\n<text class='small' x='96' y='36'>2</text>\n",
    ),
    // an arrow upwards
    (
        "nodes 2 lines 1\nenq 2 0\nenq 1 0\nshut 2 0\n",
        "<path class='arrow' d='M160 108V68'><title>3: node 2 hands over to node 1</title></path>\n<use href='#call' x='160' y='108'><title>3: shut 2 0: shut</title></use>\n",
    ),
    // a node that polls
    (
        "nodes 2 lines 1\nenq 1 0\nenq 2 0\npoll 2 0\n",
        "<use href='#call' x='160' y='108'><title>3: poll 2 0: waiting</title></use>\n",
    ),
    // the bytes of a line
    (
        "nodes 1 lines 1\nenq 1 0\nwrite 1 0 1 0a\nshow 1 0\n",
        "<title>3: show 1 0: 000a0000000000000000000000000000000000000000000000000000000000000000000000000000000000000000000000000000000000000000000000000000</title></use>\n",
    ),
];

#[test]
fn timelines_have_their_shapes(rt: HostRuntime) -> Result<(), Fail> {
    for (script, shape) in &SHAPES {
        let svg = drawn(rt.alloc(), script, Form::Svg)?;
        expect(&rt, shape, svg.contains(*shape), true);
    }
    Ok(())
}

/// The legend: a bar or a sign, with its meaning beside it.
const LEGEND: &str =
    "<rect class='waits' x='8' y='8' width='32' height='16'/><text x='46' y='20'>waits</text>
<rect class='turn' x='112' y='8' width='32' height='16'/><text x='150' y='20'>may take its turn</text>
<rect class='holds' x='304' y='8' width='32' height='16'/><text x='342' y='20'>holds the line</text>
<rect class='withdrawn' x='476' y='8' width='32' height='16'/><text x='514' y='20'>has withdrawn</text>
<path class='arrow' d='M24 32V50'/><text x='46' y='46'>hands over</text>
<use href='#call' x='144' y='42'/><text x='156' y='46'>a call</text>
<use href='#out' x='228' y='42'/><text x='240' y='46'>withdraws</text>
<use href='#told' x='330' y='42'/><text x='342' y='46'>is told: line closed</text>
<use href='#misuse' x='508' y='42'/><text x='520' y='46'>not allowed</text>
";

#[test]
fn a_timeline_has_its_style_and_its_legend(rt: HostRuntime) -> Result<(), Fail> {
    let alloc = rt.alloc();
    let svg = drawn(alloc, "nodes 1 lines 1\n", Form::Svg)?;
    let (front, sheet, behind) = Sheet::first(svg.as_str()).ok_or("a style sheet")?;
    // as wide as the legend, and 60 high for a line without rows
    expect(
        &rt,
        "before the sheet",
        front,
        "<svg xmlns='http://www.w3.org/2000/svg' width='640' height='124' font-family='monospace' font-size='12'>\n",
    );
    are_seen(&rt, sheet);
    let (signs, behind) = behind.split_once("</defs>\n").ok_or("signs")?;
    signs_differ(&rt, signs);
    let whole = format!(in alloc;
        "{LEGEND}<g transform='translate(0,64)'><text x='8' y='16'>line 0</text>\n</g>\n</svg>\n"
    )?;
    expect(&rt, "behind the sheet", behind, whole.as_str());
    Ok(())
}

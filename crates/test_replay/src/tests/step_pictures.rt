//! Tests the pictures that are drawn from step scripts, whose events are atomic steps. The expected pictures were drawn
//! by hand, from the effect of each event.
use crate::tests::replays::repeated;
use crate::tests::rows::{expect, expect_refusals};
use crate::tests::styles::{Sheet, are_seen, signs_differ, steps_are_seen};
use qolb_draw::{Form, draw_steps};
use std::alloc::Global;
use std::test::Fail;

/// Returns the picture of the script.
fn drawn(alloc: Global, script: &str, form: Form) -> Result<String, Fail> {
    Ok(String::from_utf8(draw_steps(alloc, script.as_bytes(), form)?)?)
}

const LETTERS: &str =
    "\n. Idle   r Ready   l Linking   w Queued   H Holding   h Leaving   m Marking\ng Granting   f Freeing   L Left   x Rolled   - Shut\n";

const ONE_TURN: &str = "nodes 1\nreset 1\nprepend 1\nhome 1\n";

/// A script in which the line is left in a mailbox, and a late link takes it from there.
const LATE_LINK: &str =
    "nodes 2\nreset 1\nprepend 1\nreset 2\nprepend 2\nhome 1\ndone 1\nload 1\nlink 2\nload 1\n";

/// A script in which a withdrawn node is passed and freed.
const PASSED: &str =
    "nodes 2\nreset 1\nprepend 1\nreset 2\nprepend 2\nlink 2\nhome 1\ndone 1\nroll 2\ngrant 1\nhome 1\nload 2\nfreed 1\nload 2\n";

/// A script in which a node closes the line, and finds it closed when it makes a new request.
const CLOSED: &str = "nodes 1\nreset 1\nprepend 1\nclose 1\nhome 1\nreset 1\nprepend 1\nhome 1\n";

/// Scripts and their pictures as text, without the legend of letters.
static PICTURES: [(&str, &str); 7] = [
    ("nodes 3\n", "123\n"),
    // the digits of a number are below each other
    (
        "nodes 11\nreset 10\n",
        "         11
12345678901
.........r.      1: reset 10: went; the line lies at home
",
    ),
    (
        "nodes 1\nlink 1\n",
        "1\n.      1: link 1: refused; the line lies at home\n",
    ),
    (
        "nodes 1\nreset 1\nprepend 1\nwrite 1 62 0aF0\nclose 1\n",
        "1
r      1: reset 1: went; the line lies at home
H      2: prepend 1: granted; the line lies in the hand of node 1
H      3: write 1 62 0af0: went; the line lies in the hand of node 1
h      4: close 1: went; the line lies in the hand of node 1
",
    ),
    (
        LATE_LINK,
        "12
r.      1: reset 1: went; the line lies at home
H.      2: prepend 1: granted; the line lies in the hand of node 1
Hr      3: reset 2: went; the line lies in the hand of node 1
Hl      4: prepend 2: went; the line lies in the hand of node 1
ml      5: home 1: went; the line lies in the hand of node 1
Ll      6: done 1: released; the line lies in the mailbox of node 1
Ll      7: load 1: busy; the line lies in the mailbox of node 1
LH      8: link 2: granted; the line lies in the hand of node 2
.H      9: load 1: free; the line lies in the hand of node 2
",
    ),
    (
        PASSED,
        "12
r.      1: reset 1: went; the line lies at home
H.      2: prepend 1: granted; the line lies in the hand of node 1
Hr      3: reset 2: went; the line lies in the hand of node 1
Hl      4: prepend 2: went; the line lies in the hand of node 1
Hw      5: link 2: queued; the line lies in the hand of node 1
mw      6: home 1: went; the line lies in the hand of node 1
gw      7: done 1: went; the line lies in the hand of node 1
gx      8: roll 2: withdrawn; the line lies in the hand of node 1
hx      9: grant 1: went; the line lies in the hand of node 1
fx     10: home 1: went; the line lies at home
fx     11: load 2: busy; the line lies at home
.x     12: freed 1: released; the line lies at home
..     13: load 2: free; the line lies at home
",
    ),
    (
        CLOSED,
        "1
r      1: reset 1: went; the line lies at home
H      2: prepend 1: granted; the line lies in the hand of node 1
h      3: close 1: went; the line lies in the hand of node 1
-      4: home 1: shut; the line lies at home
r      5: reset 1: went; the line lies at home
h      6: prepend 1: went; the line lies in the hand of node 1
-      7: home 1: closed; the line lies at home
",
    ),
];

#[test]
fn draws_step_scripts(rt: HostRuntime) -> Result<(), Fail> {
    for (script, picture) in &PICTURES {
        let whole = format!(in rt.alloc(); "{picture}{LETTERS}")?;
        expect(&rt, script, drawn(rt.alloc(), script, Form::Text)?, whole);
    }
    Ok(())
}

/// Returns the part of a picture after its legend.
fn body_of(svg: &str) -> Option<&str> {
    svg.split_once("and the link</text>\n").map(|parts| parts.1)
}

#[test]
fn draws_one_turn(rt: HostRuntime) -> Result<(), Fail> {
    let svg = drawn(rt.alloc(), ONE_TURN, Form::Svg)?;
    // The picture is at least as wide as the legend. Above the first row are 132 pixels, and below the last row are 36.
    expect(
        &rt,
        "the size",
        svg.starts_with("<svg xmlns='http://www.w3.org/2000/svg' width='800' height='216' "),
        true,
    );
    let want = "<path class='lane' d='M96 68H312'/>
<text class='name' x='8' y='72'>home</text>
<path class='lane' d='M96 116H312'/>
<text class='name' x='8' y='120'>node 1</text>
<text class='small' x='96' y='36'>1</text>
<rect class='waits' x='96' y='108' width='72' height='16'><title>node 1: Ready</title></rect>
<text class='at' x='104' y='119'>Ready</text>
<rect class='home' x='96' y='78' width='72' height='5'><title>the line lies at home</title></rect>
<use href='#call' x='96' y='116'><title>1: reset 1: went</title></use>
<text class='small' x='96' y='47'>reset</text>
<text class='small' x='168' y='36'>2</text>
<rect class='holds' x='168' y='108' width='72' height='16'><title>node 1: Holding</title></rect>
<text class='at' x='176' y='119'>Holding</text>
<rect class='hand' x='168' y='126' width='72' height='5'><title>the line lies in the hand of node 1</title></rect>
<text class='small' x='168' y='57'><title>the home word is 1</title>1</text>
<use href='#call' x='168' y='116'><title>2: prepend 1: granted</title></use>
<text class='small' x='168' y='47'>prepend</text>
<text class='small' x='240' y='36'>3</text>
<rect class='rests' x='240' y='108' width='72' height='16'><title>node 1: Idle</title></rect>
<text class='at' x='248' y='119'>Idle</text>
<rect class='home' x='240' y='78' width='72' height='5'><title>the line lies at home</title></rect>
<text class='small' x='240' y='57'><title>the home word is 0</title>0</text>
<use href='#call' x='240' y='116'><title>3: home 1: released</title></use>
<text class='small' x='240' y='47'>home</text>
</g>
</svg>
";
    expect(&rt, "the body", body_of(svg.as_str()), Some(want));
    Ok(())
}

/// Scripts, each with some lines of its picture.
static SHAPES: [(&str, &str); 20] = [
    // a bar lasts until the node's next event
    (
        LATE_LINK,
        "<rect class='holds' x='168' y='108' width='216' height='16'><title>node 1: Holding</title></rect>\n<text class='at' x='176' y='119'>Holding</text>\n",
    ),
    (
        LATE_LINK,
        "<rect class='waits' x='312' y='156' width='288' height='16'><title>node 2: Linking 1</title></rect>\n<text class='at' x='320' y='167'>Linking 1</text>\n",
    ),
    (
        LATE_LINK,
        "<rect class='releases' x='384' y='108' width='72' height='16'><title>node 1: Marking 1</title></rect>\n",
    ),
    // a node is in no call after it has left the line to a node that links late, or has ended its call by closing the
    // line
    (
        LATE_LINK,
        "<rect class='rests' x='456' y='108' width='72' height='16'><title>node 1: Left</title></rect>\n<text class='at' x='464' y='119'>Left</text>\n",
    ),
    (
        CLOSED,
        "<rect class='rests' x='312' y='108' width='72' height='16'><title>node 1: Shut</title></rect>\n<text class='at' x='320' y='119'>Shut</text>\n",
    ),
    // the last bar of a node extends to the end
    (
        LATE_LINK,
        "<rect class='holds' x='600' y='156' width='144' height='16'><title>node 2: Holding</title></rect>\n",
    ),
    // the line stays in a mailbox, whose entry is done, and is taken from there
    (
        LATE_LINK,
        "<rect class='mailbox' x='456' y='126' width='72' height='5'><title>the line lies in the mailbox of node 1</title></rect>\n<text class='small' x='456' y='105'><title>the entry of node 1 is d0</title>d0</text>\n<use href='#call' x='456' y='116'><title>6: done 1: released</title></use>\n",
    ),
    (
        LATE_LINK,
        "<rect class='hand' x='600' y='174' width='72' height='5'><title>the line lies in the hand of node 2</title></rect>\n<text class='small' x='600' y='105'><title>the entry of node 1 is d2</title>d2</text>\n<use href='#call' x='600' y='164'><title>8: link 2: granted</title></use>\n",
    ),
    // an event that changes no word
    (
        LATE_LINK,
        "<title>the line lies in the mailbox of node 1</title></rect>\n<use href='#call' x='528' y='116'><title>7: load 1: busy</title></use>\n",
    ),
    // a node withdraws, is granted the line after that, and is freed
    (
        PASSED,
        "<rect class='withdrawn' x='600' y='156' width='216' height='16'><title>node 2: Rolled</title></rect>\n",
    ),
    (
        PASSED,
        "<text class='small' x='600' y='153'><title>the entry of node 2 is r0</title>r0</text>\n<use href='#out' x='600' y='164'><title>8: roll 2: withdrawn</title></use>\n",
    ),
    (
        PASSED,
        "<text class='small' x='672' y='153'><title>the entry of node 2 is gr0</title>gr0</text>\n<use href='#call' x='672' y='116'><title>9: grant 1: went</title></use>\n",
    ),
    (
        PASSED,
        "<text class='small' x='888' y='153'><title>the entry of node 2 is grf0</title>grf0</text>\n<use href='#call' x='888' y='116'><title>12: freed 1: released</title></use>\n",
    ),
    (
        PASSED,
        "<rect class='waits' x='384' y='156' width='216' height='16'><title>node 2: Queued</title></rect>\n<text class='at' x='392' y='167'>Queued</text>\n",
    ),
    (
        PASSED,
        "<rect class='releases' x='744' y='108' width='144' height='16'><title>node 1: Freeing</title></rect>\n<text class='at' x='752' y='119'>Freeing</text>\n",
    ),
    (PASSED, "<title>node 1: Granting 2</title>"),
    (PASSED, "<title>node 1: Leaving 2</title>"),
    // nodes that find the line closed
    (
        CLOSED,
        "<use href='#told' x='528' y='116'><title>7: home 1: closed</title></use>\n",
    ),
    // events that are not allowed
    (
        "nodes 1\nlink 1\n",
        "<use href='#misuse' x='96' y='116'><title>1: link 1: refused</title></use>\n",
    ),
    // written bytes
    (
        "nodes 1\nreset 1\nprepend 1\nwrite 1 62 0aF0\n",
        "<title>3: write 1 62 0af0: went</title></use>\n",
    ),
];

#[test]
fn pictures_have_their_shapes(rt: HostRuntime) -> Result<(), Fail> {
    for (script, shape) in &SHAPES {
        let svg = drawn(rt.alloc(), script, Form::Svg)?;
        expect(&rt, shape, svg.contains(*shape), true);
    }
    Ok(())
}

/// A script of 100,000 events of the last of 200 nodes, of which all except the first are refused.
fn largest_script(alloc: Global) -> Result<String, Fail> {
    repeated(alloc, "nodes 200\nreset 200\n", 99_999, "load 200\n", "")
}

/// The size of the script's picture, without the legend of letters: three lines for the digits of 200 nodes' numbers,
/// and for each event 200 letters, six places for the event's number, and 44 further bytes (42 for the first event).
const LARGEST: usize = 3 * 201 + 100_000 * (200 + 6 + 44) - 2;

/// The first line of digits.
const HUNDREDS: &str =
    "                                                                                                   11111111111111111111111111111111111111111111111111111111111111111111111111111111111111111111111111112\n";

#[test]
fn draws_as_many_letters_as_there_may_be(rt: HostRuntime) -> Result<(), Fail> {
    let alloc = rt.alloc();
    let script = largest_script(alloc)?;
    let text = draw_steps(alloc, script.as_bytes(), Form::Text)?;
    expect(
        &rt,
        "the size",
        text.len(),
        LARGEST.saturating_add(LETTERS.len()),
    );
    let first = text.starts_with(HUNDREDS.as_bytes());
    expect(&rt, "the first line", first, true);
    let event = "r 100000: load 200: refused; the line lies at home\n";
    let end = repeated(alloc, "\n", 199, ".", event)?;
    let end = format!(in alloc; "{end}{LETTERS}")?;
    expect(&rt, "the last line", text.ends_with(end.as_bytes()), true);
    Ok(())
}

#[test]
fn draws_as_many_events_of_as_many_nodes_as_an_svg(rt: HostRuntime) -> Result<(), Fail> {
    let script = largest_script(rt.alloc())?;
    let svg = draw_steps(rt.alloc(), script.as_bytes(), Form::Svg)?;
    // 200 rows below the home word
    let head = "<svg xmlns='http://www.w3.org/2000/svg' width='7200128' height='9768' ";
    expect(&rt, "the size", svg.starts_with(head.as_bytes()), true);
    let end =
        "<title>100000: load 200: refused</title></use>\n<text class='small' x='7200024' y='47'>load</text>\n</g>\n</svg>\n";
    expect(&rt, "the end", svg.ends_with(end.as_bytes()), true);
    Ok(())
}

#[test]
fn each_allocation_is_refused(rt: HostRuntime) -> Result<(), Fail> {
    let whole = drawn(rt.alloc(), ONE_TURN, Form::Svg)?;
    expect_refusals(&rt, rt.alloc(), |heap| {
        let picture = draw_steps(heap, ONE_TURN.as_bytes(), Form::Svg)?;
        Ok(picture.as_slice() == whole.as_bytes())
    })
}

/// The legend: a bar or a sign, with its meaning beside it.
const LEGEND: &str =
    "<rect class='rests' x='8' y='8' width='32' height='16'/><text x='46' y='20'>in no call</text>
<rect class='waits' x='132' y='8' width='32' height='16'/><text x='170' y='20'>asks or waits</text>
<rect class='holds' x='280' y='8' width='32' height='16'/><text x='318' y='20'>holds the line</text>
<rect class='releases' x='436' y='8' width='32' height='16'/><text x='474' y='20'>releases</text>
<rect class='withdrawn' x='548' y='8' width='32' height='16'/><text x='586' y='20'>has withdrawn</text>
<rect class='hand' x='8' y='39' width='32' height='5'/><text x='46' y='46'>line in a hand</text>
<rect class='mailbox' x='160' y='39' width='32' height='5'/><text x='198' y='46'>in a mailbox</text>
<rect class='home' x='298' y='39' width='32' height='5'/><text x='336' y='46'>at home</text>
<use href='#call' x='404' y='42'/><text x='416' y='46'>an event</text>
<use href='#out' x='490' y='42'/><text x='502' y='46'>withdraws</text>
<use href='#told' x='582' y='42'/><text x='594' y='46'>finds it closed</text>
<use href='#misuse' x='718' y='42'/><text x='730' y='46'>refused</text>
";

/// The text between the legend and the rows.
const ABOVE: &str =
    "<g transform='translate(0,64)'><text x='8' y='16'>Above a row: what its word has become: g granted, r rolled, d done, f freed, and the link</text>
";

#[test]
fn a_step_picture_has_its_colours_and_its_legend(rt: HostRuntime) -> Result<(), Fail> {
    let alloc = rt.alloc();
    let svg = drawn(alloc, "nodes 1\n", Form::Svg)?;
    let (front, sheet, behind) = Sheet::first(svg.as_str()).ok_or("a style sheet")?;
    // as wide as the legend
    expect(
        &rt,
        "before the sheet",
        front,
        "<svg xmlns='http://www.w3.org/2000/svg' width='800' height='216' font-family='monospace' font-size='12'>\n",
    );
    are_seen(&rt, sheet);
    let (signs, of_steps, behind) = Sheet::first(behind).ok_or("a sheet of its own")?;
    signs_differ(&rt, signs);
    steps_are_seen(&rt, sheet, of_steps);
    let whole = format!(in alloc;
        "{LEGEND}{ABOVE}<path class='lane' d='M96 68H96'/>\n<path class='lane' d='M96 116H96'/>\n</g>\n</svg>\n"
    )?;
    expect(&rt, "behind the sheet", behind, whole.as_str());
    Ok(())
}

//! Tests the help texts: they are compared in full, and their examples are executed.
use crate::tests::runs::{expect, run};
use std::alloc::Global;
use std::process::Abort;
use std::rt::Clock;
use std::sync::Wait;
use std::test::Fail;
use std::thread::Threads;

/// Returns the help that `--help` prints after these words.
fn help_of<T: Threads + Wait + Clock + Eprint + Sync>(
    rt: &T,
    alloc: Global,
    words: &[&str],
) -> Result<String, Fail> {
    let mut all = Vec::new(alloc);
    all.extend_from_slice(words)?;
    all.push("--help")?;
    let mut nothing: &[u8] = b"";
    let mut out: Vec<u8> = Vec::new(alloc);
    let (_, help) = run(rt, alloc, all.as_slice(), &mut nothing, &mut out)?;
    Ok(help)
}

/// The whole text about exit statuses.
const STATUSES: &str = "\n\nExit statuses:
  0  done
  1  the script was refused: `bad line N` or `script too long` on standard error
  2  the command line was refused, or asked for help or the version
  3  out of memory: `out of memory`; or worker W gave up: `stalled W`
  4  a failed read or write: `read fault` or `write fault`";

#[test]
fn the_help_tells_each_status(rt: HostRuntime) -> Result<(), Fail> {
    let help = help_of(&rt, rt.alloc(), &[])?;
    assert!(rt; help.trim_end().ends_with(STATUSES), "{help}");
    Ok(())
}

/// Whole lines of each subcommand's help: its options, and the limits of its script.
static LINES: [(&str, &[&str]); 5] = [
    (
        "replay",
        &[
            "      --kind <KIND>  The plain reference, which has one owner,\n                     or the lock of lines that nodes\n                     share [possible values: plain, ring, link, ticket]",
            "      --explain      Explains a refused line, and each answer `misuse`",
            "  nodes N lines L             its first line: 1 to 200 nodes and 1 to 8 lines",
            "  nodes N lines L lease C     the same; each line closes at its C-th served turn",
            "  COMMAND n l                 a call of node n on line l: enq, poll, deq, show,",
            "                              out (withdraw) or shut (release and close)",
            "  write n l OFFSET HEX        the holder writes these bytes into the line",
        ],
    ),
    (
        "steps",
        &[
            "      --rank     Prints after each word how many productive events can follow\n                 each other from there",
            "      --explain  Explains a refused line, and each answer `refused`",
            "  nodes N                     its first line: 1 to 200 nodes",
            "  nodes N lease C             the same; the line closes at its C-th served turn",
            "  EVENT n                     an atomic step of node n: reset, prepend, link,",
            "                              load, home, done, grant, roll or freed; or close,",
            "                              which only a holder makes",
            "  write n OFFSET HEX          the holder writes these bytes into the line",
        ],
    ),
    (
        "board",
        &[
            "      --kind <KIND>  The lock of the lines that the workers\n                     share [default: link] [possible values: ring, link, ticket]",
            "      --sleep        Workers sleep until they are woken, instead of polling",
            "      --progress     Reports on standard error, once a second, how many of all\n                     jobs are done",
            "      --explain      Explains a refused line",
            "  board workers W             its first line: 1 to 200 workers",
            "  w put TASK                  worker w puts a task, a number below 2^64, on the",
            "                              board",
            "  w take                      worker w takes the oldest task off the board",
            "The board holds seven tasks. Each worker does its jobs in the script's order.",
            "The order of jobs of different workers is not determined.",
        ],
    ),
    (
        "bank",
        &[
            "      --kind <KIND>  The lock of the lines that the workers\n                     share [default: link] [possible values: ring, link, ticket]",
            "      --sleep        Workers sleep until they are woken, instead of polling",
            "      --progress     Reports on standard error, once a second, how many of all\n                     jobs are done",
            "      --explain      Explains a refused line",
            "  bank workers W lines L      its first line: 1 to 200 workers and 1 to 8 lines",
            "  w in ACCOUNT AMOUNT         worker w pays an amount into an account, of 0 to",
            "                              8L - 1",
            "  w out ACCOUNT AMOUNT        worker w pays it out",
            "  w move FROM TO AMOUNT       worker w moves it from one account to another",
            "An account holds 0 to 2^48. A job that would leave that range changes nothing.",
            "Each worker does its jobs in the script's order. The order of jobs of different",
            "workers is not determined.",
        ],
    ),
    (
        "draw",
        &[
            "      --svg      Draws an SVG instead of plain text",
            "      --steps    Draws a step script instead of a schedule",
            "      --explain  Explains a refused line",
            "The script on standard input is a schedule, as `qolb replay` takes it. Each line",
            "is drawn with a row for each node that calls on it. A row has a letter for each",
            "command on the line, which shows the node's state after the command. With",
            "--steps, the script is a step script, as `qolb steps` takes it. It is drawn with",
            "a line of text for each event, which has a letter for each node, the word that",
            "the event told, and the place of the line.",
        ],
    ),
];

#[test]
fn the_help_tells_options_and_limits(rt: HostRuntime) -> Result<(), Fail> {
    for (name, lines) in &LINES {
        let help = help_of(&rt, rt.alloc(), &[*name])?;
        for line in *lines {
            let whole = format!(in rt.alloc(); "\n{line}\n")?;
            assert!(rt;
                help.contains(whole.as_str()),
                "{line} in the help of {name}"
            );
        }
    }
    Ok(())
}

/// For the example of each help: the words of the command line, what the help says that it prints, and what it prints.
static EXAMPLES: [(&[&str], &str, &str); 5] = [
    (
        &["replay", "--kind", "plain"],
        "granted, ok, released, and the counts of the line.",
        "granted\nok\nreleased\nline 0 served 1 withdrawn 0 told 0 left 0\n",
    ),
    (
        &["steps"],
        "went, granted, released, and the counts of the line; with --rank\nwent 0, granted 1, released 0, and the counts.",
        "went\ngranted\nreleased\nline 0 served 1 withdrawn 0 told 0 left 0\n",
    ),
    (
        &["steps", "--rank"],
        "went, granted, released, and the counts of the line; with --rank\nwent 0, granted 1, released 0, and the counts.",
        "went 0\ngranted 1\nreleased 0\nline 0 served 1 withdrawn 0 told 0 left 0\n",
    ),
    (
        &["board"],
        "stored 2, full 0, taken 1, empty 0, left 1.",
        "stored 2\nfull 0\ntaken 1\nempty 0\nleft 1\n",
    ),
    (
        &["bank"],
        "in 10, out 1, total 9.",
        "in 10\nout 1\ntotal 9\n",
    ),
];

/// Returns the example of a help: its script, and its output as the help describes it.
fn example_of<'a>(help: &'a str, told: &str) -> Result<(&'a str, &'a str), Fail> {
    let (_, example) = help.split_once("\n\nExample: with\n").ok_or("an example")?;
    Ok(example.split_once(told).ok_or("what it prints")?)
}

#[test]
fn the_examples_of_the_help_print_what_it_says(rt: HostRuntime) -> Result<(), Fail> {
    let alloc = rt.alloc();
    for (words, said, printed) in &EXAMPLES {
        let name = *words.first().ok_or("a name")?;
        let help = help_of(&rt, alloc, &[name])?;
        let (script, prints) = example_of(help.as_str(), "\nit prints ")?;
        assert_eq!(rt; prints.trim_end(), *said, "of {name}");
        expect(&rt, alloc, *words, script, (0, *printed, ""))?;
    }
    Ok(())
}

/// The picture that the help shows, and the legend behind it.
const PICTURE: &str = "line 0

         1234
node   1 HH>.
node   2 .w<H

. idle   w waits   t its turn has come   H holds   > hands over to <
x withdrawn   c told that the line is closed   - closed   ! misuse
";

#[test]
fn the_example_of_a_picture_is_drawn(rt: HostRuntime) -> Result<(), Fail> {
    let alloc = rt.alloc();
    let help = help_of(&rt, alloc, &["draw"])?;
    let told = "\nit prints, and then what the letters mean:\n";
    let (script, picture) = example_of(help.as_str(), told)?;
    let shown = "  line 0\n\n           1234\n  node   1 HH>.\n  node   2 .w<H";
    assert_eq!(rt; picture.trim_end(), shown);
    expect(&rt, alloc, &["draw"], script, (0, PICTURE, ""))
}

//! Tests the words of the command line: which words select which action, which words are refused, and what help and
//! version print.
use crate::tests::runs::{run, told};
use qolb_serve::refuse_words;
use std::io;
use std::test::Fail;

/// Command lines that are refused, and what the complaint names.
static NOT_TAKEN: [(&[&str], &str); 31] = [
    (&["replay", "--explain"], "--kind"),
    (&[], "subcommand"),
    (&["replay"], "--kind"),
    (&["replay", "--kind"], "--kind"),
    (&["replay", "--kind", "rings"], "rings"),
    (&["replay", "--kind", "lists"], "lists"),
    (&["steps", "--kind", "plain"], "--kind"),
    (&["board", "--kind", "plain"], "plain"),
    (&["board", "--progress", "yes"], "yes"),
    (&["board", "--sleep", "yes"], "yes"),
    (&["bank", "--sleep=1"], "--sleep"),
    (&["replay", "--kind", "ring", "--sleep"], "--sleep"),
    (&["draw", "--sleep"], "--sleep"),
    (&["steps", "--sleep"], "--sleep"),
    (&["steps", "--progress"], "--progress"),
    (&["steps", "--rank", "yes"], "yes"),
    (&["board", "--rank"], "--rank"),
    (&["board", "--kind"], "--kind"),
    (&["bank", "--kind", "plain"], "plain"),
    (&["bank", "ring"], "ring"),
    (&["work"], "work"),
    (&["--help"], "draw"),
    (&["--help"], "\n  0  done\n"),
    (&["--help"], "\n  1  the script was refused: "),
    (&["--help"], "\n  2  the command line was refused"),
    (
        &["--help"],
        "\n  3  out of memory: `out of memory`; or worker W gave up",
    ),
    (&["--help"], "\n  4  a failed read or write: "),
    (&["replay", "--help"], "--kind"),
    (&["--help"], "-V, --version"),
    (&["-V"], "qolb 3.0.0\n"),
    (&["replay", "--version"], "--version"),
];

/// Parts of the help of each subcommand.
static HELPS: [(&str, &[&str]); 5] = [
    ("replay", &["--kind <KIND>", "nodes N lines L", "--explain"]),
    ("steps", &["prepend 1", "nodes N ", "--rank", "--explain"]),
    (
        "board",
        &[
            "[default: link]",
            "1 put 9",
            "--sleep",
            "--progress",
            "--explain",
        ],
    ),
    (
        "bank",
        &["[default: link]", "1 move 0 3 4", "--sleep", "--explain"],
    ),
    ("draw", &["--svg", "--steps", "node   1 HH>.", "--explain"]),
];

#[test]
fn refuses_command_lines(rt: HostRuntime) -> Result<(), Fail> {
    for (words, named) in &NOT_TAKEN {
        let mut reader = "nodes 1 lines 1\n".as_bytes();
        let mut out: Vec<u8> = Vec::new(rt.alloc());
        let (status, err) = run(&rt, rt.alloc(), *words, &mut reader, &mut out)?;
        // nothing was read or written
        assert_eq!(rt;
            (status, reader.len(), out.len()),
            (2, 16, 0),
            "of {words:?}"
        );
        assert!(rt; err.contains(*named), "of {words:?}: {err}");
    }
    for (name, texts) in &HELPS {
        let (_, _, help) = told(&rt, rt.alloc(), &[*name, "--help"], "")?;
        for text in *texts {
            assert!(rt; help.contains(*text), "{text} in the help of {name}");
        }
    }
    Ok(())
}

/// The complaint about a word that is not a subcommand.
const NO_SUBCOMMAND: &str =
    "error: unrecognized subcommand 'work'\n\nUsage: qolb <COMMAND>\n\nFor more information, try '--help'.\n";

#[test]
fn says_only_what_is_wrong(rt: HostRuntime) -> Result<(), Fail> {
    let (status, out, err) = told(&rt, rt.alloc(), &["work"], "")?;
    assert_eq!(rt;
        (status, out.as_str(), err.as_str()),
        (2, "", NO_SUBCOMMAND)
    );
    let (_, _, help) = told(&rt, rt.alloc(), &["--help"], "")?;
    assert!(rt; help.starts_with("Queued line locks: "), "{help}");
    for (name, first) in &FIRST_WORDS {
        let (_, _, help) = told(&rt, rt.alloc(), &[*name, "--help"], "")?;
        assert!(rt; help.starts_with(*first), "{help}");
    }
    Ok(())
}

/// How the help of each subcommand begins.
const FIRST_WORDS: [(&str, &str); 5] = [
    ("replay", "Replays the schedule script on standard input, "),
    ("steps", "Runs the step script on standard input "),
    (
        "board",
        "Does the jobs of the work script on standard input, ",
    ),
    (
        "bank",
        "Does the jobs of the work script on standard input, ",
    ),
    ("draw", "Draws the schedule script on standard input: "),
];

/// The output of `--version`.
const VERSION: &str = "qolb 3.0.0\nkinds of lines: plain, ring, link, ticket\n";

#[test]
fn tells_its_version(rt: HostRuntime) -> Result<(), Fail> {
    let mut reader = "nodes 1 lines 1\n".as_bytes();
    let mut out: Vec<u8> = Vec::new(rt.alloc());
    let (status, err) = run(&rt, rt.alloc(), &["--version"], &mut reader, &mut out)?;
    // nothing was read or written
    assert_eq!(rt; (status, reader.len(), out.len()), (2, 16, 0));
    assert_eq!(rt; err.as_str(), VERSION);
    Ok(())
}

/// Errors of reading the words of the command line, with the status and the complaint.
static NO_WORDS: [(io::ErrorKind, u8, &str); 2] = [
    (
        io::ErrorKind::InvalidData,
        2,
        "error: the arguments are no UTF-8 text\n",
    ),
    (io::ErrorKind::OutOfMemory, 3, "out of memory\n"),
];

#[test]
fn tells_that_words_could_not_be_read(rt: HostRuntime) -> Result<(), Fail> {
    for (kind, want, complaint) in &NO_WORDS {
        let mut err: Vec<u8> = Vec::new(rt.alloc());
        let status = refuse_words(&mut err, &io::Error::from(*kind));
        let told = String::from_utf8(err)?;
        assert_eq!(rt; (status, told.as_str()), (*want, *complaint));
    }
    Ok(())
}

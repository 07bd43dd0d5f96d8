//! Parses the command line, and defines what `--help` and `--version` print.
ghost use Rattle.std.specs.Prelude.{◌≡◌, ◌≢◌, false, map, option_map, string_bytes, codes, IfOk, IfErr};
ghost use Rattle.clap.specs.Words.{app_of, found_of, kind_of, new_app, rows_of, rule_of};
ghost use Rattle.qolb_serve.specs.CommandLine as spec;
ghost use Rattle.qolb_serve.specs.CommandLine.{KindNames, NamesFlag, NamesWish, IsNotTaken, draw_command, bare_command, kind_rule, replay_command, replay_or_steps, steps_command, with_workers, work_command, the_command};

use clap::error::ErrorKind;
use clap::{Arg, ArgAction, ArgMatches, Command, Error};
use line_kinds::{LOCKS, Lock, NAMES, lock_names};
use qolb_draw::Form;
use qolb_run::{Detail, Task, WaitMode};
use qolb_script::WorkKind;
use std::alloc::{AllocError, Global};

/// The names of the kinds of lines that replay a schedule.
static REPLAYED: [&str; LOCKS + 1] = lock_names!(array, "plain");

const REPLAYED_HELP: &str =
    "The plain reference, which has one owner,\nor the lock of lines that nodes\nshare";

const SHARED_HELP: &str = "The lock of the lines that the workers\nshare";

const MISUSE_EXPLAINED: &str = "Explains a refused line, and each answer `misuse`";

const REFUSALS_EXPLAINED: &str = "Explains a refused line, and each answer `refused`";

const LINE_EXPLAINED: &str = "Explains a refused line";

const ABOUT: &str =
    "Queued line locks: nodes queue for a line of 64 bytes, and a release hands the\nlock and the line to the next node";

/// What `--version` prints after the name: the version, which `tools/sources` compares, and the kinds of lines.
///
/// The program cannot know which version of the Rattle toolchain built it, nor whether it was proved. The script `qolb`
/// prints both.
const VERSION: &str = lock_names!(text, "3.0.0\nkinds of lines: plain, ");

const STATUSES: &str = "Exit statuses:
  0  done
  1  the script was refused: `bad line N` or `script too long` on standard error
  2  the command line was refused, or asked for help or the version
  3  out of memory: `out of memory`; or worker W gave up: `stalled W`
  4  a failed read or write: `read fault` or `write fault`";

const REPLAY: &str = "The script, on standard input:
  nodes N lines L             its first line: 1 to 200 nodes and 1 to 8 lines
  nodes N lines L lease C     the same; each line closes at its C-th served turn
  COMMAND n l                 a call of node n on line l: enq, poll, deq, show,
                              out (withdraw) or shut (release and close)
  write n l OFFSET HEX        the holder writes these bytes into the line

Example: with
  nodes 1 lines 1
  enq 1 0
  write 1 0 0 a1b2
  deq 1 0
it prints granted, ok, released, and the counts of the line.";

const STEPS: &str = "The script, on standard input:
  nodes N                     its first line: 1 to 200 nodes
  nodes N lease C             the same; the line closes at its C-th served turn
  EVENT n                     an atomic step of node n: reset, prepend, link,
                              load, home, done, grant, roll or freed; or close,
                              which only a holder makes
  write n OFFSET HEX          the holder writes these bytes into the line

Example: with
  nodes 1
  reset 1
  prepend 1
  home 1
it prints went, granted, released, and the counts of the line; with --rank
went 0, granted 1, released 0, and the counts.";

const BOARD: &str = "The script, on standard input:
  board workers W             its first line: 1 to 200 workers
  w put TASK                  worker w puts a task, a number below 2^64, on the
                              board
  w take                      worker w takes the oldest task off the board

The board holds seven tasks. Each worker does its jobs in the script's order.
The order of jobs of different workers is not determined.

Example: with
  board workers 1
  1 put 5
  1 put 9
  1 take
it prints stored 2, full 0, taken 1, empty 0, left 1.";

const BANK: &str = "The script, on standard input:
  bank workers W lines L      its first line: 1 to 200 workers and 1 to 8 lines
  w in ACCOUNT AMOUNT         worker w pays an amount into an account, of 0 to
                              8L - 1
  w out ACCOUNT AMOUNT        worker w pays it out
  w move FROM TO AMOUNT       worker w moves it from one account to another

An account holds 0 to 2^48. A job that would leave that range changes nothing.
Each worker does its jobs in the script's order. The order of jobs of different
workers is not determined.

Example: with
  bank workers 1 lines 1
  1 in 0 10
  1 move 0 3 4
  1 out 3 1
it prints in 10, out 1, total 9.";

const DRAW: &str = "The script on standard input is a schedule, as `qolb replay` takes it. Each line
is drawn with a row for each node that calls on it. A row has a letter for each
command on the line, which shows the node's state after the command. With
--steps, the script is a step script, as `qolb steps` takes it. It is drawn with
a line of text for each event, which has a letter for each node, the word that
the event told, and the place of the line.

Example: with
  nodes 2 lines 1
  enq 1 0
  enq 2 0
  deq 1 0
  poll 2 0
it prints, and then what the letters mean:
  line 0

           1234
  node   1 HH>.
  node   2 .w<H";

/// What the program is asked to do.
#[derive(Clone, Copy, Debug, PartialEq, Eq)]
pub enum Subcommand {
    /// Answer a script.
    Answer(Task),
    /// Draw a schedule.
    Draw(Form),
    /// Draw a step script.
    DrawSteps(Form),
}

/// What the words of a command line request: a subcommand and two flags.
#[derive(Clone, Copy, Debug, PartialEq, Eq)]
pub struct Args {
    pub subcommand: Subcommand,
    pub progress: bool,
    pub explain: bool,
}

/// Parses the words of a command line, of which the first is the program's name.
pub fn parse_args(alloc: Global, words: &[String]) -> Result<Args, Error>
    ensures subcommand { IfOk result (λ request.
        NamesWish (map string_bytes words.now) request.subcommand) }
    ensures progress { IfOk result (λ request.
        NamesFlag (codes "progress") (map string_bytes words.now) request.progress) }
    ensures explain { IfOk result (λ request.
        NamesFlag (codes "explain") (map string_bytes words.now) request.explain) }
    ensures usage { IfErr result (λ error. kind_of error ≢ ErrorKind.OutOfMemory
        → IsNotTaken (map string_bytes words.now)) }
{
    let matches = command(alloc)?.try_get_matches_from(words)?;
    match matches.subcommand() {
        Some((name, arguments)) => Ok(Args {
            subcommand: wish_at(name, arguments),
            progress: is_given_at("progress", arguments),
            explain: is_given_at("explain", arguments),
        }),
        None => unreachable!(),
    }
}

/// Returns what a subcommand with these arguments requests.
fn wish_at(name: &str, arguments: &ArgMatches<'_>) -> Subcommand
    ensures { result ≡ spec.wish_at (name.now, rows_of (found_of arguments.now)) }
{
    if name == "draw" {
        drawing_at(arguments)
    } else {
        Subcommand::Answer(task_at(name, arguments))
    }
}

/// Returns the drawing that these arguments request.
fn drawing_at(arguments: &ArgMatches<'_>) -> Subcommand
    ensures { result ≡ spec.drawing_at (rows_of (found_of arguments.now)) }
{
    drawing_of(is_given_at("steps", arguments), form_at(arguments))
}

/// Returns the drawing in this form, of a schedule or of a step script.
fn drawing_of(steps: bool, form: Form) -> Subcommand
    ensures { result ≡ spec.drawing_of steps form }
{
    if steps {
        Subcommand::DrawSteps(form)
    } else {
        Subcommand::Draw(form)
    }
}

/// Returns `true` if these arguments have the flag.
fn is_given_at(flag: &str, arguments: &ArgMatches<'_>) -> bool
    ensures { result ≡ spec.is_given_at flag.now (rows_of (found_of arguments.now)) }
{
    is_given(arguments.get_str(flag))
}

/// Returns `true` if this value of a flag says that the flag is given.
fn is_given(value: Option<&str>) -> bool
    ensures { result ≡ spec.is_given (option_map (λ n. n.now) value.entry) }
{
    match value {
        Some("true") => true,
        _ => false,
    }
}

/// Returns the form of a picture that these arguments request.
fn form_at(arguments: &ArgMatches<'_>) -> Form
    ensures { result ≡ spec.form_at (rows_of (found_of arguments.now)) }
{
    form_of(arguments.get_str("svg"))
}

/// Returns the form of a picture that the value of `--svg` selects.
fn form_of(svg: Option<&str>) -> Form
    ensures { result ≡ spec.form_of (option_map (λ n. n.now) svg.entry) }
{
    match svg {
        Some("true") => Form::Svg,
        _ => Form::Text,
    }
}

/// Returns the task of a subcommand with these arguments.
fn task_at(name: &str, arguments: &ArgMatches<'_>) -> Task
    ensures { result ≡ spec.task_at (name.now, rows_of (found_of arguments.now)) }
{
    task_of(
        name,
        arguments.get_str("kind"),
        detail_of(arguments.get_str("rank")),
        waits_of(arguments.get_str("sleep")),
    )
}

/// Returns what is printed about each event, as the value of `--rank` selects it.
fn detail_of(rank: Option<&str>) -> Detail
    ensures { result ≡ spec.detail_of (option_map (λ n. n.now) rank.entry) }
{
    match rank {
        Some("true") => Detail::Ranks,
        _ => Detail::Words,
    }
}

/// Returns how workers wait, as the value of `--sleep` selects it.
fn waits_of(sleep: Option<&str>) -> WaitMode
    ensures { result ≡ spec.waits_of (option_map (λ n. n.now) sleep.entry) }
{
    match sleep {
        Some("true") => WaitMode::Asleep,
        _ => WaitMode::Awake,
    }
}

/// Returns the task with this name.
///
/// `kind` is the name of the kind of lines. `detail` matters only for step scripts, and `waits` only for work.
fn task_of(name: &str, kind: Option<&str>, detail: Detail, waits: WaitMode) -> Task
    ensures { result ≡ spec.task_by name.now (option_map (λ n. n.now) kind.entry) detail waits }
{
    if name == "steps" {
        Task::Steps(detail)
    } else if name == "board" {
        Task::Work(WorkKind::Board, lock_named(kind), waits)
    } else if name == "bank" {
        Task::Work(WorkKind::Bank, lock_named(kind), waits)
    } else {
        Task::Replay(replayed_by(kind))
    }
}

/// Returns the lock of the lines with this kind, which replay a schedule, or `None` for the plain reference.
fn replayed_by(kind: Option<&str>) -> Option<Lock>
    ensures { result ≡ spec.replayed_by (option_map (λ n. n.now) kind.entry) }
{
    kind.and_then(Lock::named)
}

/// Returns the lock with this name, or `Lock::Link` if no name is given or no lock has it.
fn lock_named(name: Option<&str>) -> Lock
    ensures { result ≡ spec.lock_of_name (option_map (λ n. n.now) name.entry) }
{
    name.and_then(Lock::named).unwrap_or(Lock::Link)
}

/// Builds the program's command.
fn command<'a>(alloc: Global) -> Result<Command<'a>, AllocError>
    ensures { IfOk result (λ r. (names : KindNames) × (app_of r ≡ the_command names)) }
{
    let replayed = REPLAYED.as_slice();
    let shared = NAMES.as_slice();
    with_work(alloc, scripts(alloc, replayed)?, shared)?.subcommand(draw(alloc)?)
}

/// Builds the command with two subcommands, for schedules and for step scripts.
///
/// One subcommand replays a schedule on lines of one of these kinds, and the other runs a step script.
fn scripts<'a>(alloc: Global, kinds: &'a [&'a str]) -> Result<Command<'a>, AllocError>
    ensures { IfOk result (λ r. app_of r ≡ replay_or_steps kinds.entry) }
{
    program(alloc)
        .subcommand(replay(alloc, kinds)?)?
        .subcommand(steps(alloc)?)
}

/// Adds the subcommands for work, over lines of these kinds.
fn with_work<'a>(
    alloc: Global,
    command: Command<'a>,
    kinds: &'a [&'a str],
) -> Result<Command<'a>, AllocError>
    ensures { IfOk result (λ r. app_of r ≡ with_workers (app_of command.entry) kinds.entry) }
{
    command
        .subcommand(work(alloc, "board", BOARD, kinds)?)?
        .subcommand(work(alloc, "bank", BANK, kinds)?)
}

/// Builds the program's command without its subcommands.
fn program<'a>(alloc: Global) -> Command<'a>
    ensures { app_of result ≡ bare_command }
{
    Command::new(alloc, "qolb")
        .about(ABOUT)
        .version(VERSION)
        .after_help(STATUSES)
        .subcommand_required(true)
}

/// Builds the subcommand that replays a schedule, on lines of one of these kinds.
fn replay<'a>(alloc: Global, kinds: &'a [&'a str]) -> Result<Command<'a>, AllocError>
    ensures { IfOk result (λ r. app_of r ≡ replay_command kinds.entry) }
{
    Command::new(alloc, "replay")
        .about("Replays the schedule script on standard input, and prints what each\ncall answers")
        .after_help(REPLAY)
        .arg(kind_argument(alloc, kinds, REPLAYED_HELP).required(true))?
        .arg(explain(alloc, MISUSE_EXPLAINED))
}

/// Builds the subcommand that runs a step script.
fn steps<'a>(alloc: Global) -> Result<Command<'a>, AllocError>
    ensures { IfOk result (λ r. app_of r ≡ steps_command) }
{
    Command::new(alloc, "steps")
        .about(
            "Runs the step script on standard input on the link line's core, and\nprints what each event tells",
        )
        .after_help(STEPS)
        .arg(flag(
            alloc,
            "rank",
            "Prints after each word how many productive events can follow\neach other from there",
        ))?
        .arg(explain(alloc, REFUSALS_EXPLAINED))
}

/// Builds the subcommand for work of this name, over lines of these kinds.
fn work<'a>(
    alloc: Global,
    name: &'a str,
    script: &'a str,
    kinds: &'a [&'a str],
) -> Result<Command<'a>, AllocError>
    ensures { IfOk result (λ r. app_of r ≡ work_command name.entry.now kinds.entry) }
{
    Command::new(alloc, name)
        .about(
            "Does the jobs of the work script on standard input, a thread for each\nworker, and prints a report",
        )
        .after_help(script)
        .arg(kind_argument(alloc, kinds, SHARED_HELP).default_value("link"))?
        .arg(flag(
            alloc,
            "sleep",
            "Workers sleep until they are woken, instead of polling",
        ))?
        .arg(flag(
            alloc,
            "progress",
            "Reports on standard error, once a second, how many of all\njobs are done",
        ))?
        .arg(explain(alloc, LINE_EXPLAINED))
}

/// Builds the subcommand that draws a schedule or a step script.
fn draw<'a>(alloc: Global) -> Result<Command<'a>, AllocError>
    ensures { IfOk result (λ r. app_of r ≡ draw_command) }
{
    Command::new(alloc, "draw")
        .about(
            "Draws the schedule script on standard input: how each node stands\nafter each command",
        )
        .after_help(DRAW)
        .arg(flag(alloc, "svg", "Draws an SVG instead of plain text"))?
        .arg(flag(alloc, "steps", "Draws a step script instead of a schedule"))?
        .arg(explain(alloc, LINE_EXPLAINED))
}

/// Builds an argument without a value: `--name`.
fn flag<'a>(alloc: Global, name: &'a str, help: &'a str) -> Arg<'a>
    ensures rule { rule_of result ≡ spec.flag_rule name.entry.now }
    ensures local { result.global ≡ false }
{
    Arg::new(alloc, name)
        .long(name)
        .help(help)
        .action(ArgAction::SetTrue)
}

/// Builds `--explain`.
fn explain<'a>(alloc: Global, help: &'a str) -> Arg<'a>
    ensures rule { rule_of result ≡ spec.flag_rule (codes "explain") }
    ensures local { result.global ≡ false }
{
    flag(alloc, "explain", help)
}

/// Builds `--kind`, whose value must be one of these names.
fn kind_argument<'a>(alloc: Global, kinds: &'a [&'a str], help: &'a str) -> Arg<'a>
    ensures rule { rule_of result ≡ kind_rule kinds.entry }
    ensures local { result.global ≡ false }
{
    Arg::new(alloc, "kind")
        .long("kind")
        .value_name("KIND")
        .help(help)
        .action(ArgAction::Set)
        .value_parser(kinds)
}

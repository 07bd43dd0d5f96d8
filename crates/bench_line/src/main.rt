//! The benchmark program: it measures how long the calls on a line take, or puts a line under stress.
#![tactic(auto)]

ghost use Rattle.std.specs.Prelude.{All, IsTrue};
ghost use Rattle.qolb_model.specs.PortStates.{may_ask};

mod enqueue;
mod fair;
mod law;
mod mutex;
mod pace;
mod rounds;
mod run;
mod stress;
mod workers;

use clap::{Arg, ArgAction, ArgMatches, Command};
use enqueue::{AtOnce, EnqueueStrategy, TwoCalls};
use fair::run_fair;
use law::NonDecreasing;
use line_generic::{Discipline, Line};
use line_kinds::{LinkLine, Lock, NAMES, for_kind};
use line_lanes::{Line64, lane};
use mutex::run_mutex;
use pace::Pace;
use qolb_model::{LineSync, OpenLine};
use rounds::Rounds;
use run::{RunError, open, run_task};
use std::alloc::{AllocError, Global};
use std::rt::Clock;
use std::sync::Wait;
use std::thread::Threads;
use std::time::{Duration, Instant};
use stress::Stress;

/// The numbers of threads that are timed; then the numbers of threads that are put under stress.
static THREADS: [u64; 5] = [1, 2, 3, 4, 8];

static STRESSED: [u64; 3] = [4, 8, 32];

/// The barging limit of a barging lock.
const BARGING_LIMIT: u16 = 1024;

/// The columns of a timed row: those of `c/bench/peers`.
const COLUMNS: &str =
    "workload\tthreads\tlock\tphases\tns\tlow\thigh\tp99\tp999\tlongest\tfair\tcpu\twaits";

/// The rounds of each thread if `--rounds` is not given: enough to show that no addition is lost.
const FEW_ROUNDS: u64 = 100;

/// What the command line asks for.
#[derive(Clone, Copy)]
enum Wanted {
    /// Runs a few rounds and prints the lane, to show that no addition is lost.
    Sums,
    /// Times this many rounds of each thread, over the kind of line with this name.
    Times(Way, &'static str, u64),
    /// Puts the line under stress for this many seconds.
    Stress(u64),
}

/// What a timed round consists of.
#[derive(Clone, Copy)]
enum Way {
    /// Each thread requests the line by a port of its own.
    Ports,
    /// The threads enter a strict fair lock. There is no line.
    Fair,
    /// The threads enter a barging fair lock. There is no line.
    Barging,
    /// The threads lock the toolchain's mutex.
    Mutex,
}

/// The kind of line, and how its nodes request it under stress.
#[derive(Clone, Copy)]
enum Kind {
    /// This kind of line. Its nodes request it by one call.
    AtOnce(Lock),
    /// The link line. Its nodes request it by two calls.
    TwoCalls,
}

fn main(rt: HostRuntime) -> anyhow::Result<()> {
    let alloc = rt.alloc();
    let mut words = Vec::new(alloc);
    for word in std::env::args(&rt)? {
        words.push(word)?;
    }
    let matches = command(alloc)?.try_get_matches_from(words.as_slice())?;
    let kind = kind_of(&matches);
    let wanted = wanted_of(&matches, kind);
    if let Wanted::Times(..) = wanted {
        println!(&rt; "{COLUMNS}")?;
    }
    if let Some(threads) = matches.get_one::<u64>("threads") {
        return run_kind(&rt, alloc, kind, threads, wanted);
    }
    let counts = match wanted {
        Wanted::Stress(_) => STRESSED.as_slice(),
        _ => THREADS.as_slice(),
    };
    for &threads in counts {
        run_kind(&rt, alloc, kind, threads, wanted)?;
    }
    Ok(())
}

/// The options that take a number, with its name and what they do.
static NUMBERS: [(&str, &str, &str); 3] = [
    (
        "rounds",
        "ROUNDS",
        "Rounds of each thread; with it times are printed",
    ),
    (
        "stress",
        "SECONDS",
        "Ask, withdraw and release at random for this time, and then close the line",
    ),
    ("threads", "THREADS", "So many threads, and no others"),
];

/// The options that say what is timed in place of a line.
static WAYS: [(&str, &str); 3] = [
    (
        "fair",
        "Rounds of a fair lock in the order of requests, in place of a line",
    ),
    (
        "barging",
        "Rounds of a fair lock with a barging limit of 1024, in place of a line",
    ),
    (
        "mutex",
        "Rounds of the toolchain's mutex, in place of a line",
    ),
];

/// The command line.
fn command<'a>(alloc: Global) -> Result<Command<'a>, AllocError> {
    let mut command = Command::new(alloc, "bench_line").about(
        "Times rounds of ask, add 1 to a lane, release, by 1, 2, 3, 4 and 8 threads",
    );
    for (name, value, help) in &NUMBERS {
        command = with_number(alloc, command, *name, *value, *help)?;
    }
    command = with_kind(alloc, command)?;
    command = with_apart(alloc, command)?;
    for (name, help) in &WAYS {
        command = with_way(alloc, command, *name, *help)?;
    }
    Ok(command)
}

/// Adds an option that takes a number of at least 1.
fn with_number<'a>(
    alloc: Global,
    command: Command<'a>,
    name: &'a str,
    value: &'a str,
    help: &'a str,
) -> Result<Command<'a>, AllocError> {
    let number = Arg::new(alloc, name)
        .long(name)
        .value_name(value)
        .help(help)
        .value_parser(clap::value_parser!(u64).range(1..));
    command.arg(number)
}

/// Adds the option that names the kind of line.
fn with_kind<'a>(alloc: Global, command: Command<'a>) -> Result<Command<'a>, AllocError> {
    let kind = Arg::new(alloc, "kind")
        .long("kind")
        .value_name("KIND")
        .help("The lock: a ring, where the words name none")
        .value_parser(NAMES.as_slice());
    command.arg(kind)
}

/// Adds the option to request the line by two calls.
fn with_apart<'a>(alloc: Global, command: Command<'a>) -> Result<Command<'a>, AllocError> {
    let apart = Arg::new(alloc, "apart")
        .long("apart")
        .help("Under stress on a link line, ask by two calls with a pause at random between them")
        .action(ArgAction::SetTrue)
        .requires_arg("stress")?;
    command.arg(apart)
}

/// Adds an option that says what the timed rounds consist of.
fn with_way<'a>(
    alloc: Global,
    command: Command<'a>,
    name: &'a str,
    help: &'a str,
) -> Result<Command<'a>, AllocError> {
    let way = Arg::new(alloc, name)
        .long(name)
        .help(help)
        .action(ArgAction::SetTrue)
        .requires_arg("rounds")?;
    command.arg(way)
}

/// Returns what the timed rounds consist of: calls of ports, if none of `--fair`, `--barging` and `--mutex` is given.
fn way_of(matches: &ArgMatches) -> Way {
    if matches.get_flag("mutex") {
        Way::Mutex
    } else if matches.get_flag("fair") {
        Way::Fair
    } else if matches.get_flag("barging") {
        Way::Barging
    } else {
        Way::Ports
    }
}

/// Returns the name of what is timed, as a timed row has it.
fn name_of(way: Way, kind: Kind) -> &'static str {
    match (way, kind) {
        (Way::Fair, _) => "FairLock, strict",
        (Way::Barging, _) => "FairLock, barging",
        (Way::Mutex, _) => "the toolchain's mutex",
        (Way::Ports, Kind::AtOnce(Lock::Ring)) => "ring in Rattle",
        (Way::Ports, Kind::AtOnce(Lock::Ticket)) => "ticket line in Rattle",
        (Way::Ports, Kind::AtOnce(Lock::Link) | Kind::TwoCalls) => "link line in Rattle",
    }
}

/// What the command line asks for.
fn wanted_of(matches: &ArgMatches, kind: Kind) -> Wanted {
    match (
        matches.get_one::<u64>("stress"),
        matches.get_one::<u64>("rounds"),
    ) {
        (Some(seconds), _) => Wanted::Stress(seconds),
        (None, Some(rounds)) => {
            let way = way_of(matches);
            Wanted::Times(way, name_of(way, kind), rounds)
        }
        (None, None) => Wanted::Sums,
    }
}

/// Returns the kind of line, and how its nodes request it. The kind is a ring if `--kind` is not given.
fn kind_of(matches: &ArgMatches) -> Kind {
    if matches.get_flag("apart") {
        return Kind::TwoCalls;
    }
    let named = matches.get_str("kind").and_then(Lock::named);
    Kind::AtOnce(named.unwrap_or(Lock::Ring))
}

/// Runs what the command line asks for, on a line of this kind.
fn run_kind<R: Threads + Wait + Clock + Print + Sync>(
    rt: &R,
    alloc: Global,
    kind: Kind,
    threads: u64,
    wanted: Wanted,
) -> anyhow::Result<()> {
    match kind {
        Kind::AtOnce(lines) => {
            for_kind!(lines, bench_at_once, [R], (rt, alloc, threads, wanted))
        }
        Kind::TwoCalls => {
            bench::<R, TwoCalls, LinkLine<NonDecreasing>>(
                rt,
                alloc,
                TwoCalls::new(),
                threads,
                wanted,
            )
        }
    }
}

/// Runs what the command line asks for on a line of this discipline, whose nodes request it by one call.
fn bench_at_once<
    R: Threads + Wait + Clock + Print + Sync,
    Q: Discipline<NonDecreasing> + Send + Sync,
>(rt: &R, alloc: Global, threads: u64, wanted: Wanted) -> anyhow::Result<()> {
    match wanted {
        Wanted::Times(Way::Fair, name, rounds) => {
            measure_fair(rt, alloc, threads, name, rounds, None)
        }
        Wanted::Times(Way::Barging, name, rounds) => {
            measure_fair(rt, alloc, threads, name, rounds, Some(BARGING_LIMIT))
        }
        Wanted::Times(Way::Mutex, name, rounds) => {
            measure_mutex(rt, alloc, threads, name, rounds)
        }
        _ => bench::<R, AtOnce, Line<NonDecreasing, Q>>(rt, alloc, AtOnce, threads, wanted),
    }
}

/// Opens a line of `threads` nodes, and runs on it what the command line asks for.
fn bench<
    R: Threads + Wait + Clock + Print + Sync,
    A: EnqueueStrategy<L> + Sync + Drop,
    L: OpenLine<NonDecreasing> + Sync + Drop,
>(rt: &R, alloc: Global, asking: A, threads: u64, wanted: Wanted) -> anyhow::Result<()>
where
    L::Port: Send + Drop,
{
    let (line, ports) = open::<L>(alloc, threads)?;
    match wanted {
        Wanted::Sums => show(rt, alloc, line, ports, threads),
        Wanted::Times(_, name, rounds) => { measure(rt, alloc, line, ports, threads, name, rounds) }
        Wanted::Stress(seconds) => {
            put_under_stress(rt, alloc, line, ports, asking, threads, seconds)
        }
    }
}

/// Runs a few rounds, and prints the first lane.
fn show<R: Threads + Wait + Clock + Print + Sync, L: LineSync<NonDecreasing> + Sync + Drop>(
    rt: &R,
    alloc: Global,
    line: L,
    ports: Vec<L::Port>,
    threads: u64,
) -> anyhow::Result<()>
where
    L::Port: Send + Drop,
    requires ports { All (λ port. L.belongs line port) ports.items }
    requires state { All (λ port. IsTrue (may_ask (L.view port).state)) ports.items }
{
    let task = Rounds { rounds: FEW_ROUNDS };
    let last = run_task(rt, alloc, line, ports, &task)?;
    println!(rt; "threads {threads} lane sum {}", lane(&last, 0))?;
    Ok(())
}

/// Runs and prints the time of `rounds` rounds.
fn measure<R: Threads + Wait + Clock + Print + Sync, L: LineSync<NonDecreasing> + Sync + Drop>(
    rt: &R,
    alloc: Global,
    line: L,
    ports: Vec<L::Port>,
    threads: u64,
    name: &str,
    rounds: u64,
) -> anyhow::Result<()>
where
    L::Port: Send + Drop,
    requires ports { All (λ port. L.belongs line port) ports.items }
    requires state { All (λ port. IsTrue (may_ask (L.view port).state)) ports.items }
{
    let start = Instant::now(rt)?;
    let last = run_task(rt, alloc, line, ports, &Rounds { rounds })?;
    show_row(rt, threads, name, rounds, start.elapsed(rt)?, &last)
}

/// Runs and prints the time of `rounds` rounds of a fair lock.
fn measure_fair<R: Threads + Wait + Clock + Print + Sync>(
    rt: &R,
    alloc: Global,
    threads: u64,
    name: &str,
    rounds: u64,
    barging_limit: Option<u16>,
) -> anyhow::Result<()> {
    let start = Instant::now(rt)?;
    let last = run_fair(rt, alloc, threads as usize, rounds, barging_limit)?;
    show_row(rt, threads, name, rounds, start.elapsed(rt)?, &last)
}

/// Runs and prints the time of `rounds` rounds of the toolchain's mutex.
fn measure_mutex<R: Threads + Wait + Clock + Print + Sync>(
    rt: &R,
    alloc: Global,
    threads: u64,
    name: &str,
    rounds: u64,
) -> anyhow::Result<()> {
    let start = Instant::now(rt)?;
    let last = run_mutex(rt, alloc, threads as usize, rounds)?;
    show_row(rt, threads, name, rounds, start.elapsed(rt)?, &last)
}

/// Prints a row with the columns of `c/bench/peers`: A for a round that adds 1 to a lane, one phase, the time, and the
/// rounds.
///
/// The other columns are not measured here. A lost addition is an error.
fn show_row<R: Print>(
    rt: &R,
    threads: u64,
    name: &str,
    rounds: u64,
    time: Duration,
    last: &Line64,
) -> anyhow::Result<()> {
    let pace = Pace::of(threads, rounds, time);
    println!(rt;
        "A\t{threads}\t{name}\t1\t{}.{}\t-\t-\t-\t-\t-\t-\t-\t{}",
        pace.tenths / 10,
        pace.tenths % 10,
        pace.rounds
    )?;
    let missing = pace.rounds.abs_diff(u128::from(lane(last, 0)));
    let lost = u64::try_from(missing).unwrap_or(u64::MAX);
    if lost > 0 {
        return Err(RunError::Lost(lost).into());
    }
    Ok(())
}

/// Puts the line under stress, and prints what the nodes did and how many additions were lost. A lost addition is an
/// error.
fn put_under_stress<
    R: Threads + Wait + Clock + Print + Sync,
    L: LineSync<NonDecreasing> + Sync + Drop,
    A: EnqueueStrategy<L> + Sync + Drop,
>(
    rt: &R,
    alloc: Global,
    line: L,
    ports: Vec<L::Port>,
    asking: A,
    threads: u64,
    seconds: u64,
) -> anyhow::Result<()>
where
    L::Port: Send + Drop,
    requires ports { All (λ port. L.belongs line port) ports.items }
    requires state { All (λ port. IsTrue (may_ask (L.view port).state)) ports.items }
{
    let task = Stress::new(asking, Instant::now(rt)?, Duration::from_secs(seconds));
    let last = run_task(rt, alloc, line, ports, &task)?;
    let counts = task.counts();
    let late = task.asking().late_links();
    let lost = counts.lost(lane(&last, 0));
    println!(rt;
        "threads {threads} rounds {} grants {} withdrawals {} busy {} late links {late} told {} lost {lost}",
        counts.rounds, counts.grants, counts.withdrawals, counts.busy, counts.told
    )?;
    if lost > 0 {
        return Err(RunError::Lost(lost).into());
    }
    Ok(())
}

//! Tests replays with limited memory. Lines of different kinds need different amounts of memory, so the tests show that
//! a replay opens lines of the requested kind.
use crate::tests::rows::expect_at;
use line_kinds::{Lock, TicketLine};
use qolb_model::Free;
use qolb_run::{Kind, REPLAYED, ReplayError, run_schedule, run_schedule_over, run_schedule_with};
use qolb_script::Watched;
use std::alloc::Global;
use std::process::Abort;
use std::test::Fail;
use test_support::{GRAIN, MemoryLimit};

/// Eight lines for 200 nodes, and no command.
const MANY_NODES: &str = "nodes 200 lines 8\n";

/// The reply to `MANY_NODES`.
const EIGHT_LINES: &str =
    "line 0 served 0 withdrawn 0 told 0 left 0\nline 1 served 0 withdrawn 0 told 0 left 0\nline 2 served 0 withdrawn 0 told 0 left 0\nline 3 served 0 withdrawn 0 told 0 left 0\nline 4 served 0 withdrawn 0 told 0 left 0\nline 5 served 0 withdrawn 0 told 0 left 0\nline 6 served 0 withdrawn 0 told 0 left 0\nline 7 served 0 withdrawn 0 told 0 left 0\n";

/// Limits of memory in KB. Each limit has room for eight lines of one more kind than the limit before it. With 200
/// nodes, a plain line takes 3.3 KB. The words of a link line or of a ring take 26 or 33 KB; a ticket line takes 33 KB
/// of words and 33 KB of slots. These last three kinds also take 25 KB of ports each.
static ROOMS: [usize; 4] = [300, 450, 650, 1_200];

/// A call that replays a schedule.
#[derive(Clone, Copy, Debug)]
enum Call {
    /// `run_schedule_with`.
    With(Option<Lock>),
    /// `run_schedule`.
    Named(Kind),
    /// `run_schedule_over` ticket lines, named by their type.
    OverTickets,
}

/// Replays the script with at most `bytes` bytes of memory. Returns the error, and what was written.
fn replayed(
    alloc: Global,
    limit: &MemoryLimit,
    script: &str,
    bytes: usize,
    call: Call,
) -> Result<(Option<ReplayError>, Vec<u8>), Fail> {
    let mut reader = Watched::new(script.as_bytes());
    let mut text: Vec<u8> = Vec::with_capacity(alloc, 1 << 10)?;
    let mut writer = Watched::new(&mut text);
    let rest = limit.leave(alloc, bytes)?;
    let done = match call {
        Call::With(kind) => run_schedule_with(alloc, &mut reader, &mut writer, kind),
        Call::Named(kind) => run_schedule(alloc, &mut reader, &mut writer, kind),
        Call::OverTickets => {
            run_schedule_over::<TicketLine<Free>, _, _>(alloc, &mut reader, &mut writer)
        }
    };
    drop(rest);
    Ok((done.err(), text))
}

/// Calls, each with the index of the first limit that has room for its lines.
static CALLS: [(Call, usize); 8] = [
    (Call::With(None), 0),
    (Call::With(Some(Lock::Link)), 1),
    (Call::With(Some(Lock::Ring)), 2),
    (Call::With(Some(Lock::Ticket)), 3),
    (Call::Named(Kind::Plain), 0),
    (Call::Named(Kind::Link), 1),
    (Call::Named(Kind::Ring), 2),
    (Call::OverTickets, 3),
];

#[test]
fn run_schedule_takes_lines_of_its_kind(rt: HostRuntime) -> Result<(), Fail> {
    let limit = MemoryLimit::begin(rt.alloc(), 1 << 23)?;
    for (at, room) in ROOMS.iter().enumerate() {
        for (call, first) in &CALLS {
            let (error, text) = replayed(rt.alloc(), &limit, MANY_NODES, *room << 10, *call)?;
            let wanted = if at < *first {
                (Some(ReplayError::Memory), b"".as_slice())
            } else {
                (None, EIGHT_LINES.as_bytes())
            };
            expect_at(&rt, &(*call, *room), (error, text.as_slice()), wanted);
        }
    }
    Ok(())
}

/// A schedule in which two nodes take turns, and one of them withdraws.
const SHORT: &str =
    "nodes 2 lines 1\nenq 1 0\nwrite 1 0 0 07\nenq 2 0\nout 2 0\nenq 2 0\ndeq 1 0\nenq 2 0\n";

const SHORT_REPLY: &str =
    "granted\nok\nqueued\nwithdrawn\nbusy\nreleased\ngranted\nline 0 served 1 withdrawn 1 told 0 left 1\n";

/// Replays `SHORT` with limits of memory that grow by the heap's smallest step, so that each allocation is refused
/// once, until a limit is large enough. Returns the number of limits that were too small.
fn refusals_of<R: Abort>(
    rt: &R,
    alloc: Global,
    limit: &MemoryLimit,
    kind: Option<Lock>,
) -> Result<usize, Fail> {
    for grains in 2..8_000usize {
        let (error, text) = replayed(alloc, limit, SHORT, GRAIN * grains, Call::With(kind))?;
        if error.is_none() {
            expect_at(rt, &kind, text.as_slice(), SHORT_REPLY.as_bytes());
            return Ok(grains - 2);
        }
        expect_at(
            rt,
            &(kind, grains),
            (error, text.len()),
            (Some(ReplayError::Memory), 0),
        );
    }
    Err(Fail::from("no room was large enough"))
}

#[test]
fn each_allocation_of_a_replay_is_refused(rt: HostRuntime) -> Result<(), Fail> {
    let limit = MemoryLimit::begin(rt.alloc(), 1 << 20)?;
    for kind in &REPLAYED {
        let refused = refusals_of(&rt, rt.alloc(), &limit, *kind)?;
        expect_at(&rt, kind, refused > 100, true);
    }
    Ok(())
}

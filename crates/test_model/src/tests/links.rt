//! Tests the core of the link line, one event at a time.
use crate::tests::rows::{expect, expect_at};
use line_lanes::{Line64, Mask};
use link_core::{Core, Entry, Event, NotEnabled, Place, Point, Told, replay};
use std::process::Abort;
use std::test::Fail;

/// Runs the events on a line that was just opened, expects each answer or error, and returns the core.
fn expect_run(
    rt: &impl Abort,
    nodes: u64,
    script: &[(Event, Result<Told, NotEnabled>)],
) -> Result<Core, Fail> {
    let mut core = Core::start(nodes, Line64::zero()).ok_or("1 to 200 nodes")?;
    expect_told(rt, &mut core, script);
    expect_replay(rt, &core, script);
    Ok(core)
}

/// The largest number of events in a run that is replayed.
const MAX_EVENTS: usize = 26;

/// Expects that a replay of the run reaches this core, or that it names the first refused event.
fn expect_replay(rt: &impl Abort, core: &Core, script: &[(Event, Result<Told, NotEnabled>)]) {
    let mut events = [Event::Reset(1); MAX_EVENTS];
    let mut wanted = None;
    for (at, (event, want)) in script.iter().enumerate() {
        if at < MAX_EVENTS {
            events[at] = *event;
        }
        if let (None, Err(why)) = (wanted, want) {
            wanted = Some((at, *why));
        }
    }
    let made = &events[..script.len().min(MAX_EVENTS)];
    match replay(core.nodes(), Line64::zero(), made) {
        Err(refused) => expect(rt, "a refused event", Some(refused), wanted),
        Ok(again) => {
            let found = (None, words_of(&again));
            expect(rt, "a replay", found, (wanted, words_of(core)));
            for node in 1..core.nodes().saturating_add(1) {
                expect_at(rt, &node, node_of(&again, node), node_of(core, node));
            }
        }
    }
}

/// The home word, the place of the line, and the rank.
fn words_of(core: &Core) -> (u64, Place, u64) {
    (core.home(), core.place(), core.rank())
}

/// Runs the events from this core, and expects each answer or error.
fn expect_told(rt: &impl Abort, core: &mut Core, script: &[(Event, Result<Told, NotEnabled>)]) {
    for (event, want) in script {
        expect_at(rt, event, core.step(*event), *want);
    }
}

/// The number of nodes of a line, and the events of a run with their answers.
static RUNS: [(u64, &[(Event, Result<Told, NotEnabled>)]); 9] = [
    // a release finds a successor that has not linked yet
    (
        2,
        &[
            (Event::Reset(1), Ok(Told::Went)),
            (Event::Prepend(1), Ok(Told::Granted)),
            (
                Event::Write(1, Mask(1), Line64 { bytes: [0xab; 64] }),
                Ok(Told::Went),
            ),
            (Event::Reset(2), Ok(Told::Went)),
            (Event::Prepend(2), Ok(Told::Went)),
            (Event::Home(1), Ok(Told::Went)),
            (Event::Done(1), Ok(Told::Released)),
            (Event::Load(1), Ok(Told::Busy)),
            (Event::Link(2), Ok(Told::Granted)),
            (Event::Load(1), Ok(Told::Free)),
            (Event::Reset(1), Ok(Told::Went)),
            (Event::Prepend(1), Ok(Told::Went)),
            (Event::Link(1), Ok(Told::Queued)),
        ],
    ),
    // a node withdraws before the grant
    (
        2,
        &[
            (Event::Reset(1), Ok(Told::Went)),
            (Event::Prepend(1), Ok(Told::Granted)),
            (Event::Reset(2), Ok(Told::Went)),
            (Event::Prepend(2), Ok(Told::Went)),
            (Event::Link(2), Ok(Told::Queued)),
            (Event::Home(1), Ok(Told::Went)),
            (Event::Done(1), Ok(Told::Went)),
            (Event::Roll(2), Ok(Told::Withdrawn)),
            (Event::Grant(1), Ok(Told::Went)),
            (Event::Home(1), Ok(Told::Went)),
            (Event::Load(2), Ok(Told::Busy)),
            (Event::Freed(1), Ok(Told::Released)),
            (Event::Load(2), Ok(Told::Free)),
        ],
    ),
    // a node withdraws after the grant
    (
        2,
        &[
            (Event::Reset(1), Ok(Told::Went)),
            (Event::Prepend(1), Ok(Told::Granted)),
            (Event::Reset(2), Ok(Told::Went)),
            (Event::Prepend(2), Ok(Told::Went)),
            (Event::Link(2), Ok(Told::Queued)),
            (Event::Home(1), Ok(Told::Went)),
            (Event::Done(1), Ok(Told::Went)),
            (Event::Grant(1), Ok(Told::Released)),
            (Event::Roll(2), Ok(Told::Granted)),
        ],
    ),
    // a node requests a line that it has closed
    (
        2,
        &[
            (Event::Reset(1), Ok(Told::Went)),
            (Event::Prepend(1), Ok(Told::Granted)),
            (Event::Close(1), Ok(Told::Went)),
            (Event::Home(1), Ok(Told::Shut)),
            (Event::Reset(1), Ok(Told::Went)),
            (Event::Prepend(1), Ok(Told::Went)),
            (Event::Home(1), Ok(Told::Closed)),
        ],
    ),
    // events that are not enabled at the point of their node
    (
        1,
        &[
            (Event::Link(1), Err(NotEnabled::Point)),
            (Event::Prepend(1), Err(NotEnabled::Point)),
            (Event::Reset(1), Ok(Told::Went)),
            (Event::Home(1), Err(NotEnabled::Point)),
        ],
    ),
    // a release skips two withdrawn nodes before a node that has not linked yet
    (
        4,
        &[
            (Event::Reset(1), Ok(Told::Went)),
            (Event::Prepend(1), Ok(Told::Granted)),
            (Event::Reset(2), Ok(Told::Went)),
            (Event::Prepend(2), Ok(Told::Went)),
            (Event::Link(2), Ok(Told::Queued)),
            (Event::Reset(3), Ok(Told::Went)),
            (Event::Prepend(3), Ok(Told::Went)),
            (Event::Link(3), Ok(Told::Queued)),
            (Event::Roll(2), Ok(Told::Withdrawn)),
            (Event::Roll(3), Ok(Told::Withdrawn)),
            (Event::Reset(4), Ok(Told::Went)),
            (Event::Prepend(4), Ok(Told::Went)),
            (Event::Home(1), Ok(Told::Went)),
            (Event::Done(1), Ok(Told::Went)),
            (Event::Grant(1), Ok(Told::Went)),
            (Event::Home(1), Ok(Told::Went)),
            (Event::Done(1), Ok(Told::Went)),
            (Event::Grant(1), Ok(Told::Went)),
            (Event::Home(1), Ok(Told::Went)),
            (Event::Done(1), Ok(Told::Went)),
            (Event::Freed(1), Ok(Told::Went)),
            (Event::Freed(1), Ok(Told::Released)),
            (Event::Load(2), Ok(Told::Free)),
            (Event::Load(3), Ok(Told::Busy)),
            (Event::Link(4), Ok(Told::Granted)),
            (Event::Load(3), Ok(Told::Free)),
        ],
    ),
    // a closed line skips a withdrawn node, and notifies the next node
    (
        3,
        &[
            (Event::Reset(1), Ok(Told::Went)),
            (Event::Prepend(1), Ok(Told::Granted)),
            (Event::Reset(2), Ok(Told::Went)),
            (Event::Prepend(2), Ok(Told::Went)),
            (Event::Link(2), Ok(Told::Queued)),
            (Event::Reset(3), Ok(Told::Went)),
            (Event::Prepend(3), Ok(Told::Went)),
            (Event::Link(3), Ok(Told::Queued)),
            (Event::Roll(2), Ok(Told::Withdrawn)),
            (Event::Close(1), Ok(Told::Went)),
            (Event::Home(1), Ok(Told::Went)),
            (Event::Done(1), Ok(Told::Went)),
            (Event::Grant(1), Ok(Told::Went)),
            (Event::Home(1), Ok(Told::Went)),
            (Event::Done(1), Ok(Told::Went)),
            (Event::Grant(1), Ok(Told::Went)),
            (Event::Freed(1), Ok(Told::Shut)),
            (Event::Load(3), Ok(Told::Went)),
            (Event::Home(3), Ok(Told::Closed)),
            (Event::Load(2), Ok(Told::Free)),
        ],
    ),
    // a notified node finds a successor that has not linked yet
    (
        2,
        &[
            (Event::Reset(1), Ok(Told::Went)),
            (Event::Prepend(1), Ok(Told::Granted)),
            (Event::Close(1), Ok(Told::Went)),
            (Event::Home(1), Ok(Told::Shut)),
            (Event::Reset(2), Ok(Told::Went)),
            (Event::Prepend(2), Ok(Told::Went)),
            (Event::Reset(1), Ok(Told::Went)),
            (Event::Prepend(1), Ok(Told::Went)),
            (Event::Home(2), Ok(Told::Went)),
            (Event::Done(2), Ok(Told::Closed)),
            (Event::Load(2), Ok(Told::Busy)),
            (Event::Link(1), Ok(Told::Went)),
            (Event::Home(1), Ok(Told::Closed)),
            (Event::Load(2), Ok(Told::Free)),
        ],
    ),
    // nodes 0 and 3 of a line with two nodes
    (
        2,
        &[
            (Event::Reset(0), Err(NotEnabled::Node)),
            (Event::Reset(3), Err(NotEnabled::Node)),
            (Event::Reset(2), Ok(Told::Went)),
        ],
    ),
];

#[test]
fn runs_are_told_and_replayed(rt: HostRuntime) -> Result<(), Fail> {
    for (nodes, script) in &RUNS {
        let _ = expect_run(&rt, *nodes, *script)?;
    }
    Ok(())
}

/// The lease of a line, and a run that uses the lease up.
static LEASES: [(u64, &[(Event, Result<Told, NotEnabled>)]); 2] = [
    // a lease of one acquisition
    (
        1,
        &[
            (Event::Reset(1), Ok(Told::Went)),
            (Event::Prepend(1), Ok(Told::Granted)),
            (Event::Home(1), Ok(Told::Shut)),
            (Event::Reset(1), Ok(Told::Went)),
            (Event::Prepend(1), Ok(Told::Went)),
            (Event::Home(1), Ok(Told::Closed)),
        ],
    ),
    // a lease of two acquisitions, and a withdrawal between them
    (
        2,
        &[
            (Event::Reset(1), Ok(Told::Went)),
            (Event::Prepend(1), Ok(Told::Granted)),
            (Event::Reset(2), Ok(Told::Went)),
            (Event::Prepend(2), Ok(Told::Went)),
            (Event::Link(2), Ok(Told::Queued)),
            (Event::Roll(2), Ok(Told::Withdrawn)),
            (Event::Home(1), Ok(Told::Went)),
            (Event::Done(1), Ok(Told::Went)),
            (Event::Grant(1), Ok(Told::Went)),
            (Event::Home(1), Ok(Told::Went)),
            (Event::Freed(1), Ok(Told::Released)),
            (Event::Reset(1), Ok(Told::Went)),
            (Event::Prepend(1), Ok(Told::Granted)),
            (Event::Home(1), Ok(Told::Shut)),
        ],
    ),
];

#[test]
fn the_last_turn_of_a_lease_closes_the_line(rt: HostRuntime) -> Result<(), Fail> {
    for (lease, script) in &LEASES {
        let mut core = Core::start_leased(2, Line64::zero(), *lease).ok_or("2 nodes")?;
        expect_told(&rt, &mut core, *script);
    }
    Ok(())
}

/// A release that has marked its request as done, and that has a successor.
static HANDING_OVER: [(Event, Result<Told, NotEnabled>); 7] = [
    (Event::Reset(1), Ok(Told::Went)),
    (Event::Prepend(1), Ok(Told::Granted)),
    (Event::Reset(2), Ok(Told::Went)),
    (Event::Prepend(2), Ok(Told::Went)),
    (Event::Link(2), Ok(Told::Queued)),
    (Event::Home(1), Ok(Told::Went)),
    (Event::Done(1), Ok(Told::Went)),
];

/// The grant that ends the release, and the release by the next holder.
static GRANTED: [(Event, Result<Told, NotEnabled>); 1] = [(Event::Grant(1), Ok(Told::Released))];

static TAKEN_HOME: [(Event, Result<Told, NotEnabled>); 2] = [
    (Event::Load(2), Ok(Told::Granted)),
    (Event::Home(2), Ok(Told::Released)),
];

/// An entry with neither a flag nor a link.
const CLEAR: Entry = Entry {
    granted: false,
    rolled: false,
    done: false,
    freed: false,
    link: 0,
};

/// The node's point and its entry.
fn node_of(core: &Core, node: u64) -> Option<(Point, Entry)> {
    if node < 1 || node > core.nodes() {
        return None;
    }
    Some((core.point(node), core.entry(node)))
}

/// The number of nodes, the place of the line, and the first two nodes.
fn seen(core: &Core) -> (u64, Place, [Option<(Point, Entry)>; 2]) {
    let first_two = [node_of(core, 1), node_of(core, 2)];
    (core.nodes(), core.place(), first_two)
}

#[test]
fn a_hand_over_is_seen_in_the_words(rt: HostRuntime) -> Result<(), Fail> {
    let mut core = expect_run(&rt, 2, HANDING_OVER.as_slice())?;
    let marked = Entry {
        done: true,
        link: 2,
        ..CLEAR
    };
    let nodes = [
        Some((Point::Granting(2), marked)),
        Some((Point::Queued, CLEAR)),
    ];
    let wanted = (2, Place::Hand(1), nodes);
    expect(&rt, "before the grant", seen(&core), wanted);
    expect(&rt, "the home word", core.home(), 2);

    expect_told(&rt, &mut core, GRANTED.as_slice());
    let granted = Entry {
        granted: true,
        ..CLEAR
    };
    let nodes = [Some((Point::Idle, marked)), Some((Point::Queued, granted))];
    let wanted = (2, Place::Mailbox(2), nodes);
    expect(&rt, "after the grant", seen(&core), wanted);

    expect_told(&rt, &mut core, TAKEN_HOME.as_slice());
    let end = (core.place(), core.home());
    expect(&rt, "at the end", end, (Place::Home, 0));
    Ok(())
}

/// The core in which node 2 holds the line, and nodes 1 and 3 have made their requests but have not linked them.
static THREE_PENDING: [(Event, Result<Told, NotEnabled>); 12] = [
    (Event::Reset(1), Ok(Told::Went)),
    (Event::Prepend(1), Ok(Told::Granted)),
    (Event::Reset(2), Ok(Told::Went)),
    (Event::Prepend(2), Ok(Told::Went)),
    (Event::Link(2), Ok(Told::Queued)),
    (Event::Home(1), Ok(Told::Went)),
    (Event::Done(1), Ok(Told::Went)),
    (Event::Grant(1), Ok(Told::Released)),
    (Event::Reset(1), Ok(Told::Went)),
    (Event::Prepend(1), Ok(Told::Went)),
    (Event::Reset(3), Ok(Told::Went)),
    (Event::Prepend(3), Ok(Told::Went)),
];

/// The productive events from `THREE_PENDING`, each with the rank before it. The rank is the value of the ranking
/// function.
static RANKS: [(u64, Event); 12] = [
    (12, Event::Load(2)),
    (11, Event::Link(1)),
    (10, Event::Link(3)),
    (9, Event::Home(2)),
    (8, Event::Done(2)),
    (7, Event::Grant(2)),
    (6, Event::Load(1)),
    (5, Event::Home(1)),
    (4, Event::Done(1)),
    (3, Event::Grant(1)),
    (2, Event::Load(3)),
    (1, Event::Home(3)),
];

#[test]
fn each_productive_event_takes_one_off_the_rank(rt: HostRuntime) -> Result<(), Fail> {
    let mut core = expect_run(&rt, 3, THREE_PENDING.as_slice())?;
    for (left, event) in &RANKS {
        let found = (core.rank(), core.step(*event).is_ok());
        expect_at(&rt, event, found, (*left, true));
    }
    expect(&rt, "the rank at the end", core.rank(), 0);
    Ok(())
}

//! Runs the examples and the waiting calls on all kinds of lines. The tests are generic over the line. Only one place
//! names the kinds of lines: wherever a kind is named, the prover takes a few seconds to check that this kind
//! implements the trait of lines.
ghost use Rattle.std.specs.Prelude.{◌≡◌, IsTrue};
ghost use Rattle.qolb_model.specs.PortStates.{may_ask};

mod again;
mod ahead;
mod asleep;
mod counted;
mod held;
mod kept;
mod noted;
mod parked;
mod passing;
mod refused;
mod strategies;
mod together;

use counted::Counting;
use example_line::capacity::SeatLimit;
use example_line::mailbox::Acquired;
use example_line::{capacity, counter, fair, mailbox};
use held::{expect, expect_at, open_one, open_two};
use line_blocking::{Got, acquire};
use line_generic::{Discipline, Line};
use line_kinds::{ALL, LinkQueue, TicketLine, for_kind};
use line_lanes::Line64;
use parked::NoHooks;
use qolb_model::{Free, LineSync, OpenLine, PortState};
use std::alloc::Global;
use std::process::Abort;
use std::rt::Clock;
use std::sync::Wait;
use std::test::Fail;
use std::thread::Threads;
use test_support::HookedLine;

/// The tests that run over lines of one type.
#[derive(Clone, Copy)]
enum Row {
    Additions,
    Turns,
    Mailbox,
    Lanes,
    Closing,
    Fairness,
    Patience,
    Waits,
    Limits,
    Leases,
    Strategies,
    AfterBusy,
    Sleeps,
    LongSleeps,
    Parking,
    Ahead,
    Busy,
}

/// Runs `row` over lines of this type.
fn try_over<R: Threads + Wait + Clock + Abort + Sync, L: Counting + Sync>(
    rt: &R,
    alloc: Global,
    row: Row,
) -> Result<(), Fail>
where
    L::Port: Send + Drop,
{
    match row {
        Row::Additions => no_addition_is_lost::<R, L>(rt, alloc),
        Row::Turns => kept::each_addition_is_a_turn::<R, L>(rt, alloc),
        Row::Mailbox => kept::each_value_is_taken_up::<R, L>(rt, alloc),
        Row::Lanes => kept::a_value_lies_in_its_lane::<R, L>(rt, alloc),
        Row::Closing => {
            let wanted = Some([
                (Got::Granted, PortState::Shut),
                (Got::Closed, PortState::Shut),
            ]);
            expect(
                rt,
                "granted and told",
                told_at_a_new_line::<R, L>(rt, alloc),
                wanted,
            );
        }
        Row::Fairness => {
            let wanted = Some([Got::Granted, Got::Closed]);
            expect(
                rt,
                "one after the other",
                fair_at_a_new_line::<R, L>(rt, alloc),
                wanted,
            );
        }
        Row::Patience => {
            let wanted = Some([Acquired::Late, Acquired::Late, Acquired::Granted]);
            expect(rt, "late", late_at_a_new_line::<L>(alloc), wanted);
        }
        Row::Waits => asleep::each_wait::<R, L>(rt, alloc),
        Row::Limits => asleep::no_grant_is_lost_to_a_time_limit::<R, L>(rt, alloc),
        Row::Leases => asleep::sleepers_and_late_ones_share_a_lease::<R, L>(rt, alloc),
        Row::Strategies => strategies::a_strategy_is_asked_after_each_poll::<R, L>(rt, alloc),
        Row::AfterBusy => strategies::a_wait_begins_anew_after_busy_tries::<R, L>(rt, alloc),
        Row::Sleeps => noted::each_sleep::<R, L>(rt, alloc),
        Row::LongSleeps => {
            parked::a_sleep_lasts_as_long_as_it_may::<R, L>(rt, alloc);
            parked::a_sleep_lasts_as_long_as_it_may::<R, HookedLine<NoHooks, L>>(rt, alloc);
        }
        Row::Parking => {
            counted::sleepers_are_counted::<R, L>(rt, alloc);
            parked::all_sleep_at_the_same_time::<R, L>(rt, alloc);
        }
        Row::Ahead => ahead::each_release_wakes_one_ahead::<R, L>(rt, alloc),
        Row::Busy => again::each_manner::<R, L>(rt, alloc),
    }
    Ok(())
}

/// Runs `row` over lines of this discipline.
fn try_by<R: Threads + Wait + Clock + Abort + Sync, Q: Discipline<Free> + Send + Sync>(
    rt: &R,
    alloc: Global,
    row: Row,
) -> Result<(), Fail> {
    try_over::<R, Line<Free, Q>>(rt, alloc, row)
}

/// Runs `row` over each kind of line.
fn over_each<R: Threads + Wait + Clock + Abort + Sync>(
    rt: &R,
    alloc: Global,
    row: Row,
) -> Result<(), Fail> {
    for lines in ALL {
        for_kind!(lines, try_by, [R], (rt, alloc, row))?;
    }
    Ok(())
}

/// Three threads count to 3,000. A line for 0 or for 201 nodes is refused.
fn no_addition_is_lost<R: Threads + Wait + Abort + Sync, L: OpenLine<Free> + Sync + Drop>(
    rt: &R,
    alloc: Global,
)
where
    L::Port: Send + Drop,
{
    for (nodes, rounds, wanted) in [(3, 1_000, Some(3_000)), (0, 1, None), (201, 1, None)] {
        let counted = counter::count::<R, L>(rt, alloc, nodes, rounds);
        expect_at(rt, nodes, counted, wanted);
    }
}

/// Clerks sell as many seats as they have customers, but at most all 100. A line for 201 clerks is refused.
fn the_house_is_sold_out<R: Threads + Wait + Abort + Sync, H: OpenLine<SeatLimit> + Sync + Drop>(
    rt: &R,
    alloc: Global,
)
where
    H::Port: Send + Drop,
{
    for (clerks, customers, sold) in [
        (4, 40, Some(100)),
        (4, 20, Some(80)),
        (1, 99, Some(99)),
        (1, 101, Some(100)),
        (200, 1, Some(100)),
        (201, 1, None),
    ] {
        let found = capacity::sell::<R, H>(rt, alloc, clerks, customers);
        expect_at(rt, customers, found, sold);
    }
}

/// A node is granted the line, shuts it, and requests it again. Returns both answers, each with the state after it.
fn granted_and_then_told<R: Wait, L: LineSync<Free>>(
    rt: &R,
    line: &L,
    port: &mut L::Port,
) -> Option<[(Got, PortState); 2]>
    requires belongs { L.belongs line.now port.old }
    requires state { IsTrue (may_ask (L.view port.old).state) }
{
    let first = acquire(rt, line, port);
    let Got::Granted = first else {
        return None;
    };
    line.shut(port);
    let shut = L::state(port);
    let second = acquire(rt, line, port);
    Some([(first, shut), (second, L::state(port))])
}

/// Returns these answers for the only node of a new line.
fn told_at_a_new_line<R: Wait, L: OpenLine<Free> + Drop>(
    rt: &R,
    alloc: Global,
) -> Option<[(Got, PortState); 2]>
where
    L::Port: Drop,
{
    let (line, mut port) = open_one::<L>(alloc, Line64::zero(), None)?;
    granted_and_then_told(rt, &line, &mut port)
}

/// Node 2 shuts the line in its turn, and then node 1 requests it. Returns both answers.
fn one_after_the_other<R: Wait, L: LineSync<Free>>(
    rt: &R,
    line: &L,
    one: &mut L::Port,
    two: &mut L::Port,
) -> Option<[Got; 2]>
    requires belongs_one { L.belongs line.now one.old }
    requires belongs_two { L.belongs line.now two.old }
    requires state_one { IsTrue (may_ask (L.view one.old).state) }
    requires state_two { IsTrue (may_ask (L.view two.old).state) }
    requires nodes { (L.config_of line.now).nodes ≡ 2 }
{
    let first = fair::after_the_other(rt, line, two);
    let Got::Granted = first else {
        return None;
    };
    line.shut(two);
    Some([first, fair::after_the_other(rt, line, one)])
}

/// Returns these answers for a new line of two nodes.
fn fair_at_a_new_line<R: Wait, L: OpenLine<Free> + Drop>(rt: &R, alloc: Global) -> Option<[Got; 2]>
where
    L::Port: Drop,
{
    let (line, mut one, mut two) = open_two::<L>(alloc)?;
    one_after_the_other(rt, &line, &mut one, &mut two)
}

/// Node 1 holds the line, and node 2 requests it twice with 3 polls. Node 1 releases, and node 2 requests the line once
/// more. Returns node 2's answers.
fn late<L: LineSync<Free>>(line: &L, one: &mut L::Port, two: &mut L::Port) -> Option<[Acquired; 3]>
    requires belongs_one { L.belongs line.now one.old }
    requires belongs_two { L.belongs line.now two.old }
    requires state_one { IsTrue (may_ask (L.view one.old).state) }
    requires state_two { IsTrue (may_ask (L.view two.old).state) }
{
    let Acquired::Granted = mailbox::ask(line, one, 0) else {
        return None;
    };
    let Acquired::Late = mailbox::ask(line, two, 3) else {
        return None;
    };
    let Acquired::Late = mailbox::ask(line, two, 3) else {
        return None;
    };
    line.deqolb(one);
    Some([Acquired::Late, Acquired::Late, mailbox::ask(line, two, 3)])
}

/// Returns node 2's answers at a new line of two nodes.
fn late_at_a_new_line<L: OpenLine<Free> + Drop>(alloc: Global) -> Option<[Acquired; 3]>
where
    L::Port: Drop,
{
    let (line, mut one, mut two) = open_two::<L>(alloc)?;
    late(&line, &mut one, &mut two)
}

#[test]
fn no_addition_is_lost_over_any_lock(rt: HostRuntime) -> Result<(), Fail> {
    over_each(&rt, rt.alloc(), Row::Additions)
}

#[test]
fn each_addition_is_a_turn(rt: HostRuntime) -> Result<(), Fail> {
    over_each(&rt, rt.alloc(), Row::Turns)
}

#[test]
fn each_value_of_a_mailbox_is_taken_up(rt: HostRuntime) -> Result<(), Fail> {
    over_each(&rt, rt.alloc(), Row::Mailbox)
}

#[test]
fn a_value_lies_in_its_lane(rt: HostRuntime) -> Result<(), Fail> {
    over_each(&rt, rt.alloc(), Row::Lanes)
}

#[test]
fn no_more_seats_are_sold_than_there_are(rt: HostRuntime) -> Result<(), Fail> {
    // What a data invariant allows does not depend on the kind of line.
    the_house_is_sold_out::<HostRuntime, TicketLine<SeatLimit>>(&rt, rt.alloc());
    Ok(())
}

#[test]
fn a_line_is_granted_and_then_closed(rt: HostRuntime) -> Result<(), Fail> {
    over_each(&rt, rt.alloc(), Row::Closing)
}

#[test]
fn a_turn_comes_or_the_line_is_closed(rt: HostRuntime) -> Result<(), Fail> {
    over_each(&rt, rt.alloc(), Row::Fairness)
}

#[test]
fn a_late_node_asks_again(rt: HostRuntime) -> Result<(), Fail> {
    over_each(&rt, rt.alloc(), Row::Patience)
}

#[test]
fn waiters_sleep_over_any_lock(rt: HostRuntime) -> Result<(), Fail> {
    over_each(&rt, rt.alloc(), Row::Waits)
}

#[test]
fn no_grant_is_lost_to_a_time_limit(rt: HostRuntime) -> Result<(), Fail> {
    over_each(&rt, rt.alloc(), Row::Limits)
}

#[test]
fn sleepers_and_late_ones_share_a_lease(rt: HostRuntime) -> Result<(), Fail> {
    over_each(&rt, rt.alloc(), Row::Leases)
}

#[test]
fn a_strategy_is_asked_after_each_waiting_poll(rt: HostRuntime) -> Result<(), Fail> {
    over_each(&rt, rt.alloc(), Row::Strategies)
}

#[test]
fn a_wait_begins_anew_after_busy_tries(rt: HostRuntime) -> Result<(), Fail> {
    over_each(&rt, rt.alloc(), Row::AfterBusy)
}

#[test]
fn waiters_sleep_as_long_as_they_may(rt: HostRuntime) -> Result<(), Fail> {
    over_each(&rt, rt.alloc(), Row::Sleeps)
}

#[test]
fn sleeps_last_as_long_as_they_may(rt: HostRuntime) -> Result<(), Fail> {
    over_each(&rt, rt.alloc(), Row::LongSleeps)
}

#[test]
fn sleepers_are_counted(rt: HostRuntime) -> Result<(), Fail> {
    over_each(&rt, rt.alloc(), Row::Parking)
}

#[test]
fn a_release_wakes_one_turn_ahead(rt: HostRuntime) -> Result<(), Fail> {
    over_each(&rt, rt.alloc(), Row::Ahead)
}

#[test]
fn whoever_is_busy_asks_again(rt: HostRuntime) -> Result<(), Fail> {
    over_each(&rt, rt.alloc(), Row::Busy)
}

#[test]
fn late_linker_of_a_closed_list_wakes(rt: HostRuntime) -> Result<(), Fail> {
    passing::late_linker_wakes::<_, LinkQueue>(&rt, rt.alloc());
    Ok(())
}

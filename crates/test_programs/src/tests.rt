//! Runs each test on each kind of line. The expected answers are written once, for any line.

mod boards;
mod counts;
mod desks;
mod rows;

use line_accounts::AccountLaw;
use line_board::BoardLaw;
use line_generic::{Discipline, Line};
use line_kinds::{ALL, for_kind};
use qolb_model::{Free, OpenLine, ParkingLine};
use std::alloc::Global;
use std::process::Abort;
use std::sync::Wait;
use std::test::Fail;
use std::thread::Threads;

/// Runs each test of the board over lines of this type.
fn each_board<
    R: Threads + Wait + Sync + Abort,
    L: OpenLine<BoardLaw> + ParkingLine<BoardLaw> + Sync + Drop,
>(rt: &R, alloc: Global) -> Result<(), Fail>
where
    L::Port: Send + Drop,
{
    boards::tasks_are_taken_in_their_order::<R, L>(rt, alloc)?;
    boards::tasks_lie_in_the_line::<R, L>(rt, alloc);
    boards::a_late_node_is_busy_until_it_is_passed::<R, L>(rt, alloc);
    boards::a_busy_node_asks_once::<R, L>(rt, alloc);
    boards::a_lease_ends_a_board::<R, L>(rt, alloc);
    boards::each_task_is_taken_once::<R, L>(rt, alloc)
}

/// What is tried over lines of each kind.
#[derive(Clone, Copy)]
enum Part {
    Boards,
    Desks(Row),
    Counts,
}

/// What is tried with desks.
#[derive(Clone, Copy)]
enum Row {
    Answers,
    /// Random transfers, in threads.
    Transfers,
    /// The answers of settling while memory is refused. It takes all memory of the process.
    SettlingWithoutMemory,
}

/// Tries `row` over lines of this type.
fn try_desks<
    R: Threads + Wait + Sync + Abort,
    L: OpenLine<AccountLaw> + ParkingLine<AccountLaw> + Sync + Drop,
>(rt: &R, alloc: Global, row: Row) -> Result<(), Fail>
where
    L::Port: Send + Drop,
{
    match row {
        Row::Answers => each_desk::<R, L>(rt, alloc),
        Row::Transfers => desks::what_was_paid_in_is_settled::<R, L>(rt, alloc),
        Row::SettlingWithoutMemory => {
            desks::settling_is_refused_for_want_of_memory::<R, L>(rt, alloc)
        }
    }
}

/// Runs each test of desks over lines of this type.
fn each_desk<
    R: Threads + Wait + Sync + Abort,
    L: OpenLine<AccountLaw> + ParkingLine<AccountLaw> + Sync + Drop,
>(rt: &R, alloc: Global) -> Result<(), Fail>
where
    L::Port: Send + Drop,
{
    desks::a_day_is_settled::<R, L>(rt, alloc);
    desks::a_balance_has_a_limit::<R, L>(rt, alloc);
    desks::a_full_balance_lies_in_its_lane::<R, L>(rt, alloc)?;
    desks::a_transfer_leaves_six_and_brings_four::<R, L>(rt, alloc)?;
    desks::a_transfer_goes_over_two_lines::<R, L>(rt, alloc);
    desks::a_transfer_keeps_the_limit::<R, L>(rt, alloc);
    desks::a_lease_closes_the_line::<R, L>(rt, alloc);
    desks::a_late_transfer_moves_nothing::<R, L>(rt, alloc);
    desks::a_busy_desk_asks_once::<R, L>(rt, alloc);
    desks::the_lower_line_is_asked_for_first::<R, L>(rt, alloc, 0, 9);
    desks::the_lower_line_is_asked_for_first::<R, L>(rt, alloc, 9, 0);
    Ok(())
}

/// Runs each program of threads that count, over lines of this type.
fn each_count<R: Threads + Wait + Sync + Abort, L: OpenLine<Free> + Sync + Drop>(
    rt: &R,
    alloc: Global,
) -> Result<(), Fail>
where
    L::Port: Send + Drop,
{
    counts::four_threads_raise_one_count::<R, L>(rt, alloc)?;
    counts::a_withdrawal_and_a_release_race::<R, L>(rt, alloc)
}

/// Tries `part` over lines of this discipline.
fn part_by<
    R: Threads + Wait + Sync + Abort,
    Q: Discipline<BoardLaw> + Discipline<AccountLaw> + Discipline<Free> + Send + Sync,
>(rt: &R, alloc: Global, part: Part) -> Result<(), Fail> {
    match part {
        Part::Boards => each_board::<R, Line<BoardLaw, Q>>(rt, alloc),
        Part::Desks(row) => try_desks::<R, Line<AccountLaw, Q>>(rt, alloc, row),
        Part::Counts => each_count::<R, Line<Free, Q>>(rt, alloc),
    }
}

/// Tries `part` over lines of each kind. The prover takes long wherever a kind is named, so the kinds are named only
/// here.
fn over_each<R: Threads + Wait + Sync + Abort>(
    rt: &R,
    alloc: Global,
    part: Part,
) -> Result<(), Fail> {
    for lines in ALL {
        for_kind!(lines, part_by, [R], (rt, alloc, part))?;
    }
    Ok(())
}

#[test]
fn boards_over_each_lock(rt: HostRuntime) -> Result<(), Fail> {
    over_each(&rt, rt.alloc(), Part::Boards)
}

#[test]
fn desks_over_each_lock(rt: HostRuntime) -> Result<(), Fail> {
    over_each(&rt, rt.alloc(), Part::Desks(Row::Answers))
}

#[test]
fn transfers_over_each_lock(rt: HostRuntime) -> Result<(), Fail> {
    over_each(&rt, rt.alloc(), Part::Desks(Row::Transfers))
}

#[test]
fn counts_over_each_lock(rt: HostRuntime) -> Result<(), Fail> {
    over_each(&rt, rt.alloc(), Part::Counts)
}

#[test]
fn settling_is_refused_without_memory(rt: HostRuntime) -> Result<(), Fail> {
    over_each(&rt, rt.alloc(), Part::Desks(Row::SettlingWithoutMemory))
}

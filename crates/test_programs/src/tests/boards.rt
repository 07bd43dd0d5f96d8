//! Tests the answers of the calls on a task board, which is stored in a line whose bytes are zero at the beginning.
ghost use Rattle.std.specs.Prelude.{IfSome};
ghost use Rattle.line_accounts.specs.NewDesks.{IsNewPort};

use crate::boards::{busy_node, eight_tasks, late_node, three_turns, two_tasks};
use crate::fixtures::{open_zeros, with_last, with_two};
use crate::producers::{Handed, hand_over};
use crate::tests::rows::{expect, expect_at};
use crate::tries::Tries;
use line_board::{BoardLaw, Put, Take};
use qolb_model::{OpenLine, ParkingLine, PortState};
use std::alloc::Global;
use std::process::Abort;
use std::sync::Wait;
use std::test::Fail;
use std::thread::Threads;
use test_support::HookedLine;

/// A line with an empty board for one node.
fn board<L: OpenLine<BoardLaw> + Drop>(alloc: Global, lease: Option<u64>) -> Option<(L, L::Port)>
where
    L::Port: Drop,
    ensures { IfSome result (λ made. IsNewPort L.belongs L.view made.0 made.1) }
{
    let opened = open_zeros::<BoardLaw, L>(alloc, 1, lease)?;
    with_last::<BoardLaw, L>(opened)
}

/// A line with an empty board for two nodes.
fn shared_board<L: OpenLine<BoardLaw> + Drop>(alloc: Global) -> Option<(L, L::Port, L::Port)>
where
    L::Port: Drop,
    ensures first { IfSome result (λ made. IsNewPort L.belongs L.view made.0 made.1) }
    ensures second { IfSome result (λ made. IsNewPort L.belongs L.view made.0 made.2) }
{
    let opened = open_zeros::<BoardLaw, L>(alloc, 2, None)?;
    with_two::<BoardLaw, L>(opened)
}

/// The answers of a board for one node to eight puts and eight takes.
fn eight_on_a_board<L: OpenLine<BoardLaw> + Drop>(alloc: Global) -> Option<([Put; 8], [Take; 8])>
where
    L::Port: Drop,
{
    let (line, mut port) = board::<L>(alloc, None)?;
    Some(eight_tasks(&line, &mut port))
}

/// The board stores seven tasks, is full for an eighth, and returns the seven in order. Then it is empty.
pub(super) fn tasks_are_taken_in_their_order<R: Abort, L: OpenLine<BoardLaw> + Drop>(
    rt: &R,
    alloc: Global,
) -> Result<(), Fail>
where
    L::Port: Drop,
{
    let (puts, takes) = eight_on_a_board::<L>(alloc).ok_or("opened")?;
    for (k, answer) in puts.iter().enumerate() {
        let want = if k < 7 { Put::Stored } else { Put::Full };
        expect_at(rt, &k, *answer, want);
    }
    for (k, answer) in takes.iter().enumerate() {
        let want = if k < 7 {
            Take::Task(k as u64 + 1)
        } else {
            Take::Empty
        };
        expect_at(rt, &k, *answer, want);
    }
    Ok(())
}

/// The answers of a board for one node to two puts, and its bytes afterwards.
fn two_on_a_board<L: OpenLine<BoardLaw> + Drop>(
    alloc: Global,
) -> Option<([Put; 2], Option<[u8; 64]>)>
where
    L::Port: Drop,
{
    let (line, mut port) = board::<L>(alloc, None)?;
    Some(two_tasks(&line, &mut port))
}

/// Tasks 5 and 9 are stored in the line's bytes in this order.
pub(super) fn tasks_lie_in_the_line<R: Abort, L: OpenLine<BoardLaw> + Drop>(rt: &R, alloc: Global)
where
    L::Port: Drop,
{
    let mut board = [0; 64];
    board[0] = 2;
    board[8] = 5;
    board[16] = 9;
    let want = Some(([Put::Stored, Put::Stored], Some(board)));
    expect(rt, "two tasks", two_on_a_board::<L>(alloc), want);
}

fn a_late_node<L: OpenLine<BoardLaw> + Drop>(
    alloc: Global,
) -> Option<([Put; 3], PortState, [Take; 2])>
where
    L::Port: Drop,
{
    let (line, mut holder, mut port) = shared_board::<L>(alloc)?;
    late_node(&line, &mut holder, &mut port)
}

/// A node that was late is busy afterwards, until its request is passed.
pub(super) fn a_late_node_is_busy_until_it_is_passed<R: Abort, L: OpenLine<BoardLaw> + Drop>(
    rt: &R,
    alloc: Global,
)
where
    L::Port: Drop,
{
    let puts = [Put::Late, Put::Busy, Put::Stored];
    let takes = [Take::Task(5), Take::Empty];
    let want = Some((puts, PortState::Rolled, takes));
    expect(rt, "a late node", a_late_node::<L>(alloc), want);
}

/// The answers to a busy node, and the number of its busy tries.
fn a_busy_node<L: OpenLine<BoardLaw> + ParkingLine<BoardLaw> + Drop>(
    alloc: Global,
) -> Option<([Put; 2], Take, u64)>
where
    L::Port: Drop,
{
    let tries = Tries::none();
    let (line, mut holder, mut port) = shared_board::<L>(alloc)?;
    let line = HookedLine::with(&tries, line);
    let (puts, found) = busy_node(&line, &mut holder, &mut port, 10)?;
    Some((puts, found, tries.count()))
}

/// A busy node makes one try, whatever its `patience`.
pub(super) fn a_busy_node_asks_once<R: Abort, L: OpenLine<BoardLaw> + ParkingLine<BoardLaw> + Drop>(
    rt: &R,
    alloc: Global,
)
where
    L::Port: Drop,
{
    let want = Some(([Put::Late, Put::Busy], Take::Busy, 2));
    expect(rt, "a busy node", a_busy_node::<L>(alloc), want);
}

/// The answers of a board with a lease of three turns.
fn a_leased_board<L: OpenLine<BoardLaw> + Drop>(
    alloc: Global,
) -> Option<([Put; 2], [Take; 3], PortState)>
where
    L::Port: Drop,
{
    let (line, mut port) = board::<L>(alloc, Some(3))?;
    Some(three_turns(&line, &mut port))
}

/// The last turn of the lease ends the board.
pub(super) fn a_lease_ends_a_board<R: Abort, L: OpenLine<BoardLaw> + Drop>(rt: &R, alloc: Global)
where
    L::Port: Drop,
{
    let puts = [Put::Stored, Put::Closed];
    let takes = [Take::Task(5), Take::Empty, Take::Closed];
    let want = Some((puts, takes, PortState::Shut));
    expect(rt, "a leased board", a_leased_board::<L>(alloc), want);
}

/// The tasks that each producer puts.
const TASKS: u32 = 1_000;

/// Runs two producers and two consumers on a line for four nodes.
fn handed_over<R: Threads + Wait + Sync, L: OpenLine<BoardLaw> + Sync + Drop>(
    rt: &R,
    alloc: Global,
) -> Option<Handed>
where
    L::Port: Send + Drop,
{
    let (line, ports) = open_zeros::<BoardLaw, L>(alloc, 4, None)?;
    hand_over(rt, alloc, line, ports, TASKS)
}

/// Each task is taken once, a consumer takes each producer's tasks in their order, and the board is empty at the end.
pub(super) fn each_task_is_taken_once<
    R: Threads + Wait + Sync + Abort,
    L: OpenLine<BoardLaw> + Sync + Drop,
>(rt: &R, alloc: Global) -> Result<(), Fail>
where
    L::Port: Send + Drop,
{
    let handed = handed_over::<R, L>(rt, alloc).ok_or("handed over")?;
    expect(rt, "tasks left", handed.rest.len(), 0);
    let mut all = Vec::new(alloc);
    for taken in handed.taken.iter() {
        let in_order = is_in_order(taken.as_slice(), u64::from(TASKS));
        expect(rt, "the order of each producer", in_order, true);
        for task in taken.iter() {
            all.push(*task)?;
        }
    }
    all.sort()?;
    expect(rt, "tasks", all.len(), 2 * TASKS as usize);
    for (k, task) in all.iter().enumerate() {
        expect_at(rt, &k, *task, k as u64);
    }
    Ok(())
}

/// Returns `true` if the tasks below `count` rise in `taken`, and the others too.
fn is_in_order(taken: &[u64], count: u64) -> bool {
    let mut low = 0;
    let mut high = count;
    for task in taken {
        let least = if *task < count { &mut low } else { &mut high };
        if *task < *least {
            return false;
        }
        *least = task.saturating_add(1);
    }
    true
}

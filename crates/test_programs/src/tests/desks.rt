//! Tests the answers of the calls on desks, and the totals of all accounts at the end. The bytes of the lines are zero
//! at the beginning.
ghost use Rattle.std.specs.Prelude.{◌≡◌, All, IfSome};
ghost use Rattle.line_accounts.specs.Desks.{IsDeskOver};
ghost use Rattle.line_accounts.specs.NewDesks.{IsNewPort};

use crate::desks::{
    a_day, across, busy, found_by, late, leased, limits, lower_line_first, over, over_one,
    over_two, settle_with,
};
use crate::fixtures::{open_zeros, with_last, with_two};
use crate::tests::rows::{expect, expect_at};
use crate::transfers::{ACCOUNTS, PAID_IN, Settled, transfer_at_random};
use crate::tries::Thrice;
use line_accounts::{AccountLaw, Desk, Reply, SettleError};
use line_lanes::Line64;
use qolb_model::{Enq, LineSync, OpenLine, ParkingLine};
use std::alloc::Global;
use std::process::Abort;
use std::sync::Wait;
use std::test::Fail;
use std::thread::Threads;
use test_support::{GRAIN, HookedLine, MemoryLimit};

/// A line of empty accounts for one node.
fn accounts<L: OpenLine<AccountLaw> + Drop>(
    alloc: Global,
    lease: Option<u64>,
) -> Option<(L, L::Port)>
where
    L::Port: Drop,
    ensures { IfSome result (λ made. IsNewPort L.belongs L.view made.0 made.1) }
{
    let opened = open_zeros::<AccountLaw, L>(alloc, 1, lease)?;
    with_last::<AccountLaw, L>(opened)
}

/// A line of empty accounts for two nodes.
fn shared_accounts<L: OpenLine<AccountLaw> + Drop>(
    alloc: Global,
    lease: Option<u64>,
) -> Option<(L, L::Port, L::Port)>
where
    L::Port: Drop,
    ensures first { IfSome result (λ made. IsNewPort L.belongs L.view made.0 made.1) }
    ensures second { IfSome result (λ made. IsNewPort L.belongs L.view made.0 made.2) }
{
    let opened = open_zeros::<AccountLaw, L>(alloc, 2, lease)?;
    with_two::<AccountLaw, L>(opened)
}

/// Eight lines of empty accounts for `nodes` nodes.
fn eight_lines<L: OpenLine<AccountLaw> + Drop>(
    alloc: Global,
    nodes: u64,
) -> Option<Vec<(L, Vec<L::Port>)>>
where
    L::Port: Drop,
    ensures { IfSome result (λ lines.
        All (λ line. All (IsNewPort L.belongs L.view line.0) line.1.items) lines.items) }
{
    let mut lines = Vec::with_capacity(alloc, 8).ok()?;
    for _ in 0..8 {
        let opened = open_zeros::<AccountLaw, L>(alloc, nodes, None)?;
        lines.push(opened).ok()?;
    }
    Some(lines)
}

/// Returns the total that is settled with this desk alone, or `None` if settling is refused.
fn total_of<L: LineSync<AccountLaw> + Drop>(
    alloc: Global,
    lines: Vec<L>,
    desk: Desk<L>,
) -> Option<u128>
where
    L::Port: Drop,
    requires { IsDeskOver L.belongs L.view lines.items desk }
{
    settle_with(alloc, lines, desk)?.ok()
}

/// The line and its first port, without the second.
fn without_the_second<L: OpenLine<AccountLaw>>(made: (L, L::Port, L::Port)) -> (L, L::Port)
where
    L::Port: Drop,
    ensures line { result.0 ≡ made.0 }
    ensures port { result.1 ≡ made.1 }
{
    let (line, port, _) = made;
    (line, port)
}

fn day<L: OpenLine<AccountLaw> + Drop>(alloc: Global) -> Option<u128>
where
    L::Port: Drop,
{
    let (line, port) = accounts::<L>(alloc, None)?;
    a_day(alloc, line, port)
}

/// 100 are paid in and 10 paid out, so 90 are left.
pub(super) fn a_day_is_settled<R: Abort, L: OpenLine<AccountLaw> + Drop>(rt: &R, alloc: Global)
where
    L::Port: Drop,
{
    expect(rt, "a day", day::<L>(alloc), Some(90));
}

/// Returns the desk's answers at the limits of an account and the settled total, or `None` if memory is refused.
fn at_the_limits<L: OpenLine<AccountLaw> + Drop>(
    alloc: Global,
) -> Option<([Reply; 5], Option<u128>)>
where
    L::Port: Drop,
{
    let (line, port) = accounts::<L>(alloc, None)?;
    let (lines, mut desk) = over_one(alloc, line, port)?;
    let answers = limits(&lines, &mut desk);
    Some((answers, total_of(alloc, lines, desk)))
}

pub(super) fn a_balance_has_a_limit<R: Abort, L: OpenLine<AccountLaw> + Drop>(rt: &R, alloc: Global)
where
    L::Port: Drop,
{
    let answers = [
        Reply::Done,
        Reply::Over,
        Reply::Short,
        Reply::SameAccount,
        Reply::NoAccount,
    ];
    let want = Some((answers, Some(281_474_976_710_656)));
    expect(rt, "the limits", at_the_limits::<L>(alloc), want);
}

/// The bytes that the second of two nodes finds in a line whose account 0 holds its limit.
fn a_full_line<L: OpenLine<AccountLaw> + Drop>(alloc: Global) -> Option<Line64>
where
    L::Port: Drop,
{
    let (line, port, mut other) = shared_accounts::<L>(alloc, None)?;
    let (lines, mut desk) = over_one(alloc, line, port)?;
    limits(&lines, &mut desk);
    found_by(&lines[0], &mut other)
}

/// 2^48 is 1 in the seventh byte of account 0.
pub(super) fn a_full_balance_lies_in_its_lane<R: Abort, L: OpenLine<AccountLaw> + Drop>(
    rt: &R,
    alloc: Global,
) -> Result<(), Fail>
where
    L::Port: Drop,
{
    let mut full = [0; 64];
    full[6] = 1;
    expect(
        rt,
        "a full balance",
        a_full_line::<L>(alloc).ok_or("granted")?.bytes,
        full,
    );
    Ok(())
}

/// Two lines of empty accounts for one node, and a desk over them. The first has this lease.
fn two_lines<L: OpenLine<AccountLaw> + Drop>(
    alloc: Global,
    lease: Option<u64>,
) -> Option<(Vec<L>, Desk<L>)>
where
    L::Port: Drop,
    ensures { IfSome result (λ made. IsDeskOver L.belongs L.view made.0.items made.1) }
{
    let (first, first_port) = accounts::<L>(alloc, lease)?;
    let (second, second_port) = accounts::<L>(alloc, None)?;
    over_two(alloc, first, first_port, second, second_port)
}

/// The desk's answers over two lines for two nodes, and the bytes that the second node then finds in each.
fn six_and_four<L: OpenLine<AccountLaw> + Drop>(
    alloc: Global,
) -> Option<([Reply; 2], Option<Line64>, Option<Line64>)>
where
    L::Port: Drop,
{
    let (first, first_port, mut reader) = shared_accounts::<L>(alloc, None)?;
    let (second, second_port, mut reader_too) = shared_accounts::<L>(alloc, None)?;
    let (lines, mut desk) = over_two(alloc, first, first_port, second, second_port)?;
    let answers = across(&lines, &mut desk);
    let six = found_by(&lines[0], &mut reader);
    let four = found_by(&lines[1], &mut reader_too);
    Some((answers, six, four))
}

/// Account 0, the first of the first line, holds 6; account 9, the second of the second line, holds 4.
pub(super) fn a_transfer_leaves_six_and_brings_four<R: Abort, L: OpenLine<AccountLaw> + Drop>(
    rt: &R,
    alloc: Global,
) -> Result<(), Fail>
where
    L::Port: Drop,
{
    let (answers, first, second) = six_and_four::<L>(alloc).ok_or("opened")?;
    let mut six = [0; 64];
    six[0] = 6;
    let mut four = [0; 64];
    four[8] = 4;
    expect(rt, "answers", answers, [Reply::Done, Reply::Done]);
    expect(rt, "six", first.ok_or("granted")?.bytes, six);
    expect(rt, "four", second.ok_or("granted")?.bytes, four);
    Ok(())
}

/// Returns the desk's answers over two lines and the settled total, or `None` if memory is refused.
fn moved_across<L: OpenLine<AccountLaw> + Drop>(alloc: Global) -> Option<([Reply; 2], Option<u128>)>
where
    L::Port: Drop,
{
    let (lines, mut desk) = two_lines::<L>(alloc, None)?;
    let answers = across(&lines, &mut desk);
    Some((answers, total_of(alloc, lines, desk)))
}

pub(super) fn a_transfer_goes_over_two_lines<R: Abort, L: OpenLine<AccountLaw> + Drop>(
    rt: &R,
    alloc: Global,
)
where
    L::Port: Drop,
{
    let want = Some(([Reply::Done, Reply::Done], Some(10)));
    expect(rt, "over two lines", moved_across::<L>(alloc), want);
}

/// Returns the desk's answers at the limit of an account and the settled total, or `None` if memory is refused.
fn moved_to_a_full_account<L: OpenLine<AccountLaw> + Drop>(
    alloc: Global,
) -> Option<([Reply; 3], Option<u128>)>
where
    L::Port: Drop,
{
    let (lines, mut desk) = two_lines::<L>(alloc, None)?;
    let answers = over(&lines, &mut desk);
    Some((answers, total_of(alloc, lines, desk)))
}

pub(super) fn a_transfer_keeps_the_limit<R: Abort, L: OpenLine<AccountLaw> + Drop>(
    rt: &R,
    alloc: Global,
)
where
    L::Port: Drop,
{
    let answers = [Reply::Done, Reply::Done, Reply::Over];
    let want = Some((answers, Some(281_474_976_710_661)));
    expect(
        rt,
        "to a full account",
        moved_to_a_full_account::<L>(alloc),
        want,
    );
}

/// The desk's answers over two lines, the first with a lease of two turns; its counters, and the settled total.
#[derive(Clone, Copy, Debug, PartialEq, Eq)]
struct Leased {
    answers: [Reply; 4],
    paid_in: u128,
    paid_out: u128,
    total: Option<u128>,
}

fn under_a_lease<L: OpenLine<AccountLaw> + Drop>(alloc: Global) -> Option<Leased>
where
    L::Port: Drop,
{
    let (lines, mut desk) = two_lines::<L>(alloc, Some(2))?;
    let answers = leased(&lines, &mut desk);
    let paid_in = desk.paid_in();
    let paid_out = desk.paid_out();
    let total = total_of(alloc, lines, desk);
    Some(Leased {
        answers,
        paid_in,
        paid_out,
        total,
    })
}

pub(super) fn a_lease_closes_the_line<R: Abort, L: OpenLine<AccountLaw> + Drop>(
    rt: &R,
    alloc: Global,
)
where
    L::Port: Drop,
{
    let want = Leased {
        answers: [Reply::Done, Reply::Done, Reply::Closed, Reply::Done],
        paid_in: 10,
        paid_out: 4,
        total: Some(6),
    };
    expect(rt, "a lease", under_a_lease::<L>(alloc), Some(want));
}

/// Why the desks could not be settled, and how many lines and desks were returned.
fn refusal<L: LineSync<AccountLaw> + Drop>(
    alloc: Global,
    lines: Vec<L>,
    desk: Desk<L>,
) -> Option<(SettleError, Option<(usize, usize)>)>
where
    L::Port: Drop,
    requires { IsDeskOver L.belongs L.view lines.items desk }
{
    let refused = settle_with(alloc, lines, desk)?.err()?;
    let back = refused
        .back
        .map(|(lines, desks)| (lines.len(), desks.len()));
    Some((refused.why, back))
}

/// The answers of a desk over two lines for two nodes, while the second node holds the second line.
#[derive(Clone, Copy, Debug, PartialEq, Eq)]
struct Late {
    asked: Enq,
    answers: [Reply; 4],
    refusal: Option<(SettleError, Option<(usize, usize)>)>,
}

fn beside_a_holder<L: OpenLine<AccountLaw> + Drop>(alloc: Global) -> Option<Late>
where
    L::Port: Drop,
{
    let (first, first_port) = without_the_second(shared_accounts::<L>(alloc, None)?);
    let (second, second_port, mut other) = shared_accounts::<L>(alloc, None)?;
    let (lines, mut desk) = over_two(alloc, first, first_port, second, second_port)?;
    let (asked, answers) = late(&lines, &mut desk, &lines[1], &mut other);
    Some(Late {
        asked,
        answers,
        refusal: refusal(alloc, lines, desk),
    })
}

/// A transfer that is late moves nothing. Without the ports of node 2 nothing is settled.
pub(super) fn a_late_transfer_moves_nothing<R: Abort, L: OpenLine<AccountLaw> + Drop>(
    rt: &R,
    alloc: Global,
)
where
    L::Port: Drop,
{
    let want = Late {
        asked: Enq::Granted,
        answers: [Reply::Done, Reply::Late, Reply::Busy, Reply::Done],
        refusal: Some((SettleError::Missing { line: 0, node: 2 }, Some((2, 1)))),
    };
    expect(rt, "a late desk", beside_a_holder::<L>(alloc), Some(want));
}

/// The answers to node 2 and to the desk of node 1, while node 2 holds the line.
fn at_a_busy_desk<L: OpenLine<AccountLaw> + Drop>(alloc: Global) -> Option<(Enq, [Reply; 4])>
where
    L::Port: Drop,
{
    let (line, port, mut other) = shared_accounts::<L>(alloc, None)?;
    let (lines, mut desk) = over_one(alloc, line, port)?;
    Some(busy(&lines, &mut desk, &lines[0], &mut other, 10))
}

/// Two payments and a transfer each try once at a line at which the desk's node is busy, whatever their `patience`. At
/// this line, a call that tries more often does not end.
pub(super) fn a_busy_desk_asks_once<
    R: Abort,
    L: OpenLine<AccountLaw> + ParkingLine<AccountLaw> + Drop,
>(rt: &R, alloc: Global)
where
    L::Port: Drop,
{
    let answers = [Reply::Late, Reply::Busy, Reply::Busy, Reply::Busy];
    let want = Some((Enq::Granted, answers));
    expect(
        rt,
        "a busy desk",
        at_a_busy_desk::<HookedLine<Thrice, L>>(alloc),
        want,
    );
}

/// The answers to node 2 and to the desk of node 1, over two lines of which the second has a lease of one turn. A
/// transfer that waits for the first line has not used that turn.
fn waits_for_the_lower<L: OpenLine<AccountLaw> + Drop>(
    alloc: Global,
    from: u64,
    to: u64,
) -> Option<(Enq, [Reply; 2])>
where
    L::Port: Drop,
{
    let (first, first_port, mut other) = shared_accounts::<L>(alloc, None)?;
    let (second, second_port) = without_the_second(shared_accounts::<L>(alloc, Some(1))?);
    let (lines, mut desk) = over_two(alloc, first, first_port, second, second_port)?;
    Some(lower_line_first(&lines, &mut desk, &lines[0], &mut other, from, to))
}

pub(super) fn the_lower_line_is_asked_for_first<R: Abort, L: OpenLine<AccountLaw> + Drop>(
    rt: &R,
    alloc: Global,
    from: u64,
    to: u64,
)
where
    L::Port: Drop,
{
    let want = Some((Enq::Granted, [Reply::Late, Reply::Done]));
    expect(
        rt,
        "the lower line",
        waits_for_the_lower::<L>(alloc, from, to),
        want,
    );
}

/// The number of customers that transfer, and the number of transfers of each. Over the three kinds of lines they make
/// a million.
pub(super) const CUSTOMERS: u64 = 4;

const ROUNDS: u64 = 84_000;

/// Settles eight lines after `CUSTOMERS` customers have transferred at random in threads.
fn settled_at_random<R: Threads + Wait + Sync, L: OpenLine<AccountLaw> + Sync + Drop>(
    rt: &R,
    alloc: Global,
) -> Option<Settled>
where
    L::Port: Send + Drop,
{
    let opened = eight_lines::<L>(alloc, CUSTOMERS)?;
    transfer_at_random(rt, alloc, opened, CUSTOMERS as usize, ROUNDS)
}

/// The settled total is what the customers paid in.
pub(super) fn what_was_paid_in_is_settled<
    R: Threads + Wait + Sync + Abort,
    L: OpenLine<AccountLaw> + Sync + Drop,
>(rt: &R, alloc: Global) -> Result<(), Fail>
where
    L::Port: Send + Drop,
{
    let settled = settled_at_random::<R, L>(rt, alloc).ok_or("settled")?;
    let paid_in = u128::from(CUSTOMERS * ACCOUNTS * PAID_IN);
    expect(rt, "the total", settled.total, paid_in);
    let counts = settled.counts;
    let all = [counts.done, counts.short, counts.other]
        .iter()
        .fold(0u64, |sum, count| sum.saturating_add(*count));
    expect(rt, "transfers", all, CUSTOMERS * ROUNDS);
    expect_at(rt, &(all, counts.done), counts.done > ROUNDS, true);
    Ok(())
}

/// The outcome of settling in a room of memory.
#[derive(Clone, Copy, Debug, PartialEq, Eq)]
enum InRoom {
    /// The list of desks was refused.
    NoList,
    /// Settling was refused; `back` if the lines and desks were returned.
    Refused { why: SettleError, back: bool },
    Settled { total: u128 },
}

/// Settles two lines, between which 4 of 10 were moved, in a room of `bytes` bytes.
fn settled_in<L: OpenLine<AccountLaw> + Drop>(
    alloc: Global,
    limit: &MemoryLimit,
    bytes: usize,
) -> Option<([Reply; 2], InRoom)>
where
    L::Port: Drop,
{
    let (lines, mut desk) = two_lines::<L>(alloc, None)?;
    let paid = across(&lines, &mut desk);
    let rest = limit.leave(alloc, bytes).ok()?;
    let settled = settle_with(alloc, lines, desk);
    drop(rest);
    let found = match settled {
        None => InRoom::NoList,
        Some(Ok(total)) => InRoom::Settled { total },
        Some(Err(refused)) => InRoom::Refused {
            why: refused.why,
            back: refused.back.is_some(),
        },
    };
    Some((paid, found))
}

/// Settles in a room that grows by the heap's grain. Settling is refused for lack of memory, without returning the
/// lines, until the room holds all that it allocates.
pub(super) fn settling_is_refused_for_want_of_memory<R: Abort, L: OpenLine<AccountLaw> + Drop>(
    rt: &R,
    alloc: Global,
) -> Result<(), Fail>
where
    L::Port: Drop,
{
    let limit = MemoryLimit::begin(alloc, 1 << 20)?;
    let mut refused = 0u32;
    for grains in 2..4_000usize {
        let (paid, found) = settled_in::<L>(alloc, &limit, GRAIN * grains).ok_or("opened")?;
        expect(rt, "paid", paid, [Reply::Done, Reply::Done]);
        match found {
            InRoom::Settled { total } => {
                expect(rt, "the total", total, 10);
                expect(rt, "refused", refused > 0, true);
                return Ok(());
            }
            InRoom::Refused { why, back } => {
                expect(rt, "why", (why, back), (SettleError::Memory, false));
                refused = refused.saturating_add(1);
            }
            InRoom::NoList => {}
        }
    }
    Err(Fail::from("no room was large enough"))
}

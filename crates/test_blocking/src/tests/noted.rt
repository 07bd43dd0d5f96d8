//! Tests how waiters sleep. The tests use a line with hooks that record each sleep, and a clock that advances by one
//! tick whenever it is read.
ghost use Rattle.std.specs.Prelude.{IfSome, IsTrue};
ghost use Rattle.qolb_model.specs.PortStates.{may_ask};

use crate::tests::held::{
    Scene, SleepLine, all_see_hooked, expect, expect_at, open_two, wait_until,
};
use example_line::timed::add_within;
use line_blocking::{Deadline, Got, ParkOnPoll, TimedAcquire, acquire_parking, acquire_timeout};
use qolb_model::{Enq, Free, Keep, LineSync, OpenError, OpenLine, Out, ParkingLine, Poll};
use std::alloc::Global;
use std::hint::spin_loop;
use std::io;
use std::process::Abort;
use std::rt::Clock;
use std::sync::Wait;
use std::sync::atomic::{AtomicU64, Ordering};
use std::thread::{Threads, yield_now};
use std::time::Duration;
use test_support::{HookedLine, Hooks};

/// The notes of a line:
/// - busy tries;
/// - polls that found that the turn had not come, and how many of these came before the first and the second sleep;
/// - sleeps, and the timeouts of the last and of the longest sleep in nanoseconds;
/// - releases.
#[derive(Drop)]
struct Notes {
    busy: AtomicU64,
    poll_count: AtomicU64,
    looks_before: AtomicU64,
    looks_again: AtomicU64,
    sleeps: AtomicU64,
    last: AtomicU64,
    longest: AtomicU64,
    let_go: AtomicU64,
}

impl Notes {
    fn none() -> Notes {
        Notes {
            busy: AtomicU64::new(0),
            poll_count: AtomicU64::new(0),
            looks_before: AtomicU64::new(0),
            looks_again: AtomicU64::new(0),
            sleeps: AtomicU64::new(0),
            last: AtomicU64::new(0),
            longest: AtomicU64::new(0),
            let_go: AtomicU64::new(0),
        }
    }

    fn note(&self, at_most: Duration) {
        let nanos = u64::try_from(at_most.as_nanos()).unwrap_or(u64::MAX);
        self.last.store(nanos, Ordering::SeqCst);
        self.longest.fetch_max(nanos, Ordering::SeqCst);
        match self.sleeps() {
            0 => self.looks_before.store(self.poll_count(), Ordering::SeqCst),
            1 => self.looks_again.store(self.poll_count(), Ordering::SeqCst),
            _ => {}
        }
        self.sleeps.fetch_add(1, Ordering::SeqCst);
    }

    fn busy(&self) -> u64 {
        self.busy.load(Ordering::SeqCst)
    }

    fn poll_count(&self) -> u64 {
        self.poll_count.load(Ordering::SeqCst)
    }

    fn looks_before(&self) -> u64 {
        self.looks_before.load(Ordering::SeqCst)
    }

    fn looks_again(&self) -> u64 {
        self.looks_again.load(Ordering::SeqCst)
    }

    fn sleeps(&self) -> u64 {
        self.sleeps.load(Ordering::SeqCst)
    }

    fn last(&self) -> u64 {
        self.last.load(Ordering::SeqCst)
    }

    fn longest(&self) -> u64 {
        self.longest.load(Ordering::SeqCst)
    }

    fn let_go(&self) -> u64 {
        self.let_go.load(Ordering::SeqCst)
    }
}

/// A line that notes its busy tries, polls and releases, and whose sleeps are noted and end at once.
type NotedLine<'n, L> = HookedLine<&'n Notes, L>;

impl Hooks for &Notes {
    fn on_busy<K: Keep, L: ParkingLine<K>>(&self, _line: &L, _port: &L::Port) {
        self.busy.fetch_add(1, Ordering::SeqCst);
    }

    fn on_waiting<K: Keep, L: ParkingLine<K>>(&self, _line: &L, _port: &L::Port) {
        self.poll_count.fetch_add(1, Ordering::SeqCst);
    }

    fn on_release<K: Keep, L: ParkingLine<K>>(&self, _line: &L, _port: &L::Port) {
        self.let_go.fetch_add(1, Ordering::SeqCst);
    }

    fn sleep<R: Wait, K: Keep, L: ParkingLine<K>>(
        &self,
        _rt: &R,
        _line: &L,
        _port: &L::Port,
        at_most: Duration,
    ) {
        self.note(at_most);
    }
}

/// A clock that advances by `tick` nanoseconds at each reading. If `tick` is `None`, the clock cannot be read.
#[derive(Drop)]
pub(super) struct Ticking<'r, R> {
    /// Allows the clock's reader to wait.
    _rt: &'r R,
    tick: Option<u64>,
    readings: AtomicU64,
}

impl<'r, R> Ticking<'r, R> {
    pub(super) fn new(rt: &'r R, tick: Option<u64>) -> Ticking<'r, R> {
        Ticking {
            _rt: rt,
            tick,
            readings: AtomicU64::new(0),
        }
    }

    pub(super) fn readings(&self) -> u64 {
        self.readings.load(Ordering::SeqCst)
    }
}

/// A tick of an hour, one of a millisecond, and the shortest, in nanoseconds.
static TICKS: [u64; 3] = [3_600_000_000_000, 1_000_000, 1];

/// The limit of a wait, in ticks.
const AT_MOST: u64 = 136;

impl<R: Wait> Wait for Ticking<'_, R> {}

impl<R> Clock for Ticking<'_, R> {
    fn monotonic(&self) -> io::Result<Duration> {
        let reading = self.readings.fetch_add(1, Ordering::SeqCst);
        match self.tick {
            Some(tick) => Ok(Duration::from_nanos(tick.wrapping_mul(reading))),
            None => Err(io::Error::from(io::ErrorKind::Other)),
        }
    }

    fn since_1970(&self) -> io::Result<Duration> {
        self.monotonic()
    }
}

/// A limit of 3 milliseconds by a clock that moves one at each reading: what is left at each, and then nothing. Without
/// a clock nothing is left.
#[test]
fn less_is_left_of_a_limit_at_each_reading(rt: HostRuntime) {
    let clock = Ticking::new(&rt, Some(1_000_000));
    let limit = Deadline::begin(&clock, Duration::from_millis(3));
    let left = [limit.left(&clock), limit.left(&clock), limit.left(&clock)];
    let wanted = [
        Some(Duration::from_millis(2)),
        Some(Duration::from_millis(1)),
        None,
    ];
    expect(&rt, "left", left, wanted);
    let stopped = Ticking::new(&rt, None);
    let limit = Deadline::begin(&stopped, Duration::from_millis(3));
    expect(&rt, "no clock", limit.left(&stopped), None);
}

/// Opens a line of two nodes whose sleeps are noted. Returns it with both ports.
fn open_noted<'n, L: OpenLine<Free> + ParkingLine<Free>>(
    alloc: Global,
    notes: &'n Notes,
) -> Option<(NotedLine<'n, L>, L::Port, L::Port)>
where
    L: Drop,
    L::Port: Drop,
    ensures one { IfSome result (λ r. L.belongs r.0.line r.1
        × IsTrue (may_ask (L.view r.1).state)) }
    ensures two { IfSome result (λ r. L.belongs r.0.line r.2
        × IsTrue (may_ask (L.view r.2).state)) }
{
    let (line, one, two) = open_two::<L>(alloc)?;
    Some((NotedLine::with(notes, line), one, two))
}

/// Node 2 waits for `at_most` by `clock` while node 1 holds the line; if `adds`, by `add_within`. Returns node 2's
/// answer.
fn wait_behind<C: Wait + Clock, L: ParkingLine<Free>>(
    clock: &C,
    line: &L,
    one: &mut L::Port,
    two: &mut L::Port,
    at_most: Duration,
    adds: bool,
) -> Option<TimedAcquire>
    requires belongs_one { L.belongs line.now one.old }
    requires belongs_two { L.belongs line.now two.old }
    requires state_one { IsTrue (may_ask (L.view one.old).state) }
    requires state_two { IsTrue (may_ask (L.view two.old).state) }
{
    let Enq::Granted = line.enqolb(one) else {
        return None;
    };
    if adds {
        Some(add_within(clock, line, two, at_most))
    } else {
        Some(acquire_timeout(clock, line, two, at_most))
    }
}

/// Node 2 of a new line waits so. Returns its answer and the number of readings.
fn wait_by<R: Wait, L: SleepLine>(
    alloc: Global,
    notes: &Notes,
    clock: &Ticking<R>,
    at_most: Duration,
    adds: bool,
) -> Option<(TimedAcquire, u64)>
where
    L::Port: Drop,
{
    let (line, mut one, mut two) = open_noted::<L>(alloc, notes)?;
    let got = wait_behind(clock, &line, &mut one, &mut two, at_most, adds)?;
    Some((got, clock.readings()))
}

/// A wait of 136 ticks times out at its limit, and sleeps twice before.
///
/// It begins at the first reading, reads the clock between its polls, and times out when it reads the limit: after 135
/// polls. It stays awake for 64 polls (32 spins, then 32 yields), and sleeps after the 65th. A release also wakes the
/// waiter behind the next holder, so the waiter then stays awake as long again: it sleeps after the 130th poll, with 6
/// ticks left. No sleep may take longer than the time left. All this holds for `acquire_timeout` and for `add_within`.
fn a_wait_keeps_to_its_time<R: Wait + Abort, L: SleepLine>(rt: &R, alloc: Global)
where
    L::Port: Drop,
{
    for (tick, adds) in [
        (3_600_000_000_000u64, false),
        (1_000_000, false),
        (1, false),
        (1_000_000, true),
    ] {
        let notes = Notes::none();
        let clock = Ticking::new(rt, Some(tick));
        let at_most = Duration::from_nanos(tick.wrapping_mul(AT_MOST));
        let found = wait_by::<R, L>(alloc, &notes, &clock, at_most, adds);
        expect_at(rt, tick, found, Some((TimedAcquire::TimedOut, 137)));
        let noted = (notes.looks_before(), notes.sleeps(), notes.last());
        expect_at(rt, tick, noted, (65, 2, tick.wrapping_mul(6)));
        expect_at(rt, tick, notes.longest(), tick.wrapping_mul(71));
    }
}

/// A wait without time, or by a clock that cannot be read, times out without a sleep.
fn no_time_is_over_at_once<R: Wait + Abort, L: SleepLine>(rt: &R, alloc: Global)
where
    L::Port: Drop,
{
    let notes = Notes::none();
    let clock = Ticking::new(rt, Some(1_000_000));
    let found = wait_by::<R, L>(alloc, &notes, &clock, Duration::ZERO, false);
    expect(rt, "no time", found, Some((TimedAcquire::TimedOut, 2)));
    let clock = Ticking::new(rt, None);
    let found = wait_by::<R, L>(alloc, &notes, &clock, Duration::from_millis(200), false);
    let answer = found.map(|found| found.0);
    expect(rt, "no clock", answer, Some(TimedAcquire::TimedOut));
    expect(rt, "sleeps", notes.sleeps(), 0);
}

/// Node 2 times out behind node 1, which holds the line. It requests the line again for `at_most` by `clock` while its
/// withdrawn request has not been passed. Returns the second answer.
fn ask_behind<N: Wait + Clock, C: Wait + Clock, L: ParkingLine<Free>>(
    no_time: &N,
    clock: &C,
    line: &L,
    one: &mut L::Port,
    two: &mut L::Port,
    at_most: Duration,
) -> Option<TimedAcquire>
    requires belongs_one { L.belongs line.now one.old }
    requires belongs_two { L.belongs line.now two.old }
    requires state_one { IsTrue (may_ask (L.view one.old).state) }
    requires state_two { IsTrue (may_ask (L.view two.old).state) }
{
    let Enq::Granted = line.enqolb(one) else {
        return None;
    };
    let TimedAcquire::TimedOut = acquire_timeout(no_time, line, two, Duration::ZERO) else {
        return None;
    };
    Some(acquire_timeout(clock, line, two, at_most))
}

/// Returns node 2's second answer at a new line.
fn ask_in_vain<R: Wait, L: SleepLine>(
    rt: &R,
    clock: &Ticking<R>,
    alloc: Global,
    notes: &Notes,
    at_most: Duration,
) -> Option<TimedAcquire>
where
    L::Port: Drop,
{
    let (line, mut one, mut two) = open_noted::<L>(alloc, notes)?;
    let no_time = Ticking::new(rt, None);
    ask_behind(&no_time, clock, &line, &mut one, &mut two, at_most)
}

/// A busy node reads the clock once after each try, and times out when it reads the limit.
fn a_busy_node_keeps_to_its_time<R: Wait + Abort, L: SleepLine>(rt: &R, alloc: Global)
where
    L::Port: Drop,
{
    for tick in &TICKS {
        let notes = Notes::none();
        let clock = Ticking::new(rt, Some(*tick));
        let at_most = Duration::from_nanos(tick.wrapping_mul(AT_MOST));
        let got = ask_in_vain::<R, L>(rt, &clock, alloc, &notes, at_most);
        let found = (got, clock.readings(), notes.busy());
        expect_at(rt, *tick, found, (Some(TimedAcquire::TimedOut), 137, 136));
    }
}

/// Waits until `count` is not 0. The loop is bounded, because hooks and clocks have no `Wait` that would allow an
/// endless one.
fn wait_for(count: &AtomicU64) {
    for _ in 0..u64::MAX {
        if count.load(Ordering::SeqCst) > 0 {
            return;
        }
        yield_now();
    }
}

/// How many tries of node 2 are busy before node 1 releases.
const BUSY: u64 = 50;

/// A clock that ticks by a nanosecond at each reading. From reading `BUSY + 1` on it waits until the holder has
/// released.
#[derive(Drop)]
struct Pausing<'r, R> {
    clock: Ticking<'r, R>,
    let_go: &'r AtomicU64,
}

impl<R: Wait> Wait for Pausing<'_, R> {}

impl<R> Clock for Pausing<'_, R> {
    fn monotonic(&self) -> io::Result<Duration> {
        let reading = self.clock.monotonic();
        if self.clock.readings() > BUSY {
            wait_for(self.let_go);
        }
        reading
    }

    fn since_1970(&self) -> io::Result<Duration> {
        self.monotonic()
    }
}

/// Node 1 holds the line, node 2 has withdrawn behind it, and node 3 waits. Node 2 requests the line again and is busy
/// until node 1 releases. Then node 2 waits behind node 3, which does nothing with the line.
#[derive(Drop)]
struct Renewing<'n> {
    notes: &'n Notes,
    late: AtomicU64,
    waits: AtomicU64,
    let_go: AtomicU64,
    readings: AtomicU64,
}

impl<R: Wait + Clock, L: ParkingLine<Free>> Scene<R, L> for Renewing<'_> {
    fn keep(&self, rt: &R, _line: &L) -> bool {
        wait_until(rt, &self.notes.busy, BUSY);
        false
    }

    fn behind(&self, rt: &R, line: &L, port: &mut L::Port) -> bool {
        if L::node(port) == 3 {
            wait_until(rt, &self.late, 1);
            let is_queued = line.enqolb(port) == Enq::Queued;
            self.waits.store(1, Ordering::SeqCst);
            return is_queued;
        }
        let TimedAcquire::TimedOut = acquire_timeout(rt, line, port, Duration::ZERO) else {
            return false;
        };
        self.late.store(1, Ordering::SeqCst);
        wait_until(rt, &self.waits, 1);
        let clock = Pausing {
            clock: Ticking::new(rt, Some(1)),
            let_go: &self.let_go,
        };
        let got = acquire_timeout(&clock, line, port, Duration::from_nanos(AT_MOST));
        self.readings
            .store(clock.clock.readings(), Ordering::SeqCst);
        got == TimedAcquire::TimedOut
    }
}

/// Runs the scene on a new line. Returns whether each node saw what it should, and how often node 2 read its clock.
fn renew<R: Threads + Wait + Clock + Sync, L: SleepLine + Sync>(
    rt: &R,
    alloc: Global,
    notes: &Notes,
) -> Result<(bool, u64), OpenError>
where
    L::Port: Send + Drop,
{
    let renewing = Renewing {
        notes,
        late: AtomicU64::new(0),
        waits: AtomicU64::new(0),
        let_go: AtomicU64::new(0),
        readings: AtomicU64::new(0),
    };
    let let_go = &renewing.let_go;
    let saw = all_see_hooked::<R, &Notes, L, Renewing>(rt, alloc, 3, notes, &renewing, let_go)?;
    Ok((saw, renewing.readings.load(Ordering::SeqCst)))
}

/// Busy tries and polls share one timeout: 50 tries leave time for 86 polls, besides the first one.
fn a_limit_does_not_begin_again<R: Threads + Wait + Clock + Abort + Sync, L: SleepLine + Sync>(
    rt: &R,
    alloc: Global,
)
where
    L::Port: Send + Drop,
{
    let notes = Notes::none();
    expect(
        rt,
        "readings",
        renew::<R, L>(rt, alloc, &notes),
        Ok((true, AT_MOST + 1)),
    );
    expect(
        rt,
        "tries and polls",
        (notes.busy(), notes.poll_count()),
        (BUSY, 87),
    );
}

/// Node 2 polls twice while node 1 holds the line, and once after node 1 has released. Returns `true` if each answer
/// was right.
fn look_behind<L: LineSync<Free>>(line: &L, one: &mut L::Port, two: &mut L::Port) -> bool
    requires belongs_one { L.belongs line.now one.old }
    requires belongs_two { L.belongs line.now two.old }
    requires state_one { IsTrue (may_ask (L.view one.old).state) }
    requires state_two { IsTrue (may_ask (L.view two.old).state) }
{
    let Enq::Granted = line.enqolb(one) else {
        return false;
    };
    let Enq::Queued = line.enqolb(two) else {
        return false;
    };
    let Poll::Waiting = line.poll(two) else {
        return false;
    };
    let Poll::Waiting = line.poll(two) else {
        return false;
    };
    line.deqolb(one);
    line.poll(two) == Poll::Granted
}

/// Node 2 polls a new `ParkOnPoll` in this way.
fn look_asleep<R: Wait, L: SleepLine>(rt: &R, alloc: Global, notes: &Notes) -> Option<bool>
where
    L::Port: Drop,
{
    let (line, mut one, mut two) = open_noted::<L>(alloc, notes)?;
    let line = ParkOnPoll::new(rt, line);
    Some(look_behind(&line, &mut one, &mut two))
}

/// A poll of a `ParkOnPoll` sleeps once if the request still waits, and otherwise not at all.
fn each_look_in_vain_sleeps_once<R: Wait + Abort, L: SleepLine>(rt: &R, alloc: Global)
where
    L::Port: Drop,
{
    let notes = Notes::none();
    expect(
        rt,
        "polls",
        look_asleep::<R, L>(rt, alloc, &notes),
        Some(true),
    );
    expect(
        rt,
        "polls and sleeps",
        (notes.poll_count(), notes.sleeps()),
        (2, 2),
    );
    expect(rt, "the limit", notes.last(), u64::MAX);
}

/// Hooks that note the shortest time between a poll that finds the turn has not come and the sleep after it, in
/// nanoseconds of `clock`.
#[derive(Drop)]
struct Between<'c, C> {
    clock: &'c C,
    since: AtomicU64,
    shortest: AtomicU64,
}

/// Returns the reading of `clock` in nanoseconds, or 0 if the clock cannot be read.
fn nanos_at<C: Clock>(clock: &C) -> u64 {
    match clock.monotonic() {
        Ok(now) => u64::try_from(now.as_nanos()).unwrap_or(u64::MAX),
        Err(_) => 0,
    }
}

impl<C: Clock> Hooks for &Between<'_, C> {
    fn on_waiting<K: Keep, L: ParkingLine<K>>(&self, _line: &L, _port: &L::Port) {
        self.since.store(nanos_at(self.clock), Ordering::SeqCst);
    }

    fn sleep<R: Wait, K: Keep, L: ParkingLine<K>>(
        &self,
        _rt: &R,
        _line: &L,
        _port: &L::Port,
        _at_most: Duration,
    ) {
        let took = nanos_at(self.clock).saturating_sub(self.since.load(Ordering::SeqCst));
        self.shortest.fetch_min(took, Ordering::SeqCst);
    }
}

/// Node 2 polls a new `ParkOnPoll` in this way, with these hooks.
fn look_timed<R: Wait + Clock, L: SleepLine>(
    rt: &R,
    alloc: Global,
    between: &Between<R>,
) -> Option<bool>
where
    L::Port: Drop,
{
    let (line, mut one, mut two) = open_two::<L>(alloc)?;
    let line = ParkOnPoll::new(rt, HookedLine::with(between, line));
    Some(look_behind(&line, &mut one, &mut two))
}

/// How often 256 pauses are timed, and how often node 2 polls in this way.
const TIMED: u64 = 20;

/// Returns the shortest time that 256 pauses took, in nanoseconds.
fn time_of_pauses<C: Clock>(clock: &C) -> u64 {
    let mut shortest = u64::MAX;
    for _ in 0..TIMED {
        let since = nanos_at(clock);
        for _ in 0..256 {
            spin_loop();
        }
        shortest = shortest.min(nanos_at(clock).saturating_sub(since));
    }
    shortest
}

/// Between a poll that finds the turn has not come and its sleep, a `ParkOnPoll` takes at least half the time of 256
/// pauses, however often that is tried. A body that does not pause takes a small part of that time.
fn each_look_in_vain_pauses<R: Wait + Clock + Abort, L: SleepLine>(rt: &R, alloc: Global)
where
    L::Port: Drop,
{
    let between = Between {
        clock: rt,
        since: AtomicU64::new(0),
        shortest: AtomicU64::new(u64::MAX),
    };
    for _ in 0..TIMED {
        let found = look_timed::<R, L>(rt, alloc, &between);
        expect(rt, "polls", found, Some(true));
    }
    let (took, wanted) = (between.shortest.load(Ordering::SeqCst), time_of_pauses(rt));
    assert!(rt;
        took >= wanted / 2,
        "{took} ns, and 256 pauses take {wanted}"
    );
}

/// Node 2 withdraws its request behind node 1. Returns the answer of the withdrawal.
fn withdraw_behind<L: LineSync<Free>>(line: &L, one: &mut L::Port, two: &mut L::Port) -> Option<Out>
    requires belongs_one { L.belongs line.now one.old }
    requires belongs_two { L.belongs line.now two.old }
    requires state_one { IsTrue (may_ask (L.view one.old).state) }
    requires state_two { IsTrue (may_ask (L.view two.old).state) }
{
    let Enq::Granted = line.enqolb(one) else {
        return None;
    };
    let Enq::Queued = line.enqolb(two) else {
        return None;
    };
    Some(line.withdraw(two))
}

/// Node 2 withdraws in this way at a new `ParkOnPoll`.
fn withdraw_asleep<R: Wait, L: SleepLine>(rt: &R, alloc: Global, notes: &Notes) -> Option<Out>
where
    L::Port: Drop,
{
    let (line, mut one, mut two) = open_noted::<L>(alloc, notes)?;
    let line = ParkOnPoll::new(rt, line);
    withdraw_behind(&line, &mut one, &mut two)
}

/// A withdrawal does not poll, sleep or release.
fn no_withdrawal_sleeps<R: Wait + Abort, L: SleepLine>(rt: &R, alloc: Global)
where
    L::Port: Drop,
{
    let notes = Notes::none();
    let out = withdraw_asleep::<R, L>(rt, alloc, &notes);
    expect(rt, "withdrawn", out, Some(Out::Withdrawn));
    let noted = (notes.poll_count(), notes.sleeps(), notes.let_go());
    expect(rt, "nothing is noted", noted, (0, 0, 0));
}

/// Node 1 releases the line, and node 2 shuts it. Returns the number of noted releases after each of the two.
fn let_go_and_shut<L: LineSync<Free>>(
    line: &L,
    one: &mut L::Port,
    two: &mut L::Port,
    notes: &Notes,
) -> Option<(u64, u64)>
    requires belongs_one { L.belongs line.now one.old }
    requires belongs_two { L.belongs line.now two.old }
    requires state_one { IsTrue (may_ask (L.view one.old).state) }
    requires state_two { IsTrue (may_ask (L.view two.old).state) }
{
    let Enq::Granted = line.enqolb(one) else {
        return None;
    };
    line.deqolb(one);
    let after_one = notes.let_go();
    let Enq::Granted = line.enqolb(two) else {
        return None;
    };
    line.shut(two);
    Some((after_one, notes.let_go()))
}

/// Returns these numbers for a new line.
fn noted_releases<L: SleepLine>(alloc: Global, notes: &Notes) -> Option<(u64, u64)>
where
    L::Port: Drop,
{
    let (line, mut one, mut two) = open_noted::<L>(alloc, notes)?;
    let_go_and_shut(&line, &mut one, &mut two, notes)
}

/// A line with hooks calls `on_release` once for each holder that releases or shuts the line.
fn each_holder_that_lets_go_is_noted<R: Abort, L: SleepLine>(rt: &R, alloc: Global)
where
    L::Port: Drop,
{
    let notes = Notes::none();
    expect(
        rt,
        "releases",
        noted_releases::<L>(alloc, &notes),
        Some((1, 2)),
    );
}

/// Hooks that delay a release until another node has polled.
#[derive(Drop)]
struct LooksBefore {
    letting_go: AtomicU64,
    looked: AtomicU64,
}

impl Hooks for &LooksBefore {
    fn on_release<K: Keep, L: ParkingLine<K>>(&self, _line: &L, _port: &L::Port) {
        self.letting_go.store(1, Ordering::SeqCst);
        wait_for(&self.looked);
    }
}

/// Node 1 releases or shuts the line. Between its hooks and the release, node 2 polls, which waits behind node 1.
#[derive(Drop)]
struct Looking<'n> {
    hooks: &'n LooksBefore,
    shuts: bool,
    waits: AtomicU64,
}

impl<R: Wait, L: ParkingLine<Free>> Scene<R, L> for Looking<'_> {
    fn keep(&self, rt: &R, _line: &L) -> bool {
        wait_until(rt, &self.waits, 1);
        self.shuts
    }

    fn behind(&self, rt: &R, line: &L, port: &mut L::Port) -> bool {
        let Enq::Queued = line.enqolb(port) else {
            return false;
        };
        self.waits.store(1, Ordering::SeqCst);
        wait_until(rt, &self.hooks.letting_go, 1);
        let found = line.poll(port);
        self.hooks.looked.store(1, Ordering::SeqCst);
        found == Poll::Waiting
    }
}

/// Returns `true` if node 1 of a new line held it, and node 2 still waited during node 1's hooks.
fn look_before<R: Threads + Wait + Sync, L: SleepLine + Sync>(
    rt: &R,
    alloc: Global,
    hooks: &LooksBefore,
    shuts: bool,
) -> Result<bool, OpenError>
where
    L::Port: Send + Drop,
{
    let looking = Looking {
        hooks,
        shuts,
        waits: AtomicU64::new(0),
    };
    let let_go = AtomicU64::new(0);
    all_see_hooked::<R, &LooksBefore, L, Looking>(rt, alloc, 2, hooks, &looking, &let_go)
}

/// Hooks are called before the line is released or shut.
fn hooks_are_told_before<R: Threads + Wait + Abort + Sync, L: SleepLine + Sync>(
    rt: &R,
    alloc: Global,
)
where
    L::Port: Send + Drop,
{
    for shuts in [false, true] {
        let hooks = LooksBefore {
            letting_go: AtomicU64::new(0),
            looked: AtomicU64::new(0),
        };
        let found = look_before::<R, L>(rt, alloc, &hooks, shuts);
        expect_at(rt, u64::from(shuts), found, Ok(true));
    }
}

/// Node 1 holds the line until node 2, which waits for it, has been sent to sleep twice.
#[derive(Drop)]
struct Handing<'n> {
    notes: &'n Notes,
}

impl<R: Wait, L: ParkingLine<Free>> Scene<R, L> for Handing<'_> {
    fn keep(&self, rt: &R, _line: &L) -> bool {
        wait_until(rt, &self.notes.sleeps, 2);
        false
    }

    fn behind(&self, rt: &R, line: &L, port: &mut L::Port) -> bool {
        acquire_parking(rt, line, port) == Got::Granted
    }
}

/// Returns `true` if both nodes of a new line had it, node 1 until node 2 was sent to sleep twice.
fn hand_to_a_sleeper<R: Threads + Wait + Sync, L: SleepLine + Sync>(
    rt: &R,
    alloc: Global,
    notes: &Notes,
) -> Result<bool, OpenError>
where
    L::Port: Send + Drop,
{
    let let_go = AtomicU64::new(0);
    all_see_hooked::<R, &Notes, L, Handing>(rt, alloc, 2, notes, &Handing { notes }, &let_go)
}

/// `acquire_parking` sleeps, without a timeout, after 65 polls that found the turn has not come. If it is woken before
/// its turn, it polls 65 times again before it sleeps again.
fn a_long_wait_sleeps<R: Threads + Wait + Abort + Sync, L: SleepLine + Sync>(rt: &R, alloc: Global)
where
    L::Port: Send + Drop,
{
    let notes = Notes::none();
    expect(
        rt,
        "both had it",
        hand_to_a_sleeper::<R, L>(rt, alloc, &notes),
        Ok(true),
    );
    expect(
        rt,
        "polls before",
        (notes.looks_before(), notes.last()),
        (65, u64::MAX),
    );
    expect(rt, "polls again", notes.looks_again(), 130);
}

/// Runs each of these tests over lines of this type.
pub(super) fn each_sleep<R: Threads + Wait + Clock + Abort + Sync, L: SleepLine + Sync>(
    rt: &R,
    alloc: Global,
)
where
    L::Port: Send + Drop,
{
    a_wait_keeps_to_its_time::<R, L>(rt, alloc);
    no_time_is_over_at_once::<R, L>(rt, alloc);
    a_busy_node_keeps_to_its_time::<R, L>(rt, alloc);
    a_limit_does_not_begin_again::<R, L>(rt, alloc);
    each_look_in_vain_sleeps_once::<R, L>(rt, alloc);
    each_look_in_vain_pauses::<R, L>(rt, alloc);
    no_withdrawal_sleeps::<R, L>(rt, alloc);
    a_long_wait_sleeps::<R, L>(rt, alloc);
    each_holder_that_lets_go_is_noted::<R, L>(rt, alloc);
    hooks_are_told_before::<R, L>(rt, alloc);
}

//! Tests that the type of each answer and each state declares exactly the expected variants, in the expected order.
use crate::tests::rows::{expect, expect_at};
use line_accounts::Reply;
use line_board::Put;
use line_kinds::ALL;
use link_line::Prep;
use qolb_model::{Enq, Out, Poll, PortState};
use qolb_run::{Got, Kind, Lines, Lock, REPLAYED};
use qolb_script::WorkKind;

/// A type whose variants are all listed.
trait Listed {
    /// Returns the position of the variant in the list of variants.
    fn place(&self) -> usize;
}

impl Listed for Enq {
    fn place(&self) -> usize {
        match self {
            Enq::Granted => 0,
            Enq::Queued => 1,
            Enq::Closed => 2,
            Enq::Busy => 3,
        }
    }
}

impl Listed for Prep {
    fn place(&self) -> usize {
        match self {
            Prep::Granted => 0,
            Prep::Closed => 1,
            Prep::Busy => 2,
            Prep::Linking => 3,
        }
    }
}

impl Listed for Poll {
    fn place(&self) -> usize {
        match self {
            Poll::Granted => 0,
            Poll::Waiting => 1,
            Poll::Closed => 2,
        }
    }
}

impl Listed for Out {
    fn place(&self) -> usize {
        match self {
            Out::Withdrawn => 0,
            Out::Granted => 1,
            Out::Closed => 2,
        }
    }
}

impl Listed for PortState {
    fn place(&self) -> usize {
        match self {
            PortState::Idle => 0,
            PortState::Linking => 1,
            PortState::Queued => 2,
            PortState::Holding => 3,
            PortState::Left => 4,
            PortState::Rolled => 5,
            PortState::Shut => 6,
        }
    }
}

impl Listed for Put {
    fn place(&self) -> usize {
        match self {
            Put::Stored => 0,
            Put::Full => 1,
            Put::Late => 2,
            Put::Closed => 3,
            Put::Busy => 4,
        }
    }
}

impl Listed for Reply {
    fn place(&self) -> usize {
        match self {
            Reply::Done => 0,
            Reply::Short => 1,
            Reply::Over => 2,
            Reply::Late => 3,
            Reply::Closed => 4,
            Reply::Busy => 5,
            Reply::NoAccount => 6,
            Reply::SameAccount => 7,
        }
    }
}

impl Listed for WorkKind {
    fn place(&self) -> usize {
        match self {
            WorkKind::Board => 0,
            WorkKind::Bank => 1,
        }
    }
}

impl Listed for Got {
    fn place(&self) -> usize {
        match self {
            Got::Granted => 0,
            Got::Closed => 1,
        }
    }
}

// Users write such `match`es without a catch-all arm, and an additional variant would break them. Here it would not
// compile either.

impl Listed for Lines {
    fn place(&self) -> usize {
        match self {
            Lines::Ring => 0,
            Lines::Link => 1,
        }
    }
}

impl Listed for Kind {
    fn place(&self) -> usize {
        match self {
            Kind::Plain => 0,
            Kind::Ring => 1,
            Kind::Link => 2,
        }
    }
}

/// The lock of each of these lines.
static LOCKS_OF_LINES: [(Lines, Lock); 2] = [(Lines::Ring, Lock::Ring), (Lines::Link, Lock::Link)];

/// The lock of each kind. The plain reference has none.
static LOCKS_OF_KINDS: [(Kind, Option<Lock>); 3] = [
    (Kind::Plain, None),
    (Kind::Ring, Some(Lock::Ring)),
    (Kind::Link, Some(Lock::Link)),
];

#[test]
fn variants_are_declared_in_this_order(rt: HostRuntime) {
    for one in [Enq::Granted, Enq::Queued, Enq::Closed, Enq::Busy] {
        expect_at(&rt, &one, one as usize, one.place());
    }
    for one in [Prep::Granted, Prep::Closed, Prep::Busy, Prep::Linking] {
        expect_at(&rt, &one, one as usize, one.place());
    }
    for one in [Poll::Granted, Poll::Waiting, Poll::Closed] {
        expect_at(&rt, &one, one as usize, one.place());
    }
    for one in [Out::Withdrawn, Out::Granted, Out::Closed] {
        expect_at(&rt, &one, one as usize, one.place());
    }
    for one in [
        PortState::Idle,
        PortState::Linking,
        PortState::Queued,
        PortState::Holding,
        PortState::Left,
        PortState::Rolled,
        PortState::Shut,
    ] {
        expect_at(&rt, &one, one as usize, one.place());
    }
}

#[test]
fn variants_of_runs_are_declared_in_this_order(rt: HostRuntime) {
    for one in [Got::Granted, Got::Closed] {
        expect_at(&rt, &one, one as usize, one.place());
    }
    for (one, lock) in LOCKS_OF_LINES {
        let place = one.place();
        let found = (one as usize, one.lock(), ALL.get(place).copied());
        expect_at(&rt, &one, found, (place, lock, Some(lock)));
    }
    for (one, lock) in LOCKS_OF_KINDS {
        let place = one.place();
        let found = (one as usize, one.lock(), REPLAYED.get(place).copied());
        expect_at(&rt, &one, found, (place, lock, Some(lock)));
    }
    expect(
        &rt,
        "the third lock",
        (ALL.len(), ALL[2]),
        (3, Lock::Ticket),
    );
    for one in [WorkKind::Board, WorkKind::Bank] {
        expect_at(&rt, &one, one as usize, one.place());
    }
    for one in [Put::Stored, Put::Full, Put::Late, Put::Closed, Put::Busy] {
        expect_at(&rt, &one, one as usize, one.place());
    }
    for one in [
        Reply::Done,
        Reply::Short,
        Reply::Over,
        Reply::Late,
        Reply::Closed,
        Reply::Busy,
        Reply::NoAccount,
        Reply::SameAccount,
    ] {
        expect_at(&rt, &one, one as usize, one.place());
    }
}

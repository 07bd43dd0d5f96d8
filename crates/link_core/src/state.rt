//! The complete state of a core, and the changes to it that several events have in common.
ghost use Rattle.std.specs.Prelude.{◌≡◌, ◌↔◌, ◌<◌, IsTrue};
ghost use Rattle.link_core.specs.State.{IsNode, is_clear, entry, point, seat, put_entry, put_seat, at_point, first};
ghost use Rattle.qolb_model.specs.Steps.{is_one};
ghost use Rattle.link_core.specs.declared.state.TheConstants.{PLACES};
ghost use Rattle.link_core.specs.Steps.{turns_after, arrive, told_at_arrival, seat_at_close, told_with, told_at_end, point_at_end};

use crate::entry::{EMPTY, Entry};
use crate::place::Place;
use crate::point::Point;
use crate::seat::{NodeCall, Passed, ReleaseCause};
use crate::told::Told;
use line_lanes::{Line64, Mask};
use qolb_model::{LineConfig, MAX_NODES};

/// The number of places for nodes. No node has number 0, so the first place is not used.
pub const PLACES: usize = MAX_NODES as usize + 1;

/// The whole state: the words, the line and the seats.
#[derive(Drop)]
pub struct State {
    pub nodes: u64,
    pub home: u64,
    pub place: Place,
    pub bytes: Line64,
    pub closed: bool,
    /// The places that this turn has written.
    pub mask: Mask,
    /// The number of turns left, if there is a lease.
    pub left: Option<u64>,
    pub entries: [Entry; PLACES],
    pub seats: [NodeCall; PLACES],
}

impl State {
    /// Returns the state of a new line with this config, at home.
    pub fn opened(config: LineConfig) -> State
        ensures { result ≡ first config }
    {
        let seats = Default::default();
        State {
            nodes: config.nodes,
            home: 0,
            place: Place::Home,
            bytes: config.opening,
            closed: false,
            mask: Mask(0),
            left: config.lease,
            entries: [EMPTY; PLACES],
            seats,
        }
    }

    /// Returns `true` if n is a node.
    pub fn is_node(&self, n: u64) -> bool
        ensures { IsTrue result ↔ IsNode self.now n }
    {
        0 < n && n <= self.nodes
    }

    /// Returns the entry of n.
    pub fn entry(&self, n: u64) -> Entry
        requires { n < PLACES }
        ensures { result ≡ entry self.now n }
    {
        self.entries[n as usize]
    }

    pub fn put_entry(&mut self, n: u64, word: Entry)
        requires { n < PLACES }
        ensures { self.new ≡ put_entry n word self.old }
    {
        self.entries[n as usize] = word;
    }

    /// Returns the point of n in its call.
    pub fn point(&self, n: u64) -> Point
        requires { n < PLACES }
        ensures { result ≡ point self.now n }
    {
        self.seats[n as usize].point
    }

    /// Returns the cause of n's release.
    pub fn reason(&self, n: u64) -> ReleaseCause
        requires { n < PLACES }
        ensures { result ≡ (seat self.now n).reason }
    {
        self.seats[n as usize].reason
    }

    pub fn put_seat(&mut self, n: u64, seat: NodeCall)
        requires { n < PLACES }
        ensures { self.new ≡ put_seat n seat self.old }
    {
        self.seats[n as usize] = seat;
    }

    /// Moves n to `point`.
    pub fn go_to(&mut self, n: u64, point: Point)
        requires { n < PLACES }
        ensures { self.new ≡ at_point n point self.old }
    {
        self.seats[n as usize].point = point;
    }

    /// Returns `true` if n's last request is clear.
    pub fn is_clear(&self, n: u64) -> bool
        requires { n < PLACES }
        ensures { result ≡ is_clear (point self.now n) (entry self.now n) }
    {
        let word = self.entry(n);
        match self.point(n) {
            Point::Idle | Point::Ready | Point::Shut => true,
            Point::Left => word.link != 0,
            Point::Rolled => word.freed && !(word.done && word.link == 0),
            _ => false,
        }
    }

    /// Puts the line into n's hand. If the line is open, n holds it; if it is closed, n must release it at once.
    pub fn arrive(&mut self, n: u64) -> Told
        requires { n < PLACES }
        ensures state { self.new ≡ arrive n self.old }
        ensures told { result ≡ told_at_arrival self.old.closed }
    {
        self.place = Place::Hand(n);
        self.mask = Mask(0);
        if self.closed {
            self.put_seat(
                n,
                NodeCall {
                    point: Point::Leaving(n),
                    passed: Passed::new(),
                    reason: ReleaseCause::Refused,
                },
            );
            Told::Went
        } else {
            self.put_seat(
                n,
                NodeCall {
                    point: Point::Holding,
                    passed: Passed::new(),
                    reason: ReleaseCause::Own,
                },
            );
            Told::Granted
        }
    }

    /// Returns `true` if a lease has one turn left.
    pub fn is_last_turn(&self) -> bool
        ensures { result ≡ is_one self.now.left }
    {
        match self.left {
            Some(turns) => turns == 1,
            None => false,
        }
    }

    /// Takes one turn off the lease if n's release has ended n's own, served request.
    pub fn use_turn(&mut self, n: u64)
        requires { n < PLACES }
        ensures { self.new ≡ record self.old { left = turns_after n self.old } }
    {
        let served = match self.reason(n) {
            ReleaseCause::Own | ReleaseCause::Closing => true,
            ReleaseCause::Refused => false,
        };
        if served && self.seats[n as usize].passed.is_empty() {
            if let Some(turns) = self.left {
                self.left = Some(turns.saturating_sub(1));
            }
        }
    }

    /// Ends n's possession of the line. Then n still has nodes to free, or its call ends at `point`.
    pub fn close_call(&mut self, n: u64, point: Point) -> Told
        requires { n < PLACES }
        ensures state { self.new ≡ put_seat n (seat_at_close point (seat self.old n)) self.old }
        ensures told { result ≡ told_with (seat self.old n).passed (seat self.old n).reason }
    {
        if self.seats[n as usize].passed.is_empty() {
            self.go_to(n, point);
            told_at_end(self.seats[n as usize].reason)
        } else {
            self.go_to(n, Point::Freeing);
            Told::Went
        }
    }
}

/// Returns what a call tells at its end.
pub fn told_at_end(reason: ReleaseCause) -> Told
    ensures { result ≡ told_at_end reason }
{
    match reason {
        ReleaseCause::Own => Told::Released,
        ReleaseCause::Closing => Told::Shut,
        ReleaseCause::Refused => Told::Closed,
    }
}

/// Returns the point of a node after its call.
pub fn point_at_end(reason: ReleaseCause) -> Point
    ensures { result ≡ point_at_end reason }
{
    match reason {
        ReleaseCause::Own => Point::Idle,
        ReleaseCause::Closing => Point::Shut,
        ReleaseCause::Refused => Point::Shut,
    }
}

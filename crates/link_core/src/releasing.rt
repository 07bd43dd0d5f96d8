//! The events of a release. A release tries to return the line home, marks an entry as done, grants the line to the
//! next node, and frees the nodes that it has skipped.
ghost use Rattle.std.specs.Prelude.{◌≡◌, ◌≢◌, ◌<◌, ◌≤◌, ℕ, List, [], ◌∷◌, ◌++◌, length, IfOk, IfErr, OnErr};
ghost use Rattle.qolb_model.specs.declared.config.TheConstants.{MAX_NODES};
ghost use Rattle.link_core.specs.declared.seat.TheConstants.{MAX_PASSED};
ghost use Rattle.link_core.specs.declared.state.TheConstants.{PLACES};
ghost use Rattle.link_core.specs.State.{IsNode, seat, put_seat, at_point};
ghost use Rattle.link_core.specs.Steps.{Step, Fits, IsRefused, gone_home, told_home, seat_with, told_with, point_at_end};

use crate::entry::Entry;
use crate::event::Event;
use crate::place::Place;
use crate::point::Point;
use crate::state::{State, point_at_end, told_at_end};
use crate::told::{NotEnabled, Told};

impl State {
    /// Tries to return n's line home. The attempt succeeds if the home word names no younger request. A holder first
    /// closes the line at the last turn of a lease.
    pub fn go_home(&mut self, n: u64) -> Result<Told, NotEnabled>
        requires fits { Fits self.old }
        requires node { IsNode self.old n }
        ensures step { IfOk result (λ t. Step self.old (Event.Home n) t self.new) }
        ensures refused { IfErr result (λ e. IsRefused self.old (Event.Home n) e) }
        ensures unchanged { OnErr result (self.new ≡ self.old) }
    {
        match self.point(n) {
            Point::Holding => {
                if self.is_last_turn() {
                    self.shut_by(n);
                }
                Ok(self.go_home_from(n, n))
            }
            Point::Leaving(e) => Ok(self.go_home_from(n, e)),
            _ => Err(NotEnabled::Point),
        }
    }

    /// Tries, in n's release, to return the line home from the entry of e.
    pub fn go_home_from(&mut self, n: u64, e: u64) -> Told
        requires { n < PLACES }
        ensures home { self.old.home ≡ e → (result ≡ told_home n self.old)
            × (self.new ≡ gone_home n self.old) }
        ensures failed { self.old.home ≢ e → (result ≡ Told.Went)
            × (self.new ≡ at_point n (Point.Marking e) self.old) }
    {
        if self.home == e {
            self.use_turn(n);
            self.home = 0;
            self.place = Place::Home;
            let point = point_at_end(self.reason(n));
            self.close_call(n, point)
        } else {
            self.go_to(n, Point::Marking(e));
            Told::Went
        }
    }

    /// Marks the entry that n's release has reached as done. If the entry has no link, the line stays in its mailbox.
    pub fn mark_done(&mut self, n: u64) -> Result<Told, NotEnabled>
        requires fits { Fits self.old }
        requires node { IsNode self.old n }
        ensures step { IfOk result (λ t. Step self.old (Event.Done n) t self.new) }
        ensures refused { IfErr result (λ e. IsRefused self.old (Event.Done n) e) }
        ensures unchanged { OnErr result (self.new ≡ self.old) }
    {
        match self.point(n) {
            Point::Marking(e) => {
                let word = self.entry(e);
                self.put_entry(e, Entry { done: true, ..word });
                if word.link == 0 {
                    self.use_turn(n);
                    self.place = Place::Mailbox(e);
                    if e == n {
                        Ok(self.close_call(n, Point::Left))
                    } else {
                        let point = point_at_end(self.reason(n));
                        Ok(self.close_call(n, point))
                    }
                } else {
                    self.go_to(n, Point::Granting(word.link));
                    Ok(Told::Went)
                }
            }
            _ => Err(NotEnabled::Point),
        }
    }

    /// Grants the line to the next node in n's release. A node that has withdrawn is passed.
    pub fn grant(&mut self, n: u64) -> Result<Told, NotEnabled>
        requires fits { Fits self.old }
        requires node { IsNode self.old n }
        ensures step { IfOk result (λ t. Step self.old (Event.Grant n) t self.new) }
        ensures refused { IfErr result (λ e. IsRefused self.old (Event.Grant n) e) }
        ensures unchanged { OnErr result (self.new ≡ self.old) }
    {
        match self.point(n) {
            Point::Granting(m) => {
                let word = self.entry(m);
                self.put_entry(
                    m,
                    Entry {
                        granted: true,
                        ..word
                    },
                );
                self.use_turn(n);
                if word.rolled {
                    self.pass(n, m);
                    Ok(Told::Went)
                } else {
                    self.place = Place::Mailbox(m);
                    let point = point_at_end(self.reason(n));
                    Ok(self.close_call(n, point))
                }
            }
            _ => Err(NotEnabled::Point),
        }
    }

    /// Continues n's release at m, which it has passed.
    pub fn pass(&mut self, n: u64, m: u64)
        requires node { n < PLACES }
        requires room { length (seat self.old n).passed < MAX_PASSED }
        requires other { m ≤ MAX_NODES }
        ensures { self.new ≡ put_seat n
            (record {
              point = Point.Leaving m;
              passed = (seat self.old n).passed ++ m ∷ [];
              reason = (seat self.old n).reason;
            }) self.old }
    {
        let seat = &mut self.seats[n as usize];
        seat.passed.push(m);
        seat.point = Point::Leaving(m);
    }

    /// Takes the first passed node off the list of n's release. Returns that node, and what the event tells when the
    /// node is freed.
    pub fn next_freed(&mut self, n: u64) -> (u64, Told)
        requires node { n < PLACES }
        requires not_empty { (seat self.old n).passed ≢ [] }
        ensures { (rest : List ℕ) × ((seat self.old n).passed ≡ result.0 ∷ rest)
            × (self.new ≡ put_seat n
            (seat_with rest (point_at_end (seat self.old n).reason) (seat self.old n).reason)
            self.old) × (result.1 ≡ told_with rest (seat self.old n).reason) }
    {
        let seat = &mut self.seats[n as usize];
        let Some(first) = seat.passed.take_first() else {
            unreachable!();
        };
        if seat.passed.is_empty() {
            seat.point = point_at_end(seat.reason);
            (first, told_at_end(seat.reason))
        } else {
            seat.point = Point::Freeing;
            (first, Told::Went)
        }
    }

    /// Frees the first node that n passed.
    pub fn free_next(&mut self, n: u64) -> Result<Told, NotEnabled>
        requires fits { Fits self.old }
        requires node { IsNode self.old n }
        ensures step { IfOk result (λ t. Step self.old (Event.Freed n) t self.new) }
        ensures refused { IfErr result (λ e. IsRefused self.old (Event.Freed n) e) }
        ensures unchanged { OnErr result (self.new ≡ self.old) }
    {
        match self.point(n) {
            Point::Freeing => {
                let (x, told) = self.next_freed(n);
                let word = self.entry(x);
                self.put_entry(
                    x,
                    Entry {
                        freed: true,
                        ..word
                    },
                );
                Ok(told)
            }
            _ => Err(NotEnabled::Point),
        }
    }
}

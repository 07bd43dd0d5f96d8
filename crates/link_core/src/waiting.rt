//! The events of a waiting node on its own entry. The node loads the entry, or withdraws its request.
ghost use Rattle.std.specs.Prelude.{◌≡◌, IfOk, IfErr, OnErr};
ghost use Rattle.link_core.specs.State.{IsNode};
ghost use Rattle.link_core.specs.Steps.{Step, Fits, IsRefused};

use crate::entry::Entry;
use crate::event::Event;
use crate::point::Point;
use crate::state::State;
use crate::told::{NotEnabled, Told};

impl State {
    /// Loads n's own entry. If the entry is granted, n takes the line; otherwise n learns whether its last request has
    /// become clear.
    pub fn load(&mut self, n: u64) -> Result<Told, NotEnabled>
        requires fits { Fits self.old }
        requires node { IsNode self.old n }
        ensures step { IfOk result (λ t. Step self.old (Event.Load n) t self.new) }
        ensures refused { IfErr result (λ e. IsRefused self.old (Event.Load n) e) }
        ensures unchanged { OnErr result (self.new ≡ self.old) }
    {
        match self.point(n) {
            Point::Queued => {
                if self.entry(n).granted {
                    Ok(self.arrive(n))
                } else {
                    Ok(Told::Waiting)
                }
            }
            Point::Left | Point::Rolled => {
                if self.is_clear(n) {
                    self.go_to(n, Point::Idle);
                    Ok(Told::Free)
                } else {
                    Ok(Told::Busy)
                }
            }
            _ => Err(NotEnabled::Point),
        }
    }

    /// Withdraws n's request. If it was granted before, n takes the line.
    pub fn roll(&mut self, n: u64) -> Result<Told, NotEnabled>
        requires fits { Fits self.old }
        requires node { IsNode self.old n }
        ensures step { IfOk result (λ t. Step self.old (Event.Roll n) t self.new) }
        ensures refused { IfErr result (λ e. IsRefused self.old (Event.Roll n) e) }
        ensures unchanged { OnErr result (self.new ≡ self.old) }
    {
        match self.point(n) {
            Point::Queued => {
                let word = self.entry(n);
                self.put_entry(
                    n,
                    Entry {
                        rolled: true,
                        ..word
                    },
                );
                if word.granted {
                    Ok(self.arrive(n))
                } else {
                    self.go_to(n, Point::Rolled);
                    Ok(Told::Withdrawn)
                }
            }
            _ => Err(NotEnabled::Point),
        }
    }
}

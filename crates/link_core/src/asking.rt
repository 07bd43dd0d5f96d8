//! The events by which a node makes a request: the node resets its entry, prepends itself to the queue, and links
//! itself to the node before it.
ghost use Rattle.std.specs.Prelude.{◌≡◌, IfOk, IfErr, OnErr};
ghost use Rattle.link_core.specs.State.{IsNode};
ghost use Rattle.link_core.specs.Steps.{Step, Fits, IsRefused};

use crate::entry::{EMPTY, Entry};
use crate::event::Event;
use crate::point::Point;
use crate::state::State;
use crate::told::{NotEnabled, Told};

impl State {
    /// Stores 0 in n's own entry.
    pub fn reset(&mut self, n: u64) -> Result<Told, NotEnabled>
        requires fits { Fits self.old }
        requires node { IsNode self.old n }
        ensures step { IfOk result (λ t. Step self.old (Event.Reset n) t self.new) }
        ensures refused { IfErr result (λ e. IsRefused self.old (Event.Reset n) e) }
        ensures unchanged { OnErr result (self.new ≡ self.old) }
    {
        match self.point(n) {
            Point::Idle | Point::Shut => {
                self.put_entry(n, EMPTY);
                self.go_to(n, Point::Ready);
                Ok(Told::Went)
            }
            _ => Err(NotEnabled::Point),
        }
    }

    /// Puts n's number into the home word. If that was 0, n takes the line from home.
    pub fn prepend(&mut self, n: u64) -> Result<Told, NotEnabled>
        requires fits { Fits self.old }
        requires node { IsNode self.old n }
        ensures step { IfOk result (λ t. Step self.old (Event.Prepend n) t self.new) }
        ensures refused { IfErr result (λ e. IsRefused self.old (Event.Prepend n) e) }
        ensures unchanged { OnErr result (self.new ≡ self.old) }
    {
        match self.point(n) {
            Point::Ready => {
                let predecessor = self.home;
                self.home = n;
                if predecessor == 0 {
                    Ok(self.arrive(n))
                } else {
                    self.go_to(n, Point::Linking(predecessor));
                    Ok(Told::Went)
                }
            }
            _ => Err(NotEnabled::Point),
        }
    }

    /// Adds n's link to the entry that n found at home. If that entry was done, n takes the line from its mailbox.
    pub fn link(&mut self, n: u64) -> Result<Told, NotEnabled>
        requires fits { Fits self.old }
        requires node { IsNode self.old n }
        ensures step { IfOk result (λ t. Step self.old (Event.Link n) t self.new) }
        ensures refused { IfErr result (λ e. IsRefused self.old (Event.Link n) e) }
        ensures unchanged { OnErr result (self.new ≡ self.old) }
    {
        match self.point(n) {
            Point::Linking(p) => {
                let word = self.entry(p);
                self.put_entry(p, Entry { link: n, ..word });
                if word.done {
                    Ok(self.arrive(n))
                } else {
                    self.go_to(n, Point::Queued);
                    Ok(Told::Queued)
                }
            }
            _ => Err(NotEnabled::Point),
        }
    }
}

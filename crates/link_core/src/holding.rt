//! The events of a holder, which writes the line's bytes or closes the line.
ghost use Rattle.std.specs.Prelude.{◌≡◌, ◌<◌, IfOk, IfErr, OnErr};
ghost use Rattle.link_core.specs.declared.state.TheConstants.{PLACES};
ghost use Rattle.link_core.specs.State.{IsNode};
ghost use Rattle.link_core.specs.Steps.{Step, Fits, IsRefused, closed_by};

use crate::event::Event;
use crate::point::Point;
use crate::seat::ReleaseCause;
use crate::state::State;
use crate::told::{NotEnabled, Told};
use line_lanes::{Line64, Mask, merge};

impl State {
    /// Writes the bytes for the holder n.
    pub fn write(&mut self, n: u64, mask: Mask, bytes: Line64) -> Result<Told, NotEnabled>
        requires fits { Fits self.old }
        requires node { IsNode self.old n }
        ensures step { IfOk result (λ t. Step self.old (Event.Write n mask bytes) t self.new) }
        ensures refused { IfErr result (λ e. IsRefused self.old (Event.Write n mask bytes) e) }
        ensures unchanged { OnErr result (self.new ≡ self.old) }
    {
        match self.point(n) {
            Point::Holding => {
                self.bytes = merge(&self.bytes, &bytes, mask);
                self.mask = Mask(self.mask.0 | mask.0);
                Ok(Told::Went)
            }
            _ => Err(NotEnabled::Point),
        }
    }

    /// Closes the line for the holder n.
    pub fn close(&mut self, n: u64) -> Result<Told, NotEnabled>
        requires fits { Fits self.old }
        requires node { IsNode self.old n }
        ensures step { IfOk result (λ t. Step self.old (Event.Close n) t self.new) }
        ensures refused { IfErr result (λ e. IsRefused self.old (Event.Close n) e) }
        ensures unchanged { OnErr result (self.new ≡ self.old) }
    {
        match self.point(n) {
            Point::Holding => {
                self.shut_by(n);
                Ok(Told::Went)
            }
            _ => Err(NotEnabled::Point),
        }
    }

    /// Closes the line for n, whose release starts.
    pub fn shut_by(&mut self, n: u64)
        requires { n < PLACES }
        ensures { self.new ≡ closed_by n self.old }
    {
        self.closed = true;
        let seat = &mut self.seats[n as usize];
        seat.point = Point::Leaving(n);
        seat.reason = ReleaseCause::Closing;
    }
}

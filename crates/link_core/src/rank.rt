//! The rank of a core. The rank is a ranking function: each productive event lowers it.
ghost use Rattle.std.specs.Prelude.{◌≡◌, ◌≤◌};
ghost use Rattle.link_core.specs.State.{IsNode};
ghost use Rattle.link_core.specs.Steps.{Fits};
ghost use Rattle.link_core.specs.Progress.{steps_left, rank};

use crate::point::Point;
use crate::state::State;

impl State {
    /// Returns the number of productive events that n's request still takes if another request is behind it.
    pub fn steps_left(&self, n: u64) -> u64
        requires fits { Fits self.now }
        requires node { IsNode self.now n }
        ensures matches { result ≡ steps_left self.now n }
        ensures most { result ≤ 5 }
    {
        match self.point(n) {
            Point::Linking(predecessor) => { if self.entry(predecessor).done { 4 } else { 5 } }
            Point::Queued => 4,
            Point::Holding | Point::Leaving(_) => 3,
            Point::Marking(_) => 2,
            Point::Granting(_) => 1,
            Point::Rolled => {
                let word = self.entry(n);
                if word.freed {
                    0
                } else if word.granted {
                    1
                } else {
                    4
                }
            }
            Point::Idle | Point::Ready | Point::Freeing | Point::Left | Point::Shut => 0,
        }
    }

    /// Returns the rank, which bounds the number of productive events that can follow each other without a new request.
    pub fn rank(&self) -> u64
        requires { Fits self.now }
        ensures { result ≡ rank self.now }
    {
        let mut total = 0;
        for before in 0..self.nodes {
            total += self.steps_left(before + 1);
        }
        if self.home == 0 {
            total
        } else {
            total.saturating_sub(2)
        }
    }
}

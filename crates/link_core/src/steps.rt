//! Defines the effect of each event of a core, case by case.
//!
//! The diagram shows how the flags of node n's entry change from one reset to the next. Node m is the successor of n,
//! and o is a node whose release has reached n's request. A request that finds the line at home is never granted,
//! because its node takes the line at once.
//!
//! ```text
//!     0 ---------- Roll(n) ----------> rolled             n withdraws before the grant: Withdrawn
//!     |                                  |
//!   Grant(o)                           Grant(o)           on the left the line is n's to take; on the right n is passed
//!     |                                  |
//!     v                                  v
//!   granted ------ Roll(n) ----> rolled granted           after the grant a withdrawal is too late, and n takes the line
//!     |                                  |
//!   Done(n)                            Done(n) or Done(o)  the release at n's entry has found a younger request at home
//!     |                                  |
//!     v                                  v
//!   granted done              rolled granted done
//!                                        |
//!                                      Freed(o)           only for a node that was passed, after o's release;
//!                                        |                without Done if the line went home from n's entry
//!                                        v
//!                          rolled granted done freed
//! ```
//!
//! The link field is 0 until Link(m), which may happen in each of these states. If Done finds that the link is 0, the
//! line stays in n's mailbox. If Link finds the flag done, m takes the line from that mailbox.

ghost use Rattle.std.specs.Prelude.{◌≡◌, IfOk, IfErr, OnErr};
ghost use Rattle.link_core.specs.Steps.{Step, Fits, IsRefused};

use crate::event::Event;
use crate::state::State;
use crate::told::{NotEnabled, Told};

impl State {
    /// Makes one event. If it is refused, nothing changes.
    pub fn apply(&mut self, event: Event) -> Result<Told, NotEnabled>
        requires fits { Fits self.old }
        ensures step { IfOk result (λ t. Step self.old event t self.new) }
        ensures refused { IfErr result (λ e. IsRefused self.old event e) }
        ensures unchanged { OnErr result (self.new ≡ self.old) }
    {
        if !self.is_node(event.node()) {
            return Err(NotEnabled::Node);
        }
        match event {
            Event::Reset(n) => self.reset(n),
            Event::Prepend(n) => self.prepend(n),
            Event::Link(n) => self.link(n),
            Event::Load(n) => self.load(n),
            Event::Home(n) => self.go_home(n),
            Event::Done(n) => self.mark_done(n),
            Event::Grant(n) => self.grant(n),
            Event::Roll(n) => self.roll(n),
            Event::Freed(n) => self.free_next(n),
            Event::Write(n, mask, bytes) => self.write(n, mask, bytes),
            Event::Close(n) => self.close(n),
        }
    }
}

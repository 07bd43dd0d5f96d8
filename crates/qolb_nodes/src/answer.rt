//! The answers that calls on nodes return to C code.
ghost use Rattle.std.specs.Prelude.{◌≡◌};
ghost use Rattle.qolb_nodes.specs.Answers.{enq_told, prep_told, poll_told, out_told, clear_told};

use qolb_model::{Enq, Out, Poll, Prep};

/// The answer of a call.
#[derive(Clone, Copy, Debug, PartialEq, Eq)]
pub enum Answer {
    /// The call is done.
    Done = 0,
    /// The node holds the line.
    Granted = 1,
    /// The request waits behind another request.
    Queued = 2,
    /// The request still waits.
    Waiting = 3,
    /// The request is behind another request, and not linked to its predecessor's yet.
    Linking = 4,
    /// The request is withdrawn.
    Withdrawn = 5,
    /// The line is closed, and the request has ended.
    Closed = 6,
    /// The node made no request, because its last one is not clear yet.
    Busy = 7,
    /// The state of the handle or of its node does not allow the call. Nothing changed.
    Misuse = 8,
    /// No line was opened, because the allocator returned no memory.
    NoMemory = 9,
    /// No line was opened, because the number of nodes is not 1 to 200.
    BadNodes = 10,
    /// No line was opened, because the lease is 0 turns.
    BadLease = 11,
    /// No line was opened, because there is no such kind.
    BadKind = 12,
    /// No line was opened, because there are fewer handles than nodes.
    TooFew = 13,
    /// No line was opened, because one of the handles has a node.
    Occupied = 14,
}

impl Answer {
    /// Returns the answer of `enqolb`.
    pub fn of_enq(made: Enq) -> Answer
        ensures { result ≡ enq_told made }
    {
        match made {
            Enq::Granted => Answer::Granted,
            Enq::Queued => Answer::Queued,
            Enq::Closed => Answer::Closed,
            Enq::Busy => Answer::Busy,
        }
    }

    /// Returns the answer of `prepend`.
    pub fn of_prep(made: Prep) -> Answer
        ensures { result ≡ prep_told made }
    {
        match made {
            Prep::Granted => Answer::Granted,
            Prep::Linking => Answer::Linking,
            Prep::Closed => Answer::Closed,
            Prep::Busy => Answer::Busy,
        }
    }

    /// Returns the answer of `poll`.
    pub fn of_poll(made: Poll) -> Answer
        ensures { result ≡ poll_told made }
    {
        match made {
            Poll::Granted => Answer::Granted,
            Poll::Waiting => Answer::Waiting,
            Poll::Closed => Answer::Closed,
        }
    }

    /// Returns the answer of `withdraw`.
    pub fn of_out(made: Out) -> Answer
        ensures { result ≡ out_told made }
    {
        match made {
            Out::Withdrawn => Answer::Withdrawn,
            Out::Granted => Answer::Granted,
            Out::Closed => Answer::Closed,
        }
    }

    /// Returns the answer of `is_clear`.
    pub fn of_clear(clear: bool) -> Answer
        ensures { result ≡ clear_told clear }
    {
        if clear { Answer::Done } else { Answer::Busy }
    }
}

//! The type of a ticket, which represents the request of one caller. C code provides the memory for the ticket.
ghost use Rattle.std.specs.Prelude.{◌≡◌, ◌<◌, ◌≤◌, true, false};
ghost use Rattle.qolb_locks.specs.declared.answer.Answer.{Answer};
ghost use Rattle.qolb_locks.specs.Calls.{IsHead};
ghost use Rattle.qolb_locks.specs.Tickets.{number_of, Is, IsWithin, Has, IsKnown, Knows};
ghost use Rattle.lock_core.specs.Views.{IsAtTurn, HasTurnOf, IsInside};

use crate::answer::Answer;
use crate::claim::Claim;
use crate::lock::Lock;

/// How far a caller has come with its ticket. C reads the state as this number.
#[derive(Clone, Copy, Debug, PartialEq, Eq)]
pub enum State {
    /// The ticket has no request.
    Free = 0,
    /// The request waits for its turn.
    Waiting = 1,
    /// The request waits for its turn, and the caller has announced that it sleeps.
    Asleep = 2,
    /// The request is at its turn of the queue. In a barging lock its caller is the queue head.
    AtTurn = 3,
    /// The caller holds a strict lock, and was told that the lock is open.
    Served = 4,
    /// The request is at its turn in a strict lock, and the caller was told that the lock is shut.
    ServedShut = 5,
    /// The caller has begun to release its turn of the queue, and must call `release` again.
    Ending = 6,
    /// The queue head has taken the lock word of an open lock, and still has its turn of the queue.
    HeadInside = 7,
    /// The queue head has taken the lock word of a lock that is shut, and still has its turn of the queue.
    HeadInsideShut = 8,
    /// The caller has the lock word of an open lock, and no turn of the queue: it barged, or has released its turn.
    Inside = 9,
    /// The caller has the lock word of a lock that is shut, and no turn of the queue.
    InsideShut = 10,
}

/// The request of one caller, if it has any.
#[repr(C)]
#[derive(Drop)]
pub struct Ticket {
    /// The ticket's number. After a release, it is the last number whose turn ended.
    pub number: u64,
    /// While the request waits: how many rounds it had to go when the caller last looked.
    pub rounds: u64,
    /// The value of the lock word, as far as the caller knows. The next call takes it as a guess.
    pub lock_word: u64,
    /// After the caller announced a sleep: the word of its cell.
    pub word: u64,
    /// After a release: the number of sleepers that the cell of the granted ticket counted.
    pub sleepers: u64,
    /// The label of the ticket's lock, or 0 if the ticket has no lock.
    pub label: u64,
    /// The number of its `State`.
    pub state: u32,
    /// After the caller left the lock word: whether the queue head sleeps there.
    pub head_sleeps: bool,
    pub claim: Claim,
}

impl Ticket {
    /// Returns whether the ticket belongs to this lock and is in this state.
    #[inline(always)]
    pub(crate) fn has(&self, state: State, lock: &Lock) -> bool
        requires { IsKnown lock.now self.now }
        ensures yes { result ≡ true → Has state lock.now self.now }
        ensures no { result ≡ false → ¬ Is state lock.now self.now }
    {
        self.state == state as u32 && self.label == lock.label
    }

    /// Returns whether the ticket belongs to this lock and is at its turn, whether or not its caller was told of the
    /// lock word.
    #[inline(always)]
    pub(crate) fn is_at_turn(&self, lock: &Lock) -> bool
        requires { IsKnown lock.now self.now }
        ensures yes { result ≡ true → IsWithin 3 5 lock.now self.now
            × Knows lock.now self.now (IsAtTurn self.now.number) }
        ensures no { result ≡ false → ¬ IsWithin 3 5 lock.now self.now }
    {
        self.label == lock.label
            && self.state >= State::AtTurn as u32
            && self.state <= State::ServedShut as u32
    }

    /// Returns whether the ticket is that of the queue head of this lock, which must be a barging lock.
    #[inline(always)]
    pub(crate) fn is_head(&self, lock: &Lock) -> bool
        requires { IsKnown lock.now self.now }
        ensures yes { result ≡ true → IsHead lock.now self.now
            × Has State.AtTurn lock.now self.now }
        ensures no { result ≡ false → ¬ IsHead lock.now self.now }
    {
        lock.barging_limit >= 2 && self.has(State::AtTurn, lock)
    }

    /// Returns whether the ticket belongs to this lock and has a turn of the queue, but not the lock word.
    #[inline(always)]
    pub(crate) fn has_turn_outside(&self, lock: &Lock) -> bool
        requires { IsKnown lock.now self.now }
        ensures yes { result ≡ true → IsWithin 3 6 lock.now self.now
            × Knows lock.now self.now (HasTurnOf self.now.number) }
        ensures no { result ≡ false → ¬ IsWithin 3 6 lock.now self.now }
    {
        self.label == lock.label
            && self.state >= State::AtTurn as u32
            && self.state <= State::Ending as u32
    }

    /// Returns whether the ticket belongs to this lock and has the lock word, but no turn of the queue.
    #[inline(always)]
    pub(crate) fn is_inside(&self, lock: &Lock) -> bool
        requires { IsKnown lock.now self.now }
        ensures yes { result ≡ true → IsWithin 9 10 lock.now self.now
            × Knows lock.now self.now IsInside }
        ensures no { result ≡ false → ¬ IsWithin 9 10 lock.now self.now }
    {
        self.label == lock.label
            && self.state >= State::Inside as u32
            && self.state <= State::InsideShut as u32
    }

    /// Notes how many rounds the request has to go, and returns the answer that this means.
    #[inline(always)]
    pub(crate) fn settle(&mut self, rounds: u64) -> Answer
        ensures granted { rounds ≡ 0 → (result ≡ Answer.Granted)
            × (self.new ≡ record self.old { state = 3 }) }
        ensures waits { 0 < rounds → (result ≡ Answer.Waiting)
            × (self.new ≡ record self.old { state = 1; rounds = rounds }) }
        ensures claim { self.new.claim ≡ self.old.claim }
    {
        if rounds == 0 {
            self.state = State::AtTurn as u32;
            return Answer::Granted;
        }
        self.rounds = rounds;
        self.state = State::Waiting as u32;
        Answer::Waiting
    }

    /// Notes whether the lock was found open at the ticket's turn, and returns the answer that this means.
    #[inline(always)]
    pub(crate) fn tell(&mut self, is_open: bool) -> Answer
        ensures open { is_open ≡ true → (result ≡ Answer.Granted)
            × (self.new ≡ record self.old { state = 4 }) }
        ensures shut { is_open ≡ false → (result ≡ Answer.Closed)
            × (self.new ≡ record self.old { state = 5 }) }
        ensures claim { self.new.claim ≡ self.old.claim }
    {
        if is_open {
            self.state = State::Served as u32;
            return Answer::Granted;
        }
        self.state = State::ServedShut as u32;
        Answer::Closed
    }
}

//! A lock that protects a number, together with the history of all critical sections that changed the number. Each
//! critical section begins with the number that the previous critical section left, whichever threads executed the two.
ghost use Rattle.std.specs.Prelude.{◌≡◌, [], ◌∷◌, ◌++◌, length, Some, IfSome, IfNone, slice_get};
ghost use Rattle.example_fair_lock.specs.Turns.{BeginsWithTheLast, HasAdded, last_left};

use crate::book::{Book, Front, Naming, Opened};
use crate::turn::Turn;
use fair_lock::FairLock;
use std::alloc::Global;
use std::marker::{Brand, Model};
use std::sync::Wait;
use std::thread::{Threads, join};

const MOST: u64 = 1 << 32;

/// The value under the lock: a number, and beside it the history that says what each turn left.
#[derive(Drop)]
pub struct Recorded<J: Naming> {
    number: u64,
    front: Front<J>,
}

impl<J: Naming> Model for Recorded<J> {
    ghost use Rattle.std.specs.Prelude.{◌≡◌, List};
    ghost use Rattle.example_fair_lock.specs.declared.turn.Turn.{Turn};
    ghost use Rattle.example_fair_lock.specs.Turns.{last_left};

    ghost Value = { List Turn };

    ghost view = { λ r. r.front };

    ghost invariant = { λ r. r.number ≡ last_left r.front };
}

/// A turn that a thread had: its place in the history, and a prefix of the history that includes the turn.
#[derive(Drop)]
pub struct Had<J: Naming> {
    pub front: Front<J>,
    pub place: u64,
    pub turn: Turn,
    ghost there: { slice_get front place ≡ Some turn },
}

impl<J: Naming> Recorded<J> {
    fn new(front: Front<J>) -> Recorded<J>
        requires { front ≡ [] }
        ensures { result ≡ [] }
    {
        Recorded { number: 0, front }
    }

    /// Adds to the number, modulo 2^64, in a turn that begins with what the last one left. Returns `None`, and changes
    /// nothing, if the history is full or was not seen whole.
    #[tactic(auto, using(crate::proofs::Chains::left_after))]
    fn add(&mut self, book: &Book<J>, amount: u64) -> Option<Had<J>>
        ensures turn { IfSome result (λ had. (self.new ≡ self.old ++ had.turn ∷ [])
            × (had.turn.found ≡ last_left self.old) × (had.place ≡ length self.old)) }
        ensures sum { IfSome result (λ had. HasAdded amount had.turn) }
        ensures none { IfNone result (self.new ≡ self.old) }
    {
        if self.front.len() >= MOST {
            return None;
        }
        let mut front = self.front.again();
        let place = front.len();
        let turn = Turn {
            found: self.number,
            left: self.number.wrapping_add(amount),
        };
        if !front.add(book, turn) {
            return None;
        }
        self.number = turn.left;
        self.front = front.again();
        Some(Had { front, place, turn })
    }
}

/// Adds to the number in a turn of one thread. Returns `None` if the turn could not be added to the history.
fn have_turn<J: Naming, R: Wait>(
    rt: &R,
    book: &Book<J>,
    lock: &FairLock<Recorded<J>>,
    amount: u64,
) -> Option<Had<J>>
    ensures sum { IfSome result (λ had. HasAdded amount had.turn) }
{
    let mut guard = lock.enter(rt).ok()?;
    let had = guard.value_mut().add(book, amount);
    guard.leave(rt);
    had
}

/// Lets two threads add to the number, each in one turn. Both turns are in one history, in which each turn begins with
/// what the one before left. Returns `None` if memory is short, or if a thread's turn could not be added.
pub fn two_turns<J: Naming + Send + Sync, R: Threads + Wait + Sync>(
    rt: &R,
    alloc: Global,
    opened: Opened,
    amounts: (u64, u64),
) -> Option<(Front<J>, Had<J>, Had<J>)>
    requires book { opened.seen.book ≡ J.book }
    ensures begins { IfSome result (λ r. BeginsWithTheLast r.0) }
    ensures first { IfSome result (λ r. slice_get r.0 r.1.place ≡ Some r.1.turn) }
    ensures second { IfSome result (λ r. slice_get r.0 r.2.place ≡ Some r.2.turn) }
    ensures sums { IfSome result (λ r. HasAdded amounts.0 r.1.turn × HasAdded amounts.1 r.2.turn) }
{
    let (book, front) = opened.named::<J>();
    let lock = FairLock::new(alloc, Recorded::new(front)).ok()?;
    let (one, two) = join(
        rt,
        || have_turn(rt, &book, &lock, amounts.0),
        || have_turn(rt, &book, &lock, amounts.1),
    );
    let one = one?;
    let two = two?;
    Some((one.front.longer(&two.front), one, two))
}

/// Returns what two threads found and left, each in a turn of its own. Returns `None` if memory is short, or if a turn
/// could not be added.
fn turns_of<J: Naming + Send + Sync, R: Threads + Wait + Sync>(
    rt: &R,
    alloc: Global,
    opened: Opened,
    amounts: (u64, u64),
) -> Option<(Turn, Turn)>
    requires book { opened.seen.book ≡ J.book }
    ensures sums { IfSome result (λ r. HasAdded amounts.0 r.0 × HasAdded amounts.1 r.1) }
{
    let (_, one, two) = two_turns::<J, R>(rt, alloc, opened, amounts)?;
    Some((one.turn, two.turn))
}

/// Does the same with a new history.
pub fn found_and_left<R: Threads + Wait + Sync>(
    rt: &R,
    alloc: Global,
    amounts: (u64, u64),
) -> Option<(Turn, Turn)>
    ensures sums { IfSome result (λ r. HasAdded amounts.0 r.0 × HasAdded amounts.1 r.1) }
{
    turns_of::<Brand, R>(rt, alloc, Opened::new(), amounts)
}

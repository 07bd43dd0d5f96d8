//! A book, which records the history of all critical sections. The history only grows, and exists only in proofs. At
//! run time, the threads share one word that contains the length of the history.
ghost use Rattle.std.specs.Prelude.{◌≡◌, ◌+◌, ◌==◌, ◌<◌, ◌≤◌, ◌^◌, ◌++◌, ◌∷◌, ◌⊎◌, [], length, MatchBool};
ghost use mathlib.Core.List.{IsPrefix};
ghost use Rattle.example_fair_lock.specs.Turns.{IsChain, IsLonger, last_left};
ghost use Rattle.example_fair_lock.specs.Books.{head_of};

use crate::turn::Turn;
use logbook::{Gain, Offer, Plain, Play, Rule, Seen, Start, Word};
use std::marker::{Brand, Model, PhantomData};

/// The invariant of the book.
pub struct BookInvariant;

impl Rule<Turn, u64> for BookInvariant {
    ghost use Rattle.std.specs.Prelude.{[]};
    ghost use base.Fml.{ftrue};
    ghost use Rattle.example_fair_lock.specs.Books.{IsKept};

    ghost holds = { λ cells log. IsKept cells log };

    ghost first = { [] };

    ghost hinted = { λ n log. Unit {0} };

    ghost shows = { λ log. [] };

    ghost keeps = { λ names log. ftrue };

    ghost moves = { λ ask before after answer. Unit {0} };
}

/// The callers of a book trade nothing.
pub struct Nothing;

impl Gain<Turn, u64> for Nothing {
    ghost use base.Fml.{ftrue};

    ghost after = { λ names about answer. ftrue };
}

/// The step that adds a turn.
pub struct Add;

impl Play<Turn, u64> for Add {
    ghost use Rattle.example_fair_lock.specs.Books.{Adds};

    ghost then = { Adds };
}

/// The argument of a step, which is the turn.
impl Plain<Turn, Turn, u64> for Add {
    ghost use Rattle.std.specs.Prelude.{None};

    ghost ask = { λ turn. turn };

    ghost state = { λ turn. None };
}

/// The name of a book, which each call of a program picks.
pub trait Naming {
    ghost use Rattle.logbook.specs.Pages.{Book};

    ghost book: { Book };
}

impl Naming for Brand {
    ghost book = { record { number = 0; log_name = 0; cells_name = 0 } };
}

/// A book with an empty history, which has no name yet.
pub struct Opened {
    head: Word<Turn, u64, BookInvariant>,
    seen: Seen<Turn, u64, BookInvariant>,
    pub ghost empty: { seen.log ≡ [] },
    pub ghost head_is: { head ≡ head_of seen.book },
}

impl Opened {
    pub fn new() -> Opened {
        let (seen, mut first, _second) = Seen::open(Start::alone(), 0, 0);
        Opened {
            head: Word::tracked(0, &mut first),
            seen,
        }
    }

    /// The book's word under a name, and the front that has seen nothing yet.
    pub fn named<J: Naming>(self) -> (Book<J>, Front<J>)
        requires { self.seen.book ≡ J.book }
        ensures { result.1 ≡ [] }
    {
        let Opened { head, seen } = self;
        (
            Book {
                head,
                of: PhantomData,
            },
            Front {
                turns: 0,
                seen,
                of: PhantomData,
            },
        )
    }
}

/// The word that all threads share: the length of the history.
#[derive(Drop)]
pub struct Book<J: Naming> {
    head: Word<Turn, u64, BookInvariant>,
    of: PhantomData<J>,
    ghost head_is: { head ≡ head_of J.book },
}

/// A prefix of the history that a thread has seen. Contracts see it as its turns.
#[derive(Drop)]
pub struct Front<J: Naming> {
    turns: u64,
    seen: Seen<Turn, u64, BookInvariant>,
    of: PhantomData<J>,
}

impl<J: Naming> Model for Front<J> {
    ghost use Rattle.std.specs.Prelude.{◌≡◌, List, length};
    ghost use Rattle.example_fair_lock.specs.declared.turn.Turn.{Turn};
    ghost use Rattle.example_fair_lock.specs.Turns.{IsChain};

    ghost Value = { List Turn };

    ghost view = { λ f. f.seen.log };

    ghost invariant = { λ f. (f.turns ≡ length f.seen.log) × (f.seen.book ≡ J.book)
        × IsChain f.seen.log };
}

impl<J: Naming> Front<J> {
    /// Returns how many turns the front has.
    pub fn len(&self) -> u64
        ensures length { result ≡ length self.now }
        ensures chain { IsChain self.now }
    {
        self.turns
    }

    /// Returns a copy of the front.
    pub fn again(&self) -> Front<J>
        ensures { result ≡ self.now }
    {
        Front {
            turns: self.turns,
            seen: self.seen.again(),
            of: PhantomData,
        }
    }

    /// Returns the longer of two fronts, of which the other is a prefix.
    pub fn longer(&self, other: &Front<J>) -> Front<J>
        ensures one { (result ≡ self.now) ⊎ (result ≡ other.now) }
        ensures this { IsPrefix self.now result }
        ensures that { IsPrefix other.now result }
        ensures chain { IsChain result }
    {
        let mut both = self.seen.again();
        both.learn(&other.seen);
        if self.turns < other.turns {
            other.again()
        } else {
            self.again()
        }
    }

    /// Adds a turn to all turns that were seen, and says whether it did. It does not if the history is longer than what
    /// was seen.
    pub fn add(&mut self, book: &Book<J>, turn: Turn) -> bool
        requires room { length self.old < 2 ^ 62 }
        requires next { turn.found ≡ last_left self.old }
        ensures { MatchBool result (self.new ≡ self.old ++ turn ∷ []) (IsLonger self.old self.new) }
    {
        let mut offer: Offer<Turn, u64, BookInvariant, Nothing> = self
            .seen
            .plain::<Nothing, Turn, Add>(&turn);
        let mut pen = self.seen.no_pen();
        let turns = self.turns;
        let found = book
            .head
            .compare_exchange::<Add, Nothing>(
                turns,
                turns + 1,
                &mut self.seen,
                &mut offer,
                &mut pen,
            );
        self.turns = if found == turns { turns + 1 } else { found };
        found == turns
    }
}

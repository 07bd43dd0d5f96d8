//! The kinds of lines that a caller can choose, the lock that each kind uses, and the part of the contracts that
//! depends on the lock.
ghost use Rattle.std.specs.Prelude.{◌≡◌};
ghost use Rattle.qolb_script.specs.declared.report.Report.{Report};
ghost use Rattle.qolb_script.specs.WorkScript.{WorkScript};
ghost use Rattle.line_kinds.specs.declared.Lock.{Lock};
ghost use Rattle.qolb_run.specs.Kinds.{lock_of, shared_lock, by_lock};
ghost use Rattle.qolb_work.specs.BankWork.{IsBankedOver};
ghost use Rattle.qolb_work.specs.BoardWork.{IsBoardedOver};

use line_accounts::AccountLaw;
use line_board::BoardLaw;
use line_kinds::{LOCKS, LinkLine, Lock, RingLine, TicketLine};
use qolb_model::LineSync;

/// The kinds of lines over which `run_work` can work.
///
/// `run_work_with` takes any `Lock`.
#[derive(Clone, Copy, Debug, PartialEq, Eq)]
pub enum Lines {
    /// Ring lines: Anderson's array lock, with tickets and cells.
    Ring,
    /// Link lines: as in the MCS lock, a node swaps one word, the line's home word, and then links to its predecessor.
    Link,
}

impl Lines {
    /// Returns the lock that these lines use.
    pub fn lock(self) -> Lock
        ensures { result ≡ lock_of self }
    {
        match self {
            Lines::Ring => Lock::Ring,
            Lines::Link => Lock::Link,
        }
    }
}

/// The kinds of lines over which `run_schedule` can replay.
///
/// `run_schedule_with` takes any lock.
#[derive(Clone, Copy, Debug, PartialEq, Eq)]
pub enum Kind {
    /// The plain reference, which is a line with one owner.
    Plain,
    /// Ring lines, which several nodes share.
    Ring,
    /// Link lines, which several nodes share.
    Link,
}

impl Kind {
    /// Returns the lock of lines of this kind, or `None` for the plain reference, which has no lock.
    pub fn lock(self) -> Option<Lock>
        ensures { result ≡ shared_lock self }
    {
        match self {
            Kind::Plain => None,
            Kind::Ring => Some(Lock::Ring),
            Kind::Link => Some(Lock::Link),
        }
    }
}

/// Every argument that `run_schedule_with` takes.
///
/// These are `None` for the plain reference, and then each lock in the order of `line_kinds::ALL`.
pub static REPLAYED: [Option<Lock>; LOCKS + 1] = [
    None,
    Some(Lock::Ring),
    Some(Lock::Link),
    Some(Lock::Ticket),
];

/// Names the part of the contracts of `run_work` and `run_work_with` that depends on the lock.
///
/// The trait exists only for contracts and has no functions.
pub trait KindSpec {
    /// `done_over lock work report` relates work over lines of this lock to its report.
    ///
    /// It says that the work was done over lines of this lock, and that the report belongs to this work.
    ghost done_over: { Lock → WorkScript → Report → Type 0 };
}

/// The implementation of `KindSpec` for the three locks.
pub struct Locks;

impl KindSpec for Locks {
    ghost done_over = { let ring_board = ⟦<RingLine<BoardLaw> as LineSync<BoardLaw>>⟧ in
        let ring_bank = ⟦<RingLine<AccountLaw> as LineSync<AccountLaw>>⟧ in
        let link_board = ⟦<LinkLine<BoardLaw> as LineSync<BoardLaw>>⟧ in
        let link_bank = ⟦<LinkLine<AccountLaw> as LineSync<AccountLaw>>⟧ in
        let ticket_board = ⟦<TicketLine<BoardLaw> as LineSync<BoardLaw>>⟧ in
        let ticket_bank = ⟦<TicketLine<AccountLaw> as LineSync<AccountLaw>>⟧ in
        by_lock (λ work report.
        IsBoardedOver ring_board.belongs ring_board.view ring_board.config_of work report
        × IsBankedOver ring_bank.belongs ring_bank.view ring_bank.config_of work report)
        (λ work report.
        IsBoardedOver link_board.belongs link_board.view link_board.config_of work report
        × IsBankedOver link_bank.belongs link_bank.view link_bank.config_of work report)
        (λ work report.
        IsBoardedOver ticket_board.belongs ticket_board.view ticket_board.config_of work report
        × IsBankedOver ticket_bank.belongs ticket_bank.view ticket_bank.config_of work report) };
}

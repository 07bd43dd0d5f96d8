//! Withdrawal: a ticket gives up its request.
ghost use Rattle.lock_core.specs.Views.{SameRequest};
ghost use Rattle.qolb_locks.specs.declared.ticket.State.{State};
ghost use Rattle.qolb_locks.specs.Calls.{IsMisuse, OnlyState, StepsUpTo, Learns, IfGranted, Withdraws};
ghost use Rattle.qolb_locks.specs.Tickets.{Is, IsKnown};

use crate::answer::Answer;
use crate::lock::Lock;
use crate::ticket::{State, Ticket};
use lock_core::layout::WITHDRAWAL_WINDOW;

/// Withdraws a request that was within the window of withdrawal when its caller last looked.
///
/// The answer is `Far` if the request was beyond the window, and `Granted` if it is at its turn.
#[inline(always)]
pub fn withdraw(lock: &Lock, ticket: &mut Ticket) -> Answer
    requires { IsKnown lock.now ticket.old }
    ensures known { IsKnown lock.now ticket.new }
    ensures misuse { ¬ Is State.Waiting lock.now ticket.old →
        IsMisuse ticket.old ticket.new result }
    ensures does { Is State.Waiting lock.now ticket.old →
        Withdraws lock.now ticket.old ticket.new result }
    ensures same { Is State.Waiting lock.now ticket.old →
        IfGranted result (Learns ticket.old ticket.new SameRequest) }
    ensures steps { Is State.Waiting lock.now ticket.old → StepsUpTo 2 ticket.old ticket.new }
    ensures kept { OnlyState ticket.old ticket.new }
{
    if !ticket.has(State::Waiting, lock) {
        return Answer::Misuse;
    }
    if ticket.rounds > WITHDRAWAL_WINDOW {
        return Answer::Far;
    }
    let rounds = ticket.rounds;
    let mut seat = ticket.claim.take();
    let withdrawn = lock_core::withdraw(&lock.table.shared, &mut seat, ticket.number, rounds);
    ticket.claim.put(seat);
    if withdrawn {
        ticket.state = State::Free as u32;
        return Answer::Withdrawn;
    }
    ticket.state = State::AtTurn as u32;
    Answer::Granted
}

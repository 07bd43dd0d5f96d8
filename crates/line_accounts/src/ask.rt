//! Requests a line of accounts for a port, and polls a bounded number of times.
ghost use Rattle.std.specs.Prelude.{◌≡◌, ◌≤◌, ◌+◌, Err, IfOk, IfErr, IsTrue};
ghost use Rattle.qolb_model.specs.Counting.{IsWithinCalls};
ghost use Rattle.line_accounts.specs.Desks.{IsAtRest, HasWaited};
ghost use Rattle.line_accounts.specs.Moves.{Holds, IsRefused};

use crate::answer::Reply;
use crate::law::AccountLaw;
use qolb_model::{Acquired, LineSync, acquire_bounded};

/// Requests the line, polls at most `patience` times, and then withdraws the request. Does not allocate.
///
/// Returns `Ok` if the port holds the line, and otherwise the reply that says why it does not: `Late`, `Closed` or
/// `Busy`.
pub fn ask<L: LineSync<AccountLaw>>(
    line: &L,
    port: &mut L::Port,
    patience: u64,
) -> Result<(), Reply>
    requires belongs { L.belongs line.now port.old }
    requires at_rest { IsAtRest (L.view port.old) }
    ensures belongs { L.belongs line.now port.new }
    ensures holds { IfOk result (λ _. Holds (L.view port.old) (L.view port.new) (L.turn port.new)) }
    ensures refused { IfErr result (IsRefused (L.view port.old) (L.view port.new)) }
    ensures patient { (L.counters port.new).poll_count
        ≤ (L.counters port.old).poll_count + patience }
    ensures late { result ≡ Err Reply.Late
        → HasWaited L.counters L.view patience port.old port.new }
    ensures steps { IsWithinCalls (L.max_steps line.now) 2 (L.counters port.old)
        (L.counters port.new) }
{
    match acquire_bounded(line, port, patience) {
        Acquired::Granted => Ok(()),
        Acquired::Late => Err(Reply::Late),
        Acquired::Closed => Err(Reply::Closed),
        Acquired::Busy => Err(Reply::Busy),
    }
}

//! A desk, which groups the ports that one node has on several lines of accounts.
ghost use Rattle.std.specs.Prelude.{◌≡◌, ◌<◌, All, List, [], ◌∷◌, ◌++◌, length, slice_get, Some, MatchOption};
ghost use Rattle.line_accounts.specs.Desks.{AreOver, IsDeskOver, ArePatient, AreWithinCalls, HasOneWaited};
ghost use Rattle.line_accounts.specs.Calls.{Deposits, TakesOut, Transfers};

use crate::answer::Reply;
use crate::balance::place_of;
use crate::between_lines::move_between;
use crate::law::AccountLaw;
use crate::pair::pair_of;
use crate::turn::{move_within, pay_in, pay_out};
use qolb_model::{LineSync, PortState};
use std::marker::Model;

/// One node's ports of several lines, and the sums paid in and out through them.
#[derive(Drop)]
pub struct Desk<L: LineSync<AccountLaw>> {
    ports: Vec<L::Port>,
    paid_in: u128,
    paid_out: u128,
}

impl<L: LineSync<AccountLaw>> Model for Desk<L> {
    ghost use Rattle.line_accounts.specs.Desks.{DeskOf};

    ghost Value = { DeskOf L.Port };

    ghost view = { λ desk. record {
      ports = desk.ports.items;
      paid_in = desk.paid_in;
      paid_out = desk.paid_out;
    } };
}

impl<L: LineSync<AccountLaw>> Desk<L> {
    /// Makes a desk of these ports, one of each line. None of them has made a request, and nothing was paid at the
    /// desk.
    pub fn new(ports: Vec<L::Port>) -> Desk<L>
        requires { All (λ port. ((L.view port).state ≡ PortState.Idle)
            × ((L.view port).count ≡ 0)) ports.items }
        ensures over { (lines : List L) → AreOver L.belongs lines ports.items
            → IsDeskOver L.belongs L.view lines result }
        ensures ports { result.ports ≡ ports.items }
        ensures paid_in { result.paid_in ≡ 0 }
        ensures paid_out { result.paid_out ≡ 0 }
    {
        Desk {
            ports,
            paid_in: 0,
            paid_out: 0,
        }
    }

    /// Returns the sum of all that was paid in.
    pub fn paid_in(&self) -> u128
        ensures { result ≡ self.now.paid_in }
    {
        self.paid_in
    }

    /// Returns the sum of all that was paid out.
    pub fn paid_out(&self) -> u128
        ensures { result ≡ self.now.paid_out }
    {
        self.paid_out
    }

    /// Returns the port of line `i`.
    pub(crate) fn port(&self, i: usize) -> &L::Port
        requires { i < length self.now.ports }
        ensures { slice_get self.now.ports i ≡ Some result.now }
    {
        &self.ports[i]
    }

    /// Removes the last port and returns it, or returns `None` if there is none.
    pub(crate) fn take_last(&mut self) -> Option<L::Port>
        ensures { MatchOption result (self.new ≡ self.old) (λ port.
            self.old ≡ record self.new { ports = self.new.ports ++ port ∷ [] }) }
    {
        self.ports.pop()
    }
}

/// Pays the amount into the account, in one turn of its line. Polls at most `patience` times for that turn. Does not
/// allocate.
pub fn deposit<L: LineSync<AccountLaw>>(
    lines: &[L],
    desk: &mut Desk<L>,
    account: u64,
    amount: u64,
    patience: u64,
) -> Reply
    requires over { IsDeskOver L.belongs L.view lines.now desk.old }
    ensures over { IsDeskOver L.belongs L.view lines.now desk.new }
    ensures deposits { Deposits L.view (length lines.now) account amount desk.old desk.new result }
    ensures patient { ArePatient L.counters patience desk.old.ports desk.new.ports }
    ensures late { result ≡ Reply.Late
        → HasOneWaited L.counters L.view patience desk.old.ports desk.new.ports }
    ensures steps { AreWithinCalls L.counters L.max_steps lines.now desk.old.ports desk.new.ports }
{
    let Some((i, lane)) = place_of(account, lines.len()) else {
        return Reply::NoAccount;
    };
    pay_in(
        &lines[i],
        &mut desk.ports[i],
        &mut desk.paid_in,
        lane,
        amount,
        patience,
    )
}

/// Pays the amount out of the account, in one turn of its line. Polls at most `patience` times for that turn. Does not
/// allocate.
pub fn take_out<L: LineSync<AccountLaw>>(
    lines: &[L],
    desk: &mut Desk<L>,
    account: u64,
    amount: u64,
    patience: u64,
) -> Reply
    requires over { IsDeskOver L.belongs L.view lines.now desk.old }
    ensures over { IsDeskOver L.belongs L.view lines.now desk.new }
    ensures takes_out { TakesOut L.view (length lines.now) account amount desk.old desk.new result }
    ensures patient { ArePatient L.counters patience desk.old.ports desk.new.ports }
    ensures late { result ≡ Reply.Late
        → HasOneWaited L.counters L.view patience desk.old.ports desk.new.ports }
    ensures steps { AreWithinCalls L.counters L.max_steps lines.now desk.old.ports desk.new.ports }
{
    let Some((i, lane)) = place_of(account, lines.len()) else {
        return Reply::NoAccount;
    };
    pay_out(
        &lines[i],
        &mut desk.ports[i],
        &mut desk.paid_out,
        lane,
        amount,
        patience,
    )
}

/// Moves the amount from one account to another. Polls at most `patience` times for each turn. Does not allocate.
///
/// For a transfer over two lines, the call requests the lower line first. If the second is not granted, it releases the
/// first unchanged.
pub fn transfer<L: LineSync<AccountLaw>>(
    lines: &[L],
    desk: &mut Desk<L>,
    from: u64,
    to: u64,
    amount: u64,
    patience: u64,
) -> Reply
    requires over { IsDeskOver L.belongs L.view lines.now desk.old }
    ensures over { IsDeskOver L.belongs L.view lines.now desk.new }
    ensures transfers { Transfers L.view (length lines.now) from to amount desk.old
        desk.new result }
    ensures patient { ArePatient L.counters patience desk.old.ports desk.new.ports }
    ensures late { result ≡ Reply.Late
        → HasOneWaited L.counters L.view patience desk.old.ports desk.new.ports }
    ensures steps { AreWithinCalls L.counters L.max_steps lines.now desk.old.ports desk.new.ports }
{
    let Some((i, source)) = place_of(from, lines.len()) else {
        return Reply::NoAccount;
    };
    let Some((j, target)) = place_of(to, lines.len()) else {
        return Reply::NoAccount;
    };
    if from == to {
        return Reply::SameAccount;
    }
    if i == j {
        return move_within(
            &lines[i],
            &mut desk.ports[i],
            source,
            target,
            amount,
            patience,
        );
    }
    let (low, high) = if i < j { (i, j) } else { (j, i) };
    let (first, second) = pair_of(&mut desk.ports, low, high);
    move_between(
        &lines[low],
        first,
        &lines[high],
        second,
        i < j,
        source,
        target,
        amount,
        patience,
    )
}

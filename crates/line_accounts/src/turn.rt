//! The turn of a port that holds a line of accounts. The port reads and writes the balances, and then releases the
//! line.
ghost use Rattle.std.specs.Prelude.{◌≡◌, ◌≢◌, ◌<◌, ◌≤◌, ◌+◌, length};
ghost use Rattle.qolb_model.specs.Counting.{IsWithinCalls};
ghost use Rattle.qolb_model.specs.AtTurn.{IsGranted};
ghost use Rattle.qolb_model.specs.Views.{bytes_of};
ghost use Rattle.line_accounts.specs.Accounts.{StayBalances};
ghost use Rattle.line_accounts.specs.Desks.{IsAtRest, HasWaited};
ghost use Rattle.line_accounts.specs.Moves.{Leaves, PaysIn, PaysOut, MovesWithin};

use crate::answer::Reply;
use crate::ask::ask;
use crate::balance::{credited, debited};
use crate::law::AccountLaw;
use line_lanes::{Line64, Mask};
use qolb_model::{LineSync, PortState};

/// Returns the holder's bytes of the line.
pub fn held_line<L: LineSync<AccountLaw>>(port: &L::Port) -> Line64
    requires { (L.view port.now).state ≡ PortState.Holding }
    ensures bytes { result.bytes ≡ (L.turn port.now).bytes.bytes }
    ensures long { length result.bytes ≡ 64 }
{
    Line64::from_bytes(L::bytes(port).to_bytes())
}

/// Releases the line unchanged.
pub fn release_unchanged<L: LineSync<AccountLaw>>(line: &L, port: &mut L::Port)
    requires belongs { L.belongs line.now port.old }
    requires granted { IsGranted (L.view port.old) (L.turn port.old) }
    ensures belongs { L.belongs line.now port.new }
    ensures leaves { Leaves (L.view port.old) (L.view port.new) (bytes_of (L.view port.old)) }
    ensures poll_count { (L.counters port.new).poll_count ≡ (L.counters port.old).poll_count }
    ensures steps { IsWithinCalls (L.max_steps line.now) 1 (L.counters port.old)
        (L.counters port.new) }
{
    line.deqolb(port);
}

/// Writes the whole line, and releases it.
pub fn write_and_release<L: LineSync<AccountLaw>>(line: &L, port: &mut L::Port, next: &Line64)
    requires belongs { L.belongs line.now port.old }
    requires state { (L.view port.old).state ≡ PortState.Holding }
    requires long { length next.now.bytes ≡ 64 }
    requires allowed { StayBalances (bytes_of (L.view port.old)) next.now.bytes }
    ensures belongs { L.belongs line.now port.new }
    ensures leaves { Leaves (L.view port.old) (L.view port.new) next.now.bytes }
    ensures poll_count { (L.counters port.new).poll_count ≡ (L.counters port.old).poll_count }
    ensures steps { IsWithinCalls (L.max_steps line.now) 1 (L.counters port.old)
        (L.counters port.new) }
{
    L::write(port, Mask(u64::MAX), next);
    line.deqolb(port);
}

/// Pays the amount into lane `k` in one turn, and adds it to `paid_in`. Polls at most `patience` times for that turn.
pub fn pay_in<L: LineSync<AccountLaw>>(
    line: &L,
    port: &mut L::Port,
    paid_in: &mut u128,
    k: usize,
    amount: u64,
    patience: u64,
) -> Reply
    requires belongs { L.belongs line.now port.old }
    requires at_rest { IsAtRest (L.view port.old) }
    requires lane { k < 8 }
    ensures belongs { L.belongs line.now port.new }
    ensures pays { PaysIn (L.view port.old)
        (L.view port.new) k amount paid_in.old paid_in.new result }
    ensures patient { (L.counters port.new).poll_count
        ≤ (L.counters port.old).poll_count + patience }
    ensures late { result ≡ Reply.Late → HasWaited L.counters L.view patience port.old port.new }
    ensures steps { IsWithinCalls (L.max_steps line.now) 3 (L.counters port.old)
        (L.counters port.new) }
{
    if let Err(reply) = ask(line, port, patience) {
        return reply;
    }
    let found = held_line::<L>(port);
    let Some(next) = credited(&found, k, amount) else {
        release_unchanged(line, port);
        return Reply::Over;
    };
    let Some(sum) = paid_in.checked_add(u128::from(amount)) else {
        release_unchanged(line, port);
        return Reply::Over;
    };
    write_and_release(line, port, &next);
    *paid_in = sum;
    Reply::Done
}

/// Pays the amount out of lane `k` in one turn, and adds it to `paid_out`. Polls at most `patience` times for that
/// turn.
pub fn pay_out<L: LineSync<AccountLaw>>(
    line: &L,
    port: &mut L::Port,
    paid_out: &mut u128,
    k: usize,
    amount: u64,
    patience: u64,
) -> Reply
    requires belongs { L.belongs line.now port.old }
    requires at_rest { IsAtRest (L.view port.old) }
    requires lane { k < 8 }
    ensures belongs { L.belongs line.now port.new }
    ensures pays { PaysOut (L.view port.old)
        (L.view port.new) k amount paid_out.old paid_out.new result }
    ensures patient { (L.counters port.new).poll_count
        ≤ (L.counters port.old).poll_count + patience }
    ensures late { result ≡ Reply.Late → HasWaited L.counters L.view patience port.old port.new }
    ensures steps { IsWithinCalls (L.max_steps line.now) 3 (L.counters port.old)
        (L.counters port.new) }
{
    if let Err(reply) = ask(line, port, patience) {
        return reply;
    }
    let found = held_line::<L>(port);
    let Some(next) = debited(&found, k, amount) else {
        release_unchanged(line, port);
        return Reply::Short;
    };
    let Some(sum) = paid_out.checked_add(u128::from(amount)) else {
        release_unchanged(line, port);
        return Reply::Over;
    };
    write_and_release(line, port, &next);
    *paid_out = sum;
    Reply::Done
}

/// Moves the amount from one lane to another in one turn of the line. Polls at most `patience` times for that turn.
pub fn move_within<L: LineSync<AccountLaw>>(
    line: &L,
    port: &mut L::Port,
    from: usize,
    to: usize,
    amount: u64,
    patience: u64,
) -> Reply
    requires belongs { L.belongs line.now port.old }
    requires at_rest { IsAtRest (L.view port.old) }
    requires source { from < 8 }
    requires target { to < 8 }
    requires apart { from ≢ to }
    ensures belongs { L.belongs line.now port.new }
    ensures moves { MovesWithin (L.view port.old) (L.view port.new) from to amount result }
    ensures patient { (L.counters port.new).poll_count
        ≤ (L.counters port.old).poll_count + patience }
    ensures late { result ≡ Reply.Late → HasWaited L.counters L.view patience port.old port.new }
    ensures steps { IsWithinCalls (L.max_steps line.now) 3 (L.counters port.old)
        (L.counters port.new) }
{
    if let Err(reply) = ask(line, port, patience) {
        return reply;
    }
    let found = held_line::<L>(port);
    let Some(less) = debited(&found, from, amount) else {
        release_unchanged(line, port);
        return Reply::Short;
    };
    let Some(next) = credited(&less, to, amount) else {
        release_unchanged(line, port);
        return Reply::Over;
    };
    write_and_release(line, port, &next);
    Reply::Done
}

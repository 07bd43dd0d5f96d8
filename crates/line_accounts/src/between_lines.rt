//! Transfers an amount between two accounts that are on different lines. The desk requests the lower-numbered line
//! first, and checks both balances before it writes to either line.
ghost use Rattle.std.specs.Prelude.{◌≡◌, ◌≢◌, ◌⊎◌, ◌<◌, ◌≤◌, ◌+◌, Err, IfOk, IfErr, length};
ghost use Rattle.qolb_model.specs.Counting.{IsWithinCalls};
ghost use Rattle.qolb_model.specs.AtTurn.{IsGranted};
ghost use Rattle.qolb_model.specs.Views.{bytes_of};
ghost use Rattle.line_accounts.specs.Desks.{IsAtRest, HasWaited};
ghost use Rattle.line_accounts.specs.Moves.{Holds, Carries, IsRefusedEither, MovesBetween};

use crate::answer::Reply;
use crate::ask::ask;
use crate::balance::{credited, debited};
use crate::law::AccountLaw;
use crate::turn::{held_line, release_unchanged, write_and_release};
use qolb_model::LineSync;

/// Requests the first line and then the second. If the second is not granted, releases the first unchanged.
fn ask_both<L: LineSync<AccountLaw>>(
    first: &L,
    first_port: &mut L::Port,
    second: &L,
    second_port: &mut L::Port,
    patience: u64,
) -> Result<(), Reply>
    requires belongs_first { L.belongs first.now first_port.old }
    requires belongs_second { L.belongs second.now second_port.old }
    requires rest_first { IsAtRest (L.view first_port.old) }
    requires rest_second { IsAtRest (L.view second_port.old) }
    ensures belongs_first { L.belongs first.now first_port.new }
    ensures belongs_second { L.belongs second.now second_port.new }
    ensures holds_first { IfOk result (λ _.
        Holds (L.view first_port.old) (L.view first_port.new) (L.turn first_port.new)) }
    ensures holds_second { IfOk result (λ _.
        Holds (L.view second_port.old) (L.view second_port.new) (L.turn second_port.new)) }
    ensures refused { IfErr result (IsRefusedEither (L.view first_port.old) (L.view first_port.new)
        (L.view second_port.old) (L.view second_port.new)) }
    ensures patient_first { (L.counters first_port.new).poll_count
        ≤ (L.counters first_port.old).poll_count + patience }
    ensures patient_second { (L.counters second_port.new).poll_count
        ≤ (L.counters second_port.old).poll_count + patience }
    ensures late { result ≡ Err Reply.Late
        → HasWaited L.counters L.view patience first_port.old first_port.new
        ⊎ HasWaited L.counters L.view patience second_port.old second_port.new }
    ensures steps_first { IfOk result (λ _. IsWithinCalls (L.max_steps first.now) 2
        (L.counters first_port.old) (L.counters first_port.new)) }
    ensures steps_second { IfOk result (λ _. IsWithinCalls (L.max_steps second.now) 2
        (L.counters second_port.old) (L.counters second_port.new)) }
    ensures gives_up_first { IsWithinCalls (L.max_steps first.now) 3 (L.counters first_port.old)
        (L.counters first_port.new) }
    ensures gives_up_second { IsWithinCalls (L.max_steps second.now) 3 (L.counters second_port.old)
        (L.counters second_port.new) }
{
    ask(first, first_port, patience)?;
    if let Err(reply) = ask(second, second_port, patience) {
        release_unchanged(first, first_port);
        return Err(reply);
    }
    Ok(())
}

/// Moves the amount from a lane of one held line to a lane of another, and releases both.
fn carry<L: LineSync<AccountLaw>>(
    source: &L,
    source_port: &mut L::Port,
    from: usize,
    target: &L,
    target_port: &mut L::Port,
    to: usize,
    amount: u64,
) -> Reply
    requires belongs_source { L.belongs source.now source_port.old }
    requires belongs_target { L.belongs target.now target_port.old }
    requires granted_source { IsGranted (L.view source_port.old) (L.turn source_port.old) }
    requires granted_target { IsGranted (L.view target_port.old) (L.turn target_port.old) }
    requires from_lane { from < 8 }
    requires to_lane { to < 8 }
    ensures belongs_source { L.belongs source.now source_port.new }
    ensures belongs_target { L.belongs target.now target_port.new }
    ensures long_source { length (bytes_of (L.view source_port.old)) ≡ 64 }
    ensures long_target { length (bytes_of (L.view target_port.old)) ≡ 64 }
    ensures carries { Carries (L.view source_port.old) (L.view source_port.new)
        (L.view target_port.old) (L.view target_port.new) from to amount result }
    ensures polls_source { (L.counters source_port.new).poll_count
        ≡ (L.counters source_port.old).poll_count }
    ensures polls_target { (L.counters target_port.new).poll_count
        ≡ (L.counters target_port.old).poll_count }
    ensures not_late { result ≢ Reply.Late }
    ensures steps_source { IsWithinCalls (L.max_steps source.now) 1 (L.counters source_port.old)
        (L.counters source_port.new) }
    ensures steps_target { IsWithinCalls (L.max_steps target.now) 1 (L.counters target_port.old)
        (L.counters target_port.new) }
{
    let paying = held_line::<L>(source_port);
    let paid = held_line::<L>(target_port);
    let Some(less) = debited(&paying, from, amount) else {
        release_unchanged(source, source_port);
        release_unchanged(target, target_port);
        return Reply::Short;
    };
    let Some(more) = credited(&paid, to, amount) else {
        release_unchanged(source, source_port);
        release_unchanged(target, target_port);
        return Reply::Over;
    };
    write_and_release(source, source_port, &less);
    write_and_release(target, target_port, &more);
    Reply::Done
}

/// Moves the amount to the higher line if `up` is set, and otherwise to the lower one. Requests the lower line first.
pub fn move_between<L: LineSync<AccountLaw>>(
    low: &L,
    low_port: &mut L::Port,
    high: &L,
    high_port: &mut L::Port,
    up: bool,
    from: usize,
    to: usize,
    amount: u64,
    patience: u64,
) -> Reply
    requires belongs_low { L.belongs low.now low_port.old }
    requires belongs_high { L.belongs high.now high_port.old }
    requires rest_low { IsAtRest (L.view low_port.old) }
    requires rest_high { IsAtRest (L.view high_port.old) }
    requires from_lane { from < 8 }
    requires to_lane { to < 8 }
    ensures belongs_low { L.belongs low.now low_port.new }
    ensures belongs_high { L.belongs high.now high_port.new }
    ensures moves { MovesBetween up (L.view low_port.old) (L.view low_port.new)
        (L.view high_port.old) (L.view high_port.new) from to amount result }
    ensures patient_low { (L.counters low_port.new).poll_count
        ≤ (L.counters low_port.old).poll_count + patience }
    ensures patient_high { (L.counters high_port.new).poll_count
        ≤ (L.counters high_port.old).poll_count + patience }
    ensures late { result ≡ Reply.Late
        → HasWaited L.counters L.view patience low_port.old low_port.new
        ⊎ HasWaited L.counters L.view patience high_port.old high_port.new }
    ensures steps_low { IsWithinCalls (L.max_steps low.now) 3 (L.counters low_port.old)
        (L.counters low_port.new) }
    ensures steps_high { IsWithinCalls (L.max_steps high.now) 3 (L.counters high_port.old)
        (L.counters high_port.new) }
{
    if let Err(reply) = ask_both(low, low_port, high, high_port, patience) {
        return reply;
    }
    if up {
        carry(low, low_port, from, high, high_port, to, amount)
    } else {
        carry(high, high_port, from, low, low_port, to, amount)
    }
}

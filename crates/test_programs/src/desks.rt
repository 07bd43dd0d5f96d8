//! Makes calls on desks, one after another, and checks the answers. A desk groups the ports that one node has on
//! several lines of accounts.
ghost use Rattle.std.specs.Prelude.{◌≡◌, ◌+◌, ◌∷◌, [], IsTrue, IfOk, IfSome};
ghost use Rattle.qolb_model.specs.PortStates.{may_ask};
ghost use Rattle.line_accounts.specs.Desks.{IsDeskOver};
ghost use Rattle.line_accounts.specs.Settled.{all_opened};
ghost use Rattle.line_accounts.specs.NewDesks.{IsNewPort};

use line_accounts::{
    AccountLaw, Desk, MAX_BALANCE, Reply, Unsettled, deposit, settle, take_out, transfer,
};
use line_lanes::Line64;
use qolb_model::{Enq, LineSync};
use std::alloc::Global;

/// Makes a desk over one line. Returns `None` if memory is refused.
pub fn over_one<L: LineSync<AccountLaw> + Drop>(
    alloc: Global,
    line: L,
    port: L::Port,
) -> Option<(Vec<L>, Desk<L>)>
where
    L::Port: Drop,
    requires { IsNewPort L.belongs L.view line port }
    ensures over { IfSome result (λ made. IsDeskOver L.belongs L.view made.0.items made.1) }
    ensures lines { IfSome result (λ made. made.0.items ≡ line ∷ []) }
{
    let mut lines = Vec::new(alloc);
    lines.push(line).ok()?;
    let mut ports = Vec::new(alloc);
    ports.push(port).ok()?;
    Some((lines, Desk::new(ports)))
}

/// Returns a list of two items, or `None` if memory is refused.
pub(crate) fn pair<T: Drop>(alloc: Global, first: T, second: T) -> Option<Vec<T>>
    ensures { IfSome result (λ both. both.items ≡ first ∷ second ∷ []) }
{
    let mut both = Vec::new(alloc);
    both.push(first).ok()?;
    both.push(second).ok()?;
    Some(both)
}

/// Makes a desk over two lines. Returns `None` if memory is refused.
pub fn over_two<L: LineSync<AccountLaw> + Drop>(
    alloc: Global,
    first: L,
    first_port: L::Port,
    second: L,
    second_port: L::Port,
) -> Option<(Vec<L>, Desk<L>)>
where
    L::Port: Drop,
    requires first { IsNewPort L.belongs L.view first first_port }
    requires second { IsNewPort L.belongs L.view second second_port }
    ensures over { IfSome result (λ made. IsDeskOver L.belongs L.view made.0.items made.1) }
    ensures lines { IfSome result (λ made. made.0.items ≡ first ∷ second ∷ []) }
{
    let lines = pair(alloc, first, second)?;
    let ports = pair(alloc, first_port, second_port)?;
    Some((lines, Desk::new(ports)))
}

/// Settles with this desk alone. Returns `None` if memory for the list of desks is refused.
pub fn settle_with<L: LineSync<AccountLaw> + Drop>(
    alloc: Global,
    lines: Vec<L>,
    desk: Desk<L>,
) -> Option<Result<u128, Unsettled<L>>>
where
    L::Port: Drop,
    requires { IsDeskOver L.belongs L.view lines.items desk }
    ensures { IfSome result (λ settled.
        IfOk settled (λ total. total + desk.paid_out
        ≡ all_opened L.config_of lines.items + desk.paid_in)) }
{
    let mut desks = Vec::new(alloc);
    desks.push(desk).ok()?;
    Some(settle(alloc, lines, desks))
}

/// A day at a desk: pays 100 into account 3, moves 40 of them to account 5, and pays 10 out of that. Returns the
/// settled total.
pub fn a_day<L: LineSync<AccountLaw> + Drop>(alloc: Global, line: L, port: L::Port) -> Option<u128>
where
    L::Port: Drop,
    requires { IsNewPort L.belongs L.view line port }
{
    let (lines, mut desk) = over_one(alloc, line, port)?;
    deposit(&lines, &mut desk, 3, 100, 64);
    transfer(&lines, &mut desk, 3, 5, 40, 64);
    take_out(&lines, &mut desk, 5, 10, 64);
    settle_with(alloc, lines, desk)?.ok()
}

/// Pays in all that an account may hold, and 1 more; pays out of an empty account; transfers to the same account; and
/// pays into an account beyond the line.
pub fn limits<L: LineSync<AccountLaw>>(lines: &[L], desk: &mut Desk<L>) -> [Reply; 5]
    requires { IsDeskOver L.belongs L.view lines.now desk.old }
    ensures { IsDeskOver L.belongs L.view lines.now desk.new }
{
    let most = deposit(lines, desk, 0, MAX_BALANCE, 0);
    let more = deposit(lines, desk, 0, 1, 0);
    let short = take_out(lines, desk, 1, 1, 0);
    let same = transfer(lines, desk, 0, 0, 5, 0);
    let beyond = deposit(lines, desk, 8, 1, 0);
    [most, more, short, same, beyond]
}

/// The balances of a line, for a node that is granted it at once. The node keeps the line.
pub fn found_by<L: LineSync<AccountLaw>>(line: &L, other: &mut L::Port) -> Option<Line64>
    requires other { L.belongs line.now other.old }
    requires quiet { IsTrue (may_ask (L.view other.old).state) }
{
    match line.enqolb(other) {
        Enq::Granted => Some(*L::bytes(other)),
        Enq::Queued | Enq::Closed | Enq::Busy => None,
    }
}

/// Deposits 10, and transfers 4 of them to the other line.
pub fn across<L: LineSync<AccountLaw>>(lines: &[L], desk: &mut Desk<L>) -> [Reply; 2]
    requires { IsDeskOver L.belongs L.view lines.now desk.old }
    ensures { IsDeskOver L.belongs L.view lines.now desk.new }
{
    let paid = deposit(lines, desk, 0, 10, 0);
    let moved = transfer(lines, desk, 0, 9, 4, 0);
    [paid, moved]
}

/// Transfers to an account of the other line that holds its limit.
pub fn over<L: LineSync<AccountLaw>>(lines: &[L], desk: &mut Desk<L>) -> [Reply; 3]
    requires { IsDeskOver L.belongs L.view lines.now desk.old }
    ensures { IsDeskOver L.belongs L.view lines.now desk.new }
{
    let few = deposit(lines, desk, 0, 5, 0);
    let most = deposit(lines, desk, 9, MAX_BALANCE, 0);
    let moved = transfer(lines, desk, 0, 9, 1, 0);
    [few, most, moved]
}

/// Deposits; then, while another node holds the line of account 9, transfers to it, pays out of it, and pays out of the
/// other line.
pub fn late<L: LineSync<AccountLaw>>(
    lines: &[L],
    desk: &mut Desk<L>,
    line: &L,
    other: &mut L::Port,
) -> (Enq, [Reply; 4])
    requires over { IsDeskOver L.belongs L.view lines.now desk.old }
    requires other { L.belongs line.now other.old }
    requires quiet { IsTrue (may_ask (L.view other.old).state) }
    ensures over { IsDeskOver L.belongs L.view lines.now desk.new }
    ensures other { L.belongs line.now other.new }
{
    let paid = deposit(lines, desk, 0, 10, 0);
    let asked = line.enqolb(other);
    let moved = transfer(lines, desk, 0, 9, 4, 0);
    let again = take_out(lines, desk, 9, 1, 0);
    let taken = take_out(lines, desk, 0, 10, 0);
    (asked, [paid, moved, again, taken])
}

/// While another node holds the line of account 0, pays into it without a poll; then pays in, pays out and transfers
/// with `patience` polls each.
pub fn busy<L: LineSync<AccountLaw>>(
    lines: &[L],
    desk: &mut Desk<L>,
    line: &L,
    other: &mut L::Port,
    patience: u64,
) -> (Enq, [Reply; 4])
    requires over { IsDeskOver L.belongs L.view lines.now desk.old }
    requires other { L.belongs line.now other.old }
    requires quiet { IsTrue (may_ask (L.view other.old).state) }
{
    let asked = line.enqolb(other);
    let late = deposit(lines, desk, 0, 10, 0);
    let paid = deposit(lines, desk, 0, 10, patience);
    let taken = take_out(lines, desk, 0, 10, patience);
    let moved = transfer(lines, desk, 0, 1, 10, patience);
    (asked, [late, paid, taken, moved])
}

/// Deposits and transfers, the two turns of the first line's lease; then deposits there, and pays out of the second
/// line.
pub fn leased<L: LineSync<AccountLaw>>(lines: &[L], desk: &mut Desk<L>) -> [Reply; 4]
    requires { IsDeskOver L.belongs L.view lines.now desk.old }
    ensures { IsDeskOver L.belongs L.view lines.now desk.new }
{
    let paid = deposit(lines, desk, 0, 10, 0);
    let moved = transfer(lines, desk, 0, 9, 4, 0);
    let late = deposit(lines, desk, 0, 1, 0);
    let taken = take_out(lines, desk, 9, 4, 0);
    [paid, moved, late, taken]
}

/// Transfers between the two lines while another node holds the line of account 0, then pays 1 into account 9.
///
/// If the second line has a lease of one turn, that turn is left only if the transfer asked for the lower line first.
pub fn lower_line_first<L: LineSync<AccountLaw>>(
    lines: &[L],
    desk: &mut Desk<L>,
    line: &L,
    other: &mut L::Port,
    from: u64,
    to: u64,
) -> (Enq, [Reply; 2])
    requires over { IsDeskOver L.belongs L.view lines.now desk.old }
    requires other { L.belongs line.now other.old }
    requires quiet { IsTrue (may_ask (L.view other.old).state) }
    ensures over { IsDeskOver L.belongs L.view lines.now desk.new }
    ensures other { L.belongs line.now other.new }
{
    let asked = line.enqolb(other);
    let moved = transfer(lines, desk, from, to, 0, 0);
    let paid = deposit(lines, desk, 9, 1, 0);
    (asked, [moved, paid])
}

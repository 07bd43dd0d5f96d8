//! Desks that transfer money between accounts, with a thread for each desk. Each desk pays in, and then makes random
//! transfers between all accounts. The total at the end must be the sum that was paid in.
ghost use Rattle.std.specs.Prelude.{All, IfSome};
ghost use Rattle.line_accounts.specs.Desks.{IsDeskOver};
ghost use Rattle.line_accounts.specs.NewDesks.{IsNewPort};

use line_accounts::{AccountLaw, Desk, Reply, deposit, open_desks, settle, transfer};
use line_blocking::scoped::{ScopedTask, run_scoped};
use qolb_model::LineSync;
use rand::{RngExt, SeedableRng};
use rand_xoshiro::Xoshiro256PlusPlus;
use std::alloc::Global;
use std::sync::Wait;
use std::thread::{Threads, yield_now};

/// Polls before a call withdraws its request.
const PATIENCE: u64 = 100;

/// The number of accounts, on eight lines.
pub const ACCOUNTS: u64 = 64;

/// What each customer pays into each account.
pub const PAID_IN: u64 = 1_000;

/// Each transfer moves less than this.
const MAX_MOVED: u64 = 4_000;

/// The outcomes of transfers.
#[derive(Clone, Copy, Debug, PartialEq, Eq)]
pub struct Counts {
    /// Transfers that were done.
    pub done: u64,
    /// Transfers that found too little money.
    pub short: u64,
    /// Transfers that were refused for another cause: both accounts were the same.
    pub other: u64,
}

/// A customer at a desk, with a random generator.
#[derive(Drop)]
pub struct Customer<L: LineSync<AccountLaw>> {
    desk: Desk<L>,
    rng: Xoshiro256PlusPlus,
    counts: Counts,
}

/// The task of a customer: a payment into each account, and then `rounds` transfers.
#[derive(Clone, Copy)]
pub struct Transfers {
    rounds: u64,
}

impl<R: Wait, L: LineSync<AccountLaw>> ScopedTask<R, Vec<L>, Customer<L>> for Transfers {
    type Output = Customer<L>;

    ghost pre = { λ _ lines _ customer. IsDeskOver L.belongs L.view lines.items customer.desk };

    ghost post = { λ _ lines _ customer. IsDeskOver L.belongs L.view lines.items customer.desk };

    fn work(&self, rt: &R, lines: &Vec<L>, _place: usize, customer: Customer<L>) -> Customer<L> {
        let Customer {
            mut desk,
            mut rng,
            counts: _,
        } = customer;
        pay_into_all(rt, lines, &mut desk);
        let counts = move_often(rt, lines, &mut desk, &mut rng, self.rounds);
        Customer { desk, rng, counts }
    }
}

impl Counts {
    /// No transfer.
    const NONE: Counts = Counts {
        done: 0,
        short: 0,
        other: 0,
    };

    /// Adds an answer.
    fn with(self, reply: Reply) -> Counts {
        let Counts { done, short, other } = self;
        match reply {
            Reply::Done => Counts {
                done: done.saturating_add(1),
                short,
                other,
            },
            Reply::Short => Counts {
                done,
                short: short.saturating_add(1),
                other,
            },
            _ => Counts {
                done,
                short,
                other: other.saturating_add(1),
            },
        }
    }

    /// The sums of both.
    fn and(self, more: Counts) -> Counts {
        Counts {
            done: self.done.saturating_add(more.done),
            short: self.short.saturating_add(more.short),
            other: self.other.saturating_add(more.other),
        }
    }
}

/// Pays into each account.
fn pay_into_all<R: Wait, L: LineSync<AccountLaw>>(rt: &R, lines: &[L], desk: &mut Desk<L>)
    requires { IsDeskOver L.belongs L.view lines.now desk.old }
    ensures { IsDeskOver L.belongs L.view lines.now desk.new }
{
    for account in 0..ACCOUNTS {
        pay_in(rt, lines, desk, account);
    }
}

/// Makes `rounds` transfers at random.
fn move_often<R: Wait, L: LineSync<AccountLaw>>(
    rt: &R,
    lines: &[L],
    desk: &mut Desk<L>,
    rng: &mut Xoshiro256PlusPlus,
    rounds: u64,
) -> Counts
    requires { IsDeskOver L.belongs L.view lines.now desk.old }
    ensures { IsDeskOver L.belongs L.view lines.now desk.new }
{
    let mut counts = Counts::NONE;
    for _ in 0..rounds {
        let from = rng.random_range(0..ACCOUNTS);
        let to = rng.random_range(0..ACCOUNTS);
        let amount = rng.random_range(0..MAX_MOVED);
        counts = counts.with(move_on(rt, lines, desk, from, to, amount));
    }
    counts
}

/// Pays into the account, and asks again while the answer is late or busy.
fn pay_in<R: Wait, L: LineSync<AccountLaw>>(
    rt: &R,
    lines: &[L],
    desk: &mut Desk<L>,
    account: u64,
) -> Reply
    requires { IsDeskOver L.belongs L.view lines.now desk.old }
    ensures { IsDeskOver L.belongs L.view lines.now desk.new }
{
    for _ in rt.forever() {
        match deposit(lines, desk, account, PAID_IN, PATIENCE) {
            Reply::Late | Reply::Busy => yield_now(),
            reply => return reply,
        }
    }
    unreachable!()
}

/// Transfers, and asks again while the answer is late or busy.
fn move_on<R: Wait, L: LineSync<AccountLaw>>(
    rt: &R,
    lines: &[L],
    desk: &mut Desk<L>,
    from: u64,
    to: u64,
    amount: u64,
) -> Reply
    requires { IsDeskOver L.belongs L.view lines.now desk.old }
    ensures { IsDeskOver L.belongs L.view lines.now desk.new }
{
    for _ in rt.forever() {
        match transfer(lines, desk, from, to, amount, PATIENCE) {
            Reply::Late | Reply::Busy => yield_now(),
            reply => return reply,
        }
    }
    unreachable!()
}

/// The settled total, and the outcomes of all transfers.
#[derive(Clone, Copy, Debug, PartialEq, Eq)]
pub struct Settled {
    pub total: u128,
    pub counts: Counts,
}

/// Runs a customer for each node of eight new lines, and settles.
///
/// Each makes `rounds` transfers in its own thread. Returns `None` if memory or a thread is refused, or a line has
/// fewer than `nodes` nodes.
pub fn transfer_at_random<R: Threads + Wait + Sync, L: LineSync<AccountLaw> + Sync + Drop>(
    rt: &R,
    alloc: Global,
    opened: Vec<(L, Vec<L::Port>)>,
    nodes: usize,
    rounds: u64,
) -> Option<Settled>
where
    L::Port: Send + Drop,
    requires { All (λ line. All (IsNewPort L.belongs L.view line.0) line.1.items) opened.items }
{
    let Ok((lines, desks)) = open_desks(alloc, opened, nodes) else {
        return None;
    };
    let customers = seat(alloc, &lines, desks)?;
    let back = run_scoped(rt, alloc, &Transfers { rounds }, &lines, customers)?;
    let (desks, counts) = unseat(alloc, &lines, back)?;
    let total = settle(alloc, lines, desks).ok()?;
    Some(Settled { total, counts })
}

/// Makes a customer for each desk, with its own random seed. Returns `None` if memory is refused.
fn seat<L: LineSync<AccountLaw>>(
    alloc: Global,
    lines: &Vec<L>,
    desks: Vec<Desk<L>>,
) -> Option<Vec<Customer<L>>>
where
    L::Port: Drop,
    requires { All (IsDeskOver L.belongs L.view lines.now.items) desks.items }
    ensures { IfSome result (λ customers.
        All (λ customer. IsDeskOver L.belongs L.view lines.now.items customer.desk)
        customers.items) }
{
    let mut customers = Vec::with_capacity(alloc, desks.len()).ok()?;
    for desk in desks {
        let seed = customers.len() as u64;
        let customer = Customer {
            desk,
            rng: Xoshiro256PlusPlus::seed_from_u64(seed),
            counts: Counts::NONE,
        };
        customers.push(customer).ok()?;
    }
    Some(customers)
}

/// Returns the customers' desks and the outcomes of all their transfers, or `None` if memory is refused.
fn unseat<L: LineSync<AccountLaw>>(
    alloc: Global,
    lines: &Vec<L>,
    customers: Vec<Customer<L>>,
) -> Option<(Vec<Desk<L>>, Counts)>
where
    L::Port: Drop,
    requires { All (λ customer. IsDeskOver L.belongs L.view lines.now.items customer.desk)
        customers.items }
    ensures { IfSome result (λ left.
        All (IsDeskOver L.belongs L.view lines.now.items) left.0.items) }
{
    let mut desks = Vec::with_capacity(alloc, customers.len()).ok()?;
    let mut counts = Counts::NONE;
    for customer in customers {
        let Customer {
            desk,
            rng: _,
            counts: its,
        } = customer;
        counts = counts.and(its);
        desks.push(desk).ok()?;
    }
    Some((desks, counts))
}

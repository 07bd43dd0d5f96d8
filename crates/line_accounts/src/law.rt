//! The data invariant of a line of accounts, which limits each balance to `MAX_BALANCE`.
use qolb_model::Keep;

/// The largest balance of an account: 2^48.
pub const MAX_BALANCE: u64 = 281_474_976_710_656;

/// The data invariant of a line of eight accounts. Each has at most `MAX_BALANCE` before and after each turn.
pub struct AccountLaw;

impl Keep for AccountLaw {
    ghost use Rattle.line_accounts.specs.Accounts.{AreBalances, StayBalances, balances_after, balances_same};

    ghost good = { AreBalances };

    ghost allows = { StayBalances };

    ghost stays_good = { balances_after };

    ghost allows_same = { balances_same };
}

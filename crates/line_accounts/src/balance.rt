//! Finds the line and the lane in which an account is stored, and changes the balance in a lane.
ghost use Rattle.std.specs.Prelude.{◌≡◌, ℕ, ◌+◌, ◌*◌, ◌<◌, ◌≤◌, MatchOption};
ghost use Rattle.line_lanes.specs.Lane.{lane_of};
ghost use Rattle.line_accounts.specs.Accounts.{line_of, lane_in, HasRoom, credited, debited};

use crate::law::MAX_BALANCE;
use line_lanes::{Line64, lane, with_lane};

/// Returns the line and the lane of an account, over `lines` lines. Returns `None` if there is no such account.
pub fn place_of(account: u64, lines: usize) -> Option<(usize, usize)>
    ensures { MatchOption result (8 * lines ≤ account) (λ place.
        (account < 8 * lines) × (place.0 ≡ line_of account) × (place.1 ≡ lane_in account)) }
{
    let line = account / 8;
    if line >= lines as u64 {
        return None;
    }
    Some((line as usize, (account % 8) as usize))
}

/// Returns the line with `amount` more in lane `k`, or `None` if the balance would exceed `MAX_BALANCE`.
pub fn credited(line: &Line64, k: usize, amount: u64) -> Option<Line64>
    requires { k < 8 }
    ensures { MatchOption result (HasRoom line.now.bytes k amount → ⊥) (λ next.
        HasRoom line.now.bytes k amount × (next.bytes ≡ credited line.now.bytes k amount)) }
{
    let balance = lane(line, k);
    if amount > MAX_BALANCE || balance > MAX_BALANCE - amount {
        return None;
    }
    Some(with_lane(line, k, balance + amount))
}

/// Returns the line with `amount` less in lane `k`. Returns `None` if the balance is less than `amount`.
pub fn debited(line: &Line64, k: usize, amount: u64) -> Option<Line64>
    requires { k < 8 }
    ensures { MatchOption result (lane_of line.now.bytes k < amount) (λ next.
        (amount ≤ lane_of line.now.bytes k) × (next.bytes ≡ debited line.now.bytes k amount)) }
{
    let balance = lane(line, k);
    if balance < amount {
        return None;
    }
    Some(with_lane(line, k, balance - amount))
}

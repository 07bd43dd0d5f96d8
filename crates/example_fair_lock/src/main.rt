//! Example programs in which threads start, end, and share a value under a fair lock. The examples are a count whose
//! total is proved, a pair whose sum is proved, and a number with a proved history.
#![tactic(auto)]

mod book;
mod count;
mod history;
mod pair;
mod turn;

use anyhow::Context;

fn main(rt: HostRuntime) -> anyhow::Result<()> {
    let strict = count::count(&rt, rt.alloc(), 1, 8, 500).context("no memory")?;
    println!(rt; "8 threads entered 500 times each, in the order of requests: {strict}")?;
    let barging = count::count(&rt, rt.alloc(), 32, 8, 500).context("no memory")?;
    println!(rt; "8 threads entered 500 times each, with a barging limit of 32: {barging}")?;
    let (left, right) = pair::purses_after(&rt, rt.alloc(), 8, 50).context("no memory")?;
    println!(rt; "8 threads moved a coin from the fuller purse 50 times each: {left} and {right}")?;
    let (one, two) = history::found_and_left(&rt, rt.alloc(), (3, 4)).context(
        "no memory, or a turn was not added",
    )?;
    let found_left = one.found == two.left || two.found == one.left;
    println!(rt; "of 2 critical sections one found what the other left: {found_left}")?;
    Ok(())
}

//! slots: enters a shift's log from standard input, then prints where each name stands and which lines were refused.
#![tactic(auto)]

mod check;
mod law;
mod listing;
mod places;

use places::places;

fn main(rt: HostRuntime) -> anyhow::Result<()> {
    Ok(places(rt.alloc(), &mut rt.stdin(), &mut rt.stdout())?)
}

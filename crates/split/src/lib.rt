// Planning a split: the eight records of a full node, the new nodes, the levels above, and the log, which recovery replays too.
#![tactic(auto)]

mod building;
mod halving;
pub mod logging;
mod opening;
pub mod rising;
pub mod splitting;

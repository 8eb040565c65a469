// Many nodes: the header that leads to them, and the way down to the leaf of a key.
#![tactic(auto)]

mod child;
pub mod descend;
pub mod header;
pub mod pathing;

// The whole-pool check as code: the walk over every node, past all refusals.
#![tactic(auto)]

pub mod walking;

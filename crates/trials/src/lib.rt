// Rows of requests on a pool, each answer held against a list that is kept beside it.
#![tactic(auto)]

pub mod asking;
mod model;
pub mod rows;
pub mod tally;
pub mod trial;

// What the calls for Rust and C answer: a struct of words for each answer. The archives `exports_c` and `turns_c` have the calls.
#![tactic(auto)]

pub mod replies;
pub mod reply;

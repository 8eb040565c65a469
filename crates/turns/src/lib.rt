// Desks as Rust and C lend them, and what the calls on these answer: records of words. The archive `turns_c` has the calls.
#![tactic(auto)]

mod record;
mod replies;

pub use record::DeskRecord;
pub use replies::TurnReply;

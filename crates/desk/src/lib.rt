// The desks: members submit requests, and each turn serves one of them.
#![tactic(auto)]

mod answer;
mod asking;
mod lent;
mod steps;
mod submitting;
mod turning;

pub use answer::{Turn, Turned};
pub use asking::{Asked, ask};
pub use lent::{Desk, DeskList, Lent};
pub use steps::{Chosen, looked_at, looked_member, note, plan_chosen};
pub use submitting::{seat, submit};
pub use turning::{plan_turn, turn};

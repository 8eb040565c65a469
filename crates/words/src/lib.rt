// Words, lines, events and the limits of a pool: the ground floor. It carries out one event and writes events into a lent list.
#![tactic(auto)]

mod carry;
mod event;
mod limits;
mod refusal;
mod write;

pub use carry::{carry_all, carry_out};
pub use limits::Pool;
pub use refusal::Refusal;
pub use write::EventList;

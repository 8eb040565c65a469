// What a turn answers.
use change::Outcome;
use words::Refusal;

// A member's request was answered, or no desk was full.
#[derive(Clone, Copy, PartialEq, Eq)]
pub enum Turned {
    Served(Result<Outcome, Refusal>),
    Idle,
}

// The answer, or why the turn itself is refused; the member served (0 for none), the events carried out, and the last served to hand to
// the next turn.
#[derive(Clone, Copy, PartialEq, Eq)]
pub struct Turn {
    pub turned: Result<Turned, Refusal>,
    pub member: u64,
    pub events: u64,
    pub last: u64,
}

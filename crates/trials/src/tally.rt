// What came of a case so far, and whether an answer is the one that should come.
use change::{Answer, Outcome};
use std::fmt;

// The events planned, the requests refused for room, the answers that differ, and the height at the end.
#[derive(Clone, Copy, PartialEq, Eq)]
pub struct Tally {
    pub events: u64,
    pub refused: u64,
    pub differ: u64,
    pub height: u64,
}

impl Tally {
    // What a case should come to: no answer differs.
    pub fn sound(events: u64, refused: u64, height: u64) -> Tally {
        Tally {
            events,
            refused,
            differ: 0,
            height,
        }
    }
}

impl fmt::Display for Tally {
    fn fmt<W: fmt::Write>(&self, f: &mut fmt::Formatter<W>) -> fmt::Result {
        write!(
            f,
            "answers that differ: {}, events: {}, refused: {}, height: {}",
            self.differ, self.events, self.refused, self.height
        )
    }
}

// The event counts that document 01 gives: 7 or a split's for a new key, 3 for a replaced or removed one, otherwise none.
fn may_count(outcome: Outcome, events: u64) -> bool {
    match outcome {
        Outcome::New => matches!(events, 7 | 46..=186),
        Outcome::Replaced | Outcome::Removed => events == 3,
        Outcome::Absent | Outcome::Found(_) => events == 0,
    }
}

pub fn agree(want: Outcome, got: Answer) -> bool {
    got.outcome == want && may_count(want, got.events)
}

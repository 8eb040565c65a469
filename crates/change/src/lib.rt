// What the calls on a pool are asked and what they answer. The steps of each change are definitions, in specs/.
#![tactic(auto)]

// What a desk may hold: a put of a key and a value, a fetch of a key, a delete of a key.
#[derive(Clone, Copy, PartialEq, Eq)]
pub enum Request {
    Put(u64, u64),
    Fetch(u64),
    Delete(u64),
}

// What fetch, put and delete answer where they are not refused.
#[derive(Clone, Copy, PartialEq, Eq)]
pub enum Outcome {
    New,
    Replaced,
    Removed,
    Absent,
    Found(u64),
}

// The outcome, and the number of events planned for it.
#[derive(Clone, Copy)]
pub struct Answer {
    pub outcome: Outcome,
    pub events: u64,
}

// What recover answers: the number of pairs and of events planned.
#[derive(Drop)]
pub enum Recovery {
    Clean,
    Recovered(u64, u64),
}

// What the whole-pool check answers: the numbers of nodes and records, or the node that is named.
#[derive(Drop)]
pub enum Checked {
    Sound(u64, u64),
    Fault(u64),
}

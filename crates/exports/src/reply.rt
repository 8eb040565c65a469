// What the exported calls answer, as words that C and Rust read alike.
ghost use Rattle.std.specs.Prelude.{◌≡◌};
ghost use Rattle.exports.specs.Replies as d;

// A kind of answer, the events planned (of carrying out, done), and the value found, the pairs replayed or the number of the refusal.
#[repr(C)]
#[derive(Drop)]
pub struct Reply {
    pub kind: u64,
    pub events: u64,
    pub value: u64,
}

impl Reply {
    pub fn new(kind: Kind, events: u64, value: u64) -> Reply
        ensures { result ≡ d.plain (d.kind_number kind) events value }
    {
        Reply {
            kind: kind.number(),
            events,
            value,
        }
    }
}

// Of a check: the nodes, the node at fault or the number of the refusal; then the records.
#[repr(C)]
#[derive(Drop)]
pub struct Verdict {
    pub kind: u64,
    pub number: u64,
    pub records: u64,
}

impl Verdict {
    pub fn new(kind: Kind, number: u64, records: u64) -> Verdict
        ensures { result ≡ d.plain_verdict (d.kind_number kind) number records }
    {
        Verdict {
            kind: kind.number(),
            number,
            records,
        }
    }
}

// The kinds of answer, each with its number.
#[derive(Clone, Copy)]
pub enum Kind {
    Refused = 0,
    New = 1,
    Replaced = 2,
    Removed = 3,
    Absent = 4,
    Found = 5,
    Formatted = 6,
    Clean = 7,
    Recovered = 8,
    Sound = 9,
    Fault = 10,
    Done = 11,
    Accepted = 12,
    Idle = 13,
}

impl Kind {
    fn number(self) -> u64
        ensures { result ≡ d.kind_number self }
    {
        self as u64
    }
}

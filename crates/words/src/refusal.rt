// Document 01's refusals, each with its number.
ghost use Rattle.std.specs.Prelude.{◌≡◌};
ghost use Rattle.words.specs.Refusals.{number};

#[derive(Clone, Copy, PartialEq, Eq)]
pub enum Refusal {
    // Event list under 372 words.
    ShortList = 1,
    // No pool: the slice, its header or its total is wrong.
    NoPool = 2,
    // Commit word not 0: a change is unfinished.
    Unfinished = 3,
    // A damaged count, path, node or cover, or eight full levels.
    Damaged = 4,
    // A split needs more nodes than are left.
    NoRoom = 5,
    // A log that recovery does not take.
    BadLog = 6,
    // Capacity outside 1..40,000.
    BadCapacity = 7,
    // Slice under the total of that capacity.
    ShortSlice = 8,
    // No such desk, member or last served.
    NoDesk = 9,
    // The desk is full.
    FullDesk = 10,
    // Marks shorter than capacity.
    ShortMarks = 11,
    // No event that can be carried out.
    NoEvent = 12,
}

impl Refusal {
    pub fn number(self) -> u64
        ensures { result ≡ number self }
    {
        self as u64
    }
}

// What a node is looked at under, and what looking at it answers.
// The keys that a node may hold: from lo on, below hi, or without an upper end where there is none.
#[derive(Clone, Copy)]
pub struct Cover {
    pub lo: u64,
    pub hi: Option<u64>,
}

// Of a node that is sound, its keys from a lower end on: how many of them are not above a key, those before the child that covers it; and
// the last of them, the lower end for none: it alone is to be held against an upper end.
#[derive(Drop)]
pub struct Look {
    pub after: u64,
    pub last: u64,
}

// The pool's offsets, bounds and sizes, each named once.
ghost use Rattle.std.specs.Prelude.{◌≡◌, ◌≤◌};
ghost use Rattle.words.specs.Pool as p;

#[derive(Drop)]
pub struct Pool {}

impl Pool {
    pub const LINE_WORDS: u64 = 8;

    // The header's words.
    pub const FORM_AT: u64 = 0;

    pub const TOTAL_AT: u64 = 1;

    pub const LOG_OFFSET_AT: u64 = 2;

    pub const NODES_OFFSET_AT: u64 = 3;

    pub const CAPACITY_AT: u64 = 4;

    pub const USED_AT: u64 = 5;

    pub const ROOT_AT: u64 = 6;

    pub const HEIGHT_AT: u64 = 7;

    pub const FORM: u64 = 1;

    // The log: a commit word, then pairs.
    pub const LOG_AT: u64 = 8;

    pub const COMMIT_AT: u64 = 8;

    pub const PAIRS_AT: u64 = 9;

    pub const PAIRS_MOST: u64 = 31;

    // The nodes.
    pub const NODES_AT: u64 = 72;

    pub const NODE_WORDS: u64 = 16;

    pub const CAPACITY_MOST: u64 = 40000;

    pub const WORDS_LEAST: u64 = 88;

    pub const HEIGHT_MOST: u64 = 8;

    // The event list.
    pub const LIST_WORDS: u64 = 372;

    pub const EVENTS_MOST: u64 = 186;

    // The words that a pool of a capacity takes.
    pub fn total_of(capacity: u64) -> u64
        requires { capacity ≤ p.capacity_most }
        ensures { result ≡ p.total_of capacity }
    {
        Pool::NODES_AT + Pool::NODE_WORDS * capacity
    }

    // Where node k starts.
    pub fn node_at(k: u64) -> u64
        requires { k ≤ p.capacity_most }
        ensures { result ≡ p.node_at k }
    {
        Pool::NODES_AT - Pool::NODE_WORDS + Pool::NODE_WORDS * k
    }

    // The line that a word lies in.
    pub fn line(word: u64) -> u64
        ensures { result ≡ p.line word }
    {
        word / Pool::LINE_WORDS
    }
}

// The constants are the numbers of the definitions.
fn named_once()
    ensures line_words { Pool.LINE_WORDS ≡ p.line_words }
    ensures form_at { Pool.FORM_AT ≡ p.form_at }
    ensures total_at { Pool.TOTAL_AT ≡ p.total_at }
    ensures log_offset_at { Pool.LOG_OFFSET_AT ≡ p.log_offset_at }
    ensures nodes_offset_at { Pool.NODES_OFFSET_AT ≡ p.nodes_offset_at }
    ensures capacity_at { Pool.CAPACITY_AT ≡ p.capacity_at }
    ensures used_at { Pool.USED_AT ≡ p.used_at }
    ensures root_at { Pool.ROOT_AT ≡ p.root_at }
    ensures height_at { Pool.HEIGHT_AT ≡ p.height_at }
    ensures form { Pool.FORM ≡ p.form }
    ensures log_at { Pool.LOG_AT ≡ p.log_at }
    ensures commit_at { Pool.COMMIT_AT ≡ p.commit_at }
    ensures pairs_at { Pool.PAIRS_AT ≡ p.pairs_at }
    ensures pairs_most { Pool.PAIRS_MOST ≡ p.pairs_most }
    ensures nodes_at { Pool.NODES_AT ≡ p.nodes_at }
    ensures node_words { Pool.NODE_WORDS ≡ p.node_words }
    ensures capacity_most { Pool.CAPACITY_MOST ≡ p.capacity_most }
    ensures words_least { Pool.WORDS_LEAST ≡ p.words_least }
    ensures height_most { Pool.HEIGHT_MOST ≡ p.height_most }
    ensures list_words { Pool.LIST_WORDS ≡ p.list_words }
    ensures events_most { Pool.EVENTS_MOST ≡ p.events_most }
{}

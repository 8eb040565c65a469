// The log of a split: pairs are noted while the new nodes are written, then (b) to (e) write them, commit, store each and close the log.
ghost use Rattle.std.specs.Prelude.{[], ◌∷◌, ◌≡◌, ◌+◌, ◌*◌, ◌/◌, ◌≤◌, ◌<◌, length};
ghost use Rattle.words.specs.Lists.{count_from};
ghost use Rattle.words.specs.Pool as p;
ghost use Rattle.words.specs.Event.{top_byte};
ghost use Rattle.words.specs.Blocks.{stores, flushes, replay};
ghost use Rattle.words.specs.Written.{Wrote};
ghost use Rattle.node.specs.Slot.{entries};
ghost use Rattle.change.specs.Steps.{entry_pairs};
ghost use Rattle.change.specs.Plan.{log_words, log_finished, log_events};
ghost use Rattle.split.specs.inner.Pairs.{Near, Noted, pairs_of};
ghost use Rattle.split.specs.inner.Splitting.{staying};

use crate::opening::Eight;
use node::Node;
use node::slot::slot_of;
use std::marker::Model;
use words::{EventList, Pool};

// Each pair is an address, which fits an event, and a value.
#[derive(Drop)]
pub struct Log {
    pairs: [[u64; 2]; 31],
    count: usize,
}

// Clauses see the pairs that were noted.
impl Model for Log {
    ghost use Rattle.std.specs.Prelude.{List, ◌≤◌, take};
    ghost use Rattle.words.specs.Pool.{pairs_most};
    ghost use Rattle.words.specs.Blocks.{Pair};
    ghost use Rattle.split.specs.inner.Pairs.{Near, pairs_of};

    ghost Value = { List Pair };

    ghost view = { λ s. pairs_of (take s.count s.pairs) };

    ghost invariant = { λ s. (s.count ≤ pairs_most) × Near (pairs_of (take s.count s.pairs)) };
}

impl Log {
    pub fn new() -> Log
        ensures { result ≡ [] }
    {
        Log {
            pairs: [[0; 2]; 31],
            count: 0,
        }
    }

    pub fn note(&mut self, address: u64, value: u64)
        requires { (length self.old < p.pairs_most) × (address < top_byte) }
        ensures { Noted ((address, value) ∷ []) self.old self.new }
    {
        self.pairs[self.count] = [address, value];
        self.count += 1;
    }

    // Key and value (or child) into entry i of node k.
    pub fn note_entry(&mut self, k: u64, i: u64, entry: (u64, u64))
        requires { (length self.old + 2 ≤ p.pairs_most) × (k ≤ p.capacity_most) × (i ≤ entries) }
        ensures { Noted (entry_pairs k i entry) self.old self.new }
    {
        self.note(Node::key_at(k, i), entry.0);
        self.note(Node::value_at(k, i), entry.1);
    }

    // What stays in the full node of the eight: the new record if it is among the lower four, in the lowest entry not kept; for a leaf the
    // new one that it is linked to; the slot word.
    pub fn note_staying(&mut self, eight: &Eight, next: Option<u64>)
        requires { length self.old + 4 ≤ p.pairs_most }
        ensures { Noted (staying eight.now.node.pool.now eight.now.node.number eight.now.new next) self.old self.new }
    {
        let k = eight.node.number;
        if eight.rank < Eight::LOWER {
            self.note_entry(k, eight.spot, eight.new);
        }
        if let Some(new) = next {
            self.note(Node::link_at(k), new);
        }
        self.note(Pool::node_at(k), slot_of(eight.names, Eight::LOWER));
    }

    // (b) to (e) of the pairs noted.
    pub fn write(&self, list: &mut EventList)
        requires { (1 ≤ length self.now) × (list.old.events + 4 * length self.now + length self.now / 4 + 9 ≤ p.events_most) }
        ensures { Wrote (log_events self.now) list.old list.new }
    {
        let pairs = &self.pairs[..self.count];
        let count = self.count as u64;
        store_pairs(list, pairs);
        flush_log(list, count / 4 + 1);
        list.fence();
        list.once(Pool::COMMIT_AT, count);
        finish_log(list, pairs);
    }
}

// The pairs into the log, from its word 1 on.
fn store_pairs(list: &mut EventList, pairs: &[[u64; 2]])
    requires { (length pairs.now ≤ p.pairs_most) × (list.old.events + 2 * length pairs.now ≤ p.events_most) }
    ensures { Wrote (stores (log_words p.pairs_at (pairs_of pairs.now))) list.old list.new }
{
    let mut word = Pool::PAIRS_AT;
    for [address, value] in pairs {
        list.store(word, *address);
        list.store(word + 1, *value);
        word += 2;
    }
}

// The first lines of the log.
fn flush_log(list: &mut EventList, count: u64)
    requires { list.old.events + count ≤ p.events_most }
    ensures { Wrote (flushes (count_from (p.line p.log_at) count)) list.old list.new }
{
    let first = Pool::line(Pool::LOG_AT);
    for line in first..first + count {
        list.flush(line);
    }
}

// Each pair stored, and its line flushed.
fn replay_pairs(list: &mut EventList, pairs: &[[u64; 2]])
    requires { (list.old.events + 2 * length pairs.now ≤ p.events_most) × Near (pairs_of pairs.now) }
    ensures { Wrote (replay (pairs_of pairs.now)) list.old list.new }
{
    for [address, value] in pairs {
        list.store(*address, *value);
        list.flush(Pool::line(*address));
    }
}

// (d) and (e) of the pairs of a log.
pub fn finish_log(list: &mut EventList, pairs: &[[u64; 2]])
    requires { (list.old.events + 2 * length pairs.now + 4 ≤ p.events_most) × Near (pairs_of pairs.now) }
    ensures { Wrote (log_finished (pairs_of pairs.now)) list.old list.new }
{
    replay_pairs(list, pairs);
    list.fence();
    list.once(Pool::COMMIT_AT, 0);
}

// The eight records of a full node and a new one, in rising order of key.
ghost use Rattle.std.specs.Prelude.{◌≡◌};
ghost use Rattle.node.specs.View as views;
ghost use Rattle.node.specs.inner.Said.{said};
ghost use Rattle.split.specs.inner.Opened.{Met, Opened};

use node::Node;
use node::bytes::byte_at;
use node::slot::{eight_names, spot_of};

// A full node, and a new record with its rank. The names are those of the eight: the new record has that of the spot which it takes if it
// stays.
#[derive(Clone, Copy)]
pub struct Eight<'a> {
    pub node: Node<'a>,
    pub rank: u64,
    pub names: u64,
    pub spot: u64,
    pub new: (u64, u64),
    ghost opened: { Opened node.pool.now node.number rank names spot new.0 },
}

impl<'a> Eight<'a> {
    ghost use Rattle.std.specs.Prelude.{◌<◌, get_or};
    ghost use Rattle.node.specs.Slot as s;
    ghost use Rattle.split.specs.inner.Splitting.{eight_of};

    pub const ALL: u64 = 8;

    pub const LOWER: u64 = 4;

    // A full node with a new record at its rank.
    pub fn of(node: Node<'a>, rank: u64, new: (u64, u64)) -> Eight<'a>
        requires { Met node.pool.now node.number × (s.count node.slot ≡ s.entries) × (rank ≡ views.rank (said node) new.0) }
        ensures { (result.node.pool.now ≡ node.entry.pool.now) × (result.node.number ≡ node.entry.number) × (result.new ≡ new) }
    {
        let spot = spot_of(node.slot >> 8, Eight::LOWER - 1);
        Eight {
            node,
            rank,
            names: eight_names(node.slot, rank, spot),
            spot,
            new,
        }
    }

    // The record in place i of the eight.
    pub fn record(&self, i: u64) -> (u64, u64)
        requires { i < 8 }
        ensures { result ≡ get_or (eight_of self.now) i (0, 0) }
    {
        if i == self.rank {
            return self.new;
        }
        let e = byte_at(self.names, i);
        (self.node.key(e), self.node.value(e))
    }
}

// The rank of a key in a node.
pub fn rank_of(node: Node<'_>, key: u64) -> u64
    requires { Met node.pool.now node.number }
    ensures { result ≡ views.rank (said node.entry) key }
{
    let seen = node.look(0, 0, key).unwrap();
    match node.place(seen.after, key) {
        Ok(rank) | Err(rank) => rank,
    }
}

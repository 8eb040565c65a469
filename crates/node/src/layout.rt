// Where the words of a node lie, and plain reads of them.
ghost use Rattle.std.specs.Prelude.{◌≡◌, ◌≤◌, ◌<◌};
ghost use Rattle.words.specs.Pool as p;
ghost use Rattle.words.specs.Event.{at};
ghost use Rattle.node.specs.Slot as s;
ghost use Rattle.node.specs.View as v;
ghost use Rattle.node.specs.inner.Looked.{Inside};

use words::Pool;

// A node of a pool, with its slot word.
#[derive(Clone, Copy)]
pub struct Node<'a> {
    pub pool: &'a [u64],
    pub number: u64,
    pub slot: u64,
    pub ghost inside: { Inside pool.now number },
    pub ghost slot_is: { slot ≡ at pool.now (v.slot_at number) },
}

impl<'a> Node<'a> {
    pub const ENTRIES: u64 = 7;

    // Word 1 of node k.
    pub fn link_at(k: u64) -> u64
        requires { k ≤ p.capacity_most }
        ensures { result ≡ v.link_at k }
    {
        Pool::node_at(k) + 1
    }

    // The key of entry i.
    pub fn key_at(k: u64, i: u64) -> u64
        requires { (k ≤ p.capacity_most) × (i ≤ s.entries) }
        ensures { result ≡ v.key_at k i }
    {
        Pool::node_at(k) + (2 + 2 * i)
    }

    // The value or the child of entry i.
    pub fn value_at(k: u64, i: u64) -> u64
        requires { (k ≤ p.capacity_most) × (i ≤ s.entries) }
        ensures { result ≡ v.value_at k i }
    {
        Pool::node_at(k) + (3 + 2 * i)
    }

    // Node k of a pool.
    pub fn at(pool: &'a [u64], k: u64) -> Node<'a>
        requires { Inside pool.now k }
        ensures pool { result.pool.now ≡ pool.now }
        ensures number { result.number ≡ k }
    {
        let slot = pool[Pool::node_at(k) as usize];
        Node {
            pool,
            number: k,
            slot,
        }
    }

    // Its word 1.
    pub fn link(self) -> u64
        ensures { result ≡ at self.entry.pool.now (v.link_at self.entry.number) }
    {
        link(self.pool, self.number)
    }

    // The key of entry e.
    pub fn key(self, e: u64) -> u64
        requires { e < s.entries }
        ensures { result ≡ at self.entry.pool.now (v.key_at self.entry.number e) }
    {
        self.pool[Node::key_at(self.number, e) as usize]
    }

    // The value or the child of entry e.
    pub fn value(self, e: u64) -> u64
        requires { e < s.entries }
        ensures { result ≡ at self.entry.pool.now (v.value_at self.entry.number e) }
    {
        record_value(self.pool, self.number, e)
    }
}

fn named_once()
    ensures entries { Node.ENTRIES ≡ s.entries }
{}

// The same reads by a node's number, for callers that do not need its slot word.
pub fn link(pool: &[u64], k: u64) -> u64
    requires { Inside pool.now k }
    ensures { result ≡ at pool.now (v.link_at k) }
{
    pool[Node::link_at(k) as usize]
}

pub fn record_value(pool: &[u64], k: u64, e: u64) -> u64
    requires { Inside pool.now k × (e < s.entries) }
    ensures { result ≡ at pool.now (v.value_at k e) }
{
    pool[Node::value_at(k, e) as usize]
}

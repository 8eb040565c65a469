// The whole pool walked from left to right, each number marked when it is reached, and the first fault that is met.
ghost use Rattle.std.specs.Prelude.{ℕ, ◌≤◌, ◌≡◌, true, List, length, Some};
ghost use Rattle.node.specs.Slot as s;
ghost use Rattle.node.specs.View.{sound};
ghost use Rattle.node.specs.inner.Looked.{end_of};
ghost use Rattle.node.specs.inner.Said.{said};
ghost use Rattle.tree.specs.Header as h;
ghost use Rattle.tree.specs.Kids as k;
ghost use Rattle.tree.specs.Check as t;
ghost use Rattle.change.specs.Check.{walked};
ghost use Rattle.walk.specs.inner.Checking.{kid_of, kids_left, seen_with, leaf_walk, Room, Marked};
ghost use Rattle.walk.specs.inner.Checking.{Leaf, Ready, Walks, Passed};

use change::Checked;
use node::layout::link;
use node::slot::{count, name};
use node::{Cover, Node};
use tree::descend::Fault;
use words::Pool;

// A child: its number, the keys that it covers, the least entries that it may have, and its parent.
#[derive(Clone, Copy)]
pub struct Kid {
    pub number: u64,
    pub cover: Cover,
    pub least: u64,
    pub parent: u64,
}

impl Kid {
    // The least entries of a leaf, of an inner node, and of an inner node below the root.
    pub const LEAF_LEAST: u64 = 0;

    pub const INNER_LEAST: u64 = 1;

    pub const BELOW_ROOT_LEAST: u64 = 3;

    // The child as far as a key.
    fn until(self, key: u64) -> Kid
        ensures { result ≡ record self { cover = record self.cover { hi = Some key } } }
    {
        Kid {
            cover: Cover {
                hi: Some(key),
                ..self.cover
            },
            ..self
        }
    }

    // The next child: from the key on, as far as this one went.
    fn next(self, key: u64, number: u64) -> Kid
        ensures { result ≡ record self { number = number; cover = record self.cover { lo = key } } }
    {
        Kid {
            number,
            cover: Cover {
                lo: key,
                ..self.cover
            },
            ..self
        }
    }
}

// What the walk has seen: the last leaf (0 for none), and how many nodes and records.
#[derive(Drop)]
pub struct Seen {
    pub last: u64,
    pub nodes: u64,
    pub records: u64,
}

// Marks number k once it is in 1..used and unmarked, and answers whether it was.
fn mark(pool: &[u64], marks: &mut [u8], k: u64) -> bool
    requires { Room pool.now × (h.capacity_of pool.now ≤ length marks.old) }
    ensures { Marked pool.now k marks.old result marks.new }
{
    let free = (1..=pool[Pool::USED_AT as usize]).contains(&k) && marks[(k - 1) as usize] == 0;
    if free {
        marks[(k - 1) as usize] = 1;
    }
    free
}

// Whether the earlier leaf, if there is one, links to leaf k.
fn links_to(pool: &[u64], earlier: u64, k: u64) -> bool
    requires { Room pool.now × (earlier ≤ h.used_of pool.now) }
    ensures { result ≡ t.links_to pool.now earlier k }
{
    earlier == 0 || link(pool, earlier) == k
}

// A leaf that has just been marked, and the keys that it covers.
fn check_leaf(leaf: Node<'_>, cover: Cover, seen: Seen) -> Result<Seen, Fault>
    requires { Leaf leaf.pool.now seen }
    ensures { result ≡ leaf_walk leaf.entry.pool.now (k.kid leaf.entry.number cover.lo (end_of cover)) seen }
{
    if !leaf.fits(Kid::LEAF_LEAST, cover) {
        return Err(Fault { node: leaf.number });
    }
    if !links_to(leaf.pool, seen.last, leaf.number) {
        return Err(Fault { node: seen.last });
    }
    Ok(Seen {
        last: leaf.number,
        nodes: seen.nodes + 1,
        records: seen.records + count(leaf.slot),
    })
}

// A node with some levels below it, and all that is below it.
#[cycle(check_children_check_node)]
fn check_node(
    pool: &[u64],
    marks: &mut [u8],
    levels: u64,
    kid: Kid,
    seen: Seen,
) -> Result<Seen, Fault>
    requires { Ready pool.now (seen_with seen marks.old) }
    ensures { Walks pool.now (t.node_walk levels pool.now kid.least kid.parent (kid_of kid) (seen_with seen marks.old)) result marks.new }
{
    if !mark(pool, marks, kid.number) {
        return Err(Fault { node: kid.parent });
    }
    let node = Node::at(pool, kid.number);
    if levels == 0 {
        return check_leaf(node, kid.cover, seen);
    }
    if !node.fits(kid.least, kid.cover) {
        return Err(Fault { node: kid.number });
    }
    let leftmost = Kid {
        number: node.link(),
        cover: kid.cover,
        least: Kid::BELOW_ROOT_LEAST,
        parent: kid.number,
    };
    let counted = Seen {
        nodes: seen.nodes + 1,
        ..seen
    };
    check_children(&node, marks, levels - 1, 0, leftmost, counted)
}

// The children of a node from a slot on, slot 0 being the leftmost. The kid is the one in the slot, and covers all that are left.
#[cycle(check_children_check_node)]
fn check_children(
    node: &Node<'_>,
    marks: &mut [u8],
    levels: u64,
    slot: u64,
    kid: Kid,
    seen: Seen,
) -> Result<Seen, Fault>
    requires { Ready node.now.pool.now (seen_with seen marks.old) × (sound 0 (said node.now) ≡ true) × (slot ≤ s.count node.now.slot) }
    ensures { Walks node.now.pool.now (t.each_child (t.node_walk levels node.now.pool.now kid.least kid.parent)
        (kids_left node.now slot kid) (seen_with seen marks.old)) result marks.new }
{
    if slot == count(node.slot) {
        return check_node(node.pool, marks, levels, kid, seen);
    }
    let entry = name(node.slot, slot);
    let key = node.key(entry);
    let next = kid.next(key, node.value(entry));
    let met = check_node(node.pool, marks, levels, kid.until(key), seen)?;
    check_children(node, marks, levels, slot + 1, next, met)
}

// The two tests at the end, once all has been walked.
fn check_end(pool: &[u64], seen: Seen) -> Checked
    requires { Room pool.now × (seen.last ≤ h.used_of pool.now) }
    ensures { (marks : List ℕ) → result ≡ walked (t.ended pool.now (seen_with seen marks)) }
{
    let last = seen.last;
    let after = pool[Node::link_at(last) as usize];
    if after != 0 {
        return Checked::Fault(last);
    }
    if seen.nodes != pool[Pool::USED_AT as usize] {
        return Checked::Fault(0);
    }
    Checked::Sound(seen.nodes, seen.records)
}

// The walk from the root, past every refusal.
pub fn check_tree(pool: &[u64], marks: &mut [u8]) -> Checked
    requires { Passed pool.now marks.old }
    ensures answer { result ≡ walked (t.walk pool.now marks.old) }
    ensures marks { marks.new ≡ t.marks_after (t.walk pool.now marks.old) }
{
    marks[..pool[Pool::CAPACITY_AT as usize] as usize].fill(0);
    let root = Kid {
        number: pool[Pool::ROOT_AT as usize],
        cover: Cover { lo: 0, hi: None },
        least: Kid::INNER_LEAST,
        parent: 0,
    };
    let none = Seen {
        last: 0,
        nodes: 0,
        records: 0,
    };
    let levels = pool[Pool::HEIGHT_AT as usize] - 1;
    match check_node(pool, marks, levels, root, none) {
        Err(fault) => Checked::Fault(fault.node),
        Ok(seen) => check_end(pool, seen),
    }
}

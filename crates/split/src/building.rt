// (a) of a split: the new nodes, their entries in rising order from 0.
ghost use Rattle.std.specs.Prelude.{[], ◌∷◌, ◌+◌, ◌≤◌, drop};
ghost use Rattle.words.specs.Lists.{count_from};
ghost use Rattle.words.specs.Pool as p;
ghost use Rattle.words.specs.Blocks.{stores, stored};
ghost use Rattle.words.specs.Written.{Wrote};
ghost use Rattle.node.specs.Slot.{slot, entries};
ghost use Rattle.node.specs.View.{slot_at, link_at};
ghost use Rattle.tree.specs.Halves.{lower};
ghost use Rattle.change.specs.Steps.{entry_pairs, laid, new_node};
ghost use Rattle.split.specs.inner.Splitting.{eight_of};

use crate::opening::Eight;
use node::Node;
use node::slot::rising_names;
use words::{EventList, Pool};

// The slot word of `count` entries and word 1.
fn write_head(list: &mut EventList, k: u64, count: u64, link: u64)
    requires { (list.old.events + 2 ≤ p.events_most) × (k ≤ p.capacity_most) × (count ≤ entries) }
    ensures { Wrote (stores ((slot_at k, slot (count_from 0 count)) ∷ (link_at k, link) ∷ [])) list.old list.new }
{
    list.store(Pool::node_at(k), rising_names(count));
    list.store(Node::link_at(k), link);
}

// Key and value (or child) of entry i.
fn write_entry(list: &mut EventList, k: u64, i: u64, entry: (u64, u64))
    requires { (list.old.events + 2 ≤ p.events_most) × (k ≤ p.capacity_most) × (i ≤ entries) }
    ensures { Wrote (stores (entry_pairs k i entry)) list.old list.new }
{
    list.store(Node::key_at(k, i), entry.0);
    list.store(Node::value_at(k, i), entry.1);
}

// The records from place `from` of the eight on.
fn write_upper(list: &mut EventList, eight: &Eight, new: u64, from: u64)
    requires { (list.old.events + 8 ≤ p.events_most) × (new ≤ p.capacity_most) × (lower ≤ from) × (from ≤ 8) }
    ensures { Wrote (stores (laid new 0 (drop from (eight_of eight.now)))) list.old list.new }
{
    for i in from..Eight::ALL {
        write_entry(list, new, i - from, eight.record(i));
    }
}

// A new node with the records from place `from` of the eight on: its second line has the fourth of them.
pub fn new_node(list: &mut EventList, eight: &Eight, new: u64, link: u64, from: u64)
    requires { (list.old.events + 12 ≤ p.events_most) × (new ≤ p.capacity_most) × (lower ≤ from) × (from ≤ lower + 1) }
    ensures { Wrote (stored (new_node new link (drop from (eight_of eight.now)))) list.old list.new }
{
    write_head(list, new, Eight::ALL - from, link);
    write_upper(list, eight, new, from);
    let line = Pool::line(Pool::node_at(new));
    list.flush(line);
    if from == Eight::LOWER {
        list.flush(line + 1);
    }
}

// A new root with one entry.
pub fn new_root(list: &mut EventList, new: u64, link: u64, entry: (u64, u64))
    requires { (list.old.events + 5 ≤ p.events_most) × (new ≤ p.capacity_most) }
    ensures { Wrote (stored (new_node new link (entry ∷ []))) list.old list.new }
{
    write_head(list, new, 1, link);
    write_entry(list, new, 0, entry);
    list.flush(Pool::line(Pool::node_at(new)));
}

// A split rises: what goes up splits each full node above, to the first that has room, or to a new root.
ghost use Rattle.std.specs.Prelude.{◌≡◌, ◌+◌, ◌≤◌, ◌<◌, length};
ghost use Rattle.words.specs.Pool as p;
ghost use Rattle.node.specs.Slot as s;
ghost use Rattle.tree.specs.Header.{height_of};
ghost use Rattle.tree.specs.Lists.{Each};
ghost use Rattle.change.specs.Put.{rise, needed};
ghost use Rattle.split.specs.inner.Opened.{Met};
ghost use Rattle.split.specs.inner.Pairs.{Noted};
ghost use Rattle.split.specs.inner.Splitting.{Room, parent_pairs, new_root, Done, Ready};

use crate::building::new_root;
use crate::halving::split_inner;
use crate::logging::Log;
use crate::opening::{Eight, rank_of};
use node::Node;
use node::slot::{count, spot, with_name};
use words::{EventList, Pool};

// The node with room takes what goes up.
fn taken(log: &mut Log, node: Node<'_>, used: u64, up: (u64, u64))
    requires { Met node.pool.now node.number × (s.count node.slot < s.entries) × (length log.old + 4 ≤ p.pairs_most) }
    ensures { Noted (parent_pairs node.entry.pool.now node.entry.number used up) log.old log.new }
{
    let rank = rank_of(node, up.0);
    let free = spot(node.slot);
    log.note_entry(node.number, free, up);
    log.note(Pool::node_at(node.number), with_name(node.slot, rank, free));
    log.note(Pool::USED_AT, used);
}

// A full root gets a new root above it.
fn crowned(pool: &[u64], list: &mut EventList, log: &mut Log, new: u64, up: (u64, u64))
    requires { (p.words_least ≤ length pool.now) × (height_of pool.now ≤ p.height_most) × Room new list.old log.old }
    ensures { Done (new_root pool.now new up) list.old log.old list.new log.new }
{
    new_root(list, new, pool[Pool::ROOT_AT as usize], up);
    log.note(Pool::USED_AT, new);
    log.note(Pool::ROOT_AT, new);
    log.note(Pool::HEIGHT_AT, pool[Pool::HEIGHT_AT as usize] + 1);
}

// What goes up goes into the levels above, once so many are split.
pub fn risen(
    pool: &[u64],
    list: &mut EventList,
    log: &mut Log,
    levels: &[u64],
    split: u64,
    up: (u64, u64),
)
    requires { Ready pool.now levels.now split list.old log.old }
    ensures { Done (rise pool.now levels.now up split) list.old log.old list.new log.new }
{
    let new = pool[Pool::USED_AT as usize] + 1 + split;
    match levels {
        [] => crowned(pool, list, log, new, up),
        [k, above @ ..] => {
            let node = Node::at(pool, *k);
            if count(node.slot) == Node::ENTRIES {
                let eight = Eight::of(node, rank_of(node, up.0), up);
                let next = split_inner(list, log, &eight, new);
                risen(pool, list, log, above, split + 1, next);
            } else {
                taken(log, node, new - 1, up);
            }
        }
    }
}

// The new nodes that a split of the first of the levels needs.
pub fn nodes_needed(pool: &[u64], levels: &[u64]) -> u64
    requires { (length levels.now ≤ p.height_most) × Each (Met pool.now) levels.now }
    ensures { (result ≡ needed pool.now levels.now) × (result ≤ length levels.now + 1) }
{
    match levels {
        [] => 1,
        [k, above @ ..] => {
            if count(Node::at(pool, *k).slot) == Node::ENTRIES {
                nodes_needed(pool, above) + 1
            } else {
                0
            }
        }
    }
}

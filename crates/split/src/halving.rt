// A full node splits: the upper of its eight records go to a new node, whose number goes up with a key.
ghost use Rattle.split.specs.inner.Splitting.{Room, LeafLevel, InnerLevel};

use crate::building::new_node;
use crate::logging::Log;
use crate::opening::Eight;
use words::EventList;

// The leaf of the eight: the upper four go to the new leaf, and it is linked to that.
pub fn split_leaf(list: &mut EventList, log: &mut Log, eight: &Eight, new: u64) -> (u64, u64)
    requires { Room new list.old log.old }
    ensures { LeafLevel eight.now.node.pool.now eight.now.node.number eight.now.new new list.old log.old list.new log.new result }
{
    let (key, _) = eight.record(Eight::LOWER);
    new_node(list, eight, new, eight.node.link(), Eight::LOWER);
    log.note_staying(eight, Some(new));
    (key, new)
}

// The inner node of the eight: the fifth goes up, and its child becomes the new node's leftmost.
pub fn split_inner(list: &mut EventList, log: &mut Log, eight: &Eight, new: u64) -> (u64, u64)
    requires { Room new list.old log.old }
    ensures { InnerLevel eight.now.node.pool.now eight.now.node.number eight.now.new new list.old log.old list.new log.new result }
{
    let (key, child) = eight.record(Eight::LOWER);
    new_node(list, eight, new, child, Eight::LOWER + 1);
    log.note_staying(eight, None);
    (key, new)
}

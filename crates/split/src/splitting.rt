// A put into a full leaf: the leaf splits, the split rises, and a log carries what changes in the nodes that stand.
ghost use Rattle.std.specs.Prelude.{◌≡◌, drop, get_or};
ghost use Rattle.words.specs.Written.{Wrote};
ghost use Rattle.change.specs.Plan.{plan_events};
ghost use Rattle.change.specs.Put.{split};
ghost use Rattle.split.specs.inner.Splitting.{ToSplit};

use crate::halving::split_leaf;
use crate::logging::Log;
use crate::opening::Eight;
use crate::rising::risen;
use node::Node;
use words::{EventList, Pool};

// Plans a put into the full leaf that the path begins with, where the key has its rank. The nodes above follow.
pub fn split_put(pool: &[u64], list: &mut EventList, path: &[u64], rank: u64, new: (u64, u64))
    requires { ToSplit pool.now path.now rank new.0 × (list.old.events ≡ 0) }
    ensures { Wrote (plan_events (split pool.now (get_or path.now 0 0) (drop 1 path.now) new)) list.old list.new }
{
    let mut log = Log::new();
    let eight = Eight::of(Node::at(pool, path[0]), rank, new);
    let up = split_leaf(list, &mut log, &eight, pool[Pool::USED_AT as usize] + 1);
    risen(pool, list, &mut log, &path[1..], 1, up);
    log.write(list);
}

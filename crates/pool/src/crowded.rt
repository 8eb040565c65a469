// A put into a full leaf: refused for want of room or of levels, or split.
ghost use Rattle.std.specs.Prelude.{◌≤◌, ◌≡◌, length};
ghost use Rattle.words.specs.Pool.{list_words};
ghost use Rattle.change.specs.Gate.{answered, list_after};
ghost use Rattle.pool.specs.inner.Puts.{Full, new_with, put_there};

use split::rising::nodes_needed;
use split::splitting::split_put;
use tree::pathing::path_to;
use words::{EventList, Pool, Refusal};

// The key's leaf is full and has not the key, whose rank there is handed on. The nodes are counted before anything is written. It
// answers the number of events. A split is rare: apart, and with numbers in place of a seat and an answer in memory, it costs the other
// puts nothing.
#[cold]
pub fn put_full(
    pool: &[u64],
    list: &mut [u64],
    rank: u64,
    key: u64,
    value: u64,
) -> Result<u64, Refusal>
    requires { Full pool.now key rank × (list_words ≤ length list.old) }
    ensures answer { new_with result ≡ answered (put_there pool.now key value) }
    ensures list { list.new ≡ list_after (put_there pool.now key value) list.old }
{
    let path = path_to(pool, key);
    let path = &path[..pool[Pool::HEIGHT_AT as usize] as usize];
    let needed = nodes_needed(pool, path);
    if pool[Pool::CAPACITY_AT as usize] - pool[Pool::USED_AT as usize] < needed {
        return Err(Refusal::NoRoom);
    }
    if Pool::HEIGHT_MOST < needed {
        return Err(Refusal::Damaged);
    }
    let mut list = EventList::new(list);
    split_put(pool, &mut list, path, rank, (key, value));
    Ok(list.events)
}

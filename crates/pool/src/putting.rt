// Put: a key and its value into the leaf of the key.
ghost use Rattle.std.specs.Prelude.{◌≤◌, ◌<◌, ◌≡◌, true, length};
ghost use Rattle.words.specs.Pool as p;
ghost use Rattle.node.specs.Lists.{all_below};
ghost use Rattle.node.specs.Slot as s;
ghost use Rattle.change.specs.Gate.{answered, list_after};
ghost use Rattle.pool.specs.Promises.{PutPromise};
ghost use Rattle.pool.specs.inner.Passing.{Admitted};
ghost use Rattle.pool.specs.inner.Puts.{Replaces, Fills, put_there};

use crate::crowded::put_full;
use crate::gate::{pass_gate, pass_list};
use change::{Answer, Outcome};
use node::Node;
use node::slot::{count, name, spot, with_name};
use tree::descend::Seat;
use words::{EventList, Pool, Refusal};

// A present key: its value is stored.
fn replace(list: &mut EventList, seat: Seat, rank: u64, value: u64)
    requires room { (list.old.events ≡ 0) × (seat.leaf ≤ p.capacity_most) }
    requires rank_bound { (rank < s.count seat.slot) × (s.count seat.slot ≤ s.entries)
        × (all_below s.entries (s.names seat.slot) ≡ true) }
    ensures { Replaces seat rank value list.old list.new }
{
    let entry = name(seat.slot, rank);
    list.once(Node::value_at(seat.leaf, entry), value);
}

// A leaf that is not full: key and value into the lowest unused entry, then the slot word.
fn fill(list: &mut EventList, seat: Seat, rank: u64, key: u64, value: u64)
    requires { (list.old.events ≡ 0) × (seat.leaf ≤ p.capacity_most) × (rank ≤ s.count seat.slot)
        × (s.count seat.slot < s.entries) }
    ensures { Fills seat rank (key, value) list.old list.new }
{
    let entry = spot(seat.slot);
    let word = Node::value_at(seat.leaf, entry);
    list.store(Node::key_at(seat.leaf, entry), key);
    list.store(word, value);
    list.flush(Pool::line(word));
    list.fence();
    let slot = with_name(seat.slot, rank, entry);
    list.once(Pool::node_at(seat.leaf), slot);
}

// The leaf of the key was found.
fn put_at(
    pool: &[u64],
    list: &mut [u64],
    seat: Seat,
    key: u64,
    value: u64,
) -> Result<Answer, Refusal>
    requires { Admitted pool.now key seat × (p.list_words ≤ length list.old) }
    ensures answer { result ≡ answered (put_there pool.now key value) }
    ensures list { list.new ≡ list_after (put_there pool.now key value) list.old }
{
    match seat.place {
        Ok(rank) => {
            let mut list = EventList::new(list);
            replace(&mut list, seat, rank, value);
            Ok(Answer {
                outcome: Outcome::Replaced,
                events: list.events,
            })
        }
        Err(rank) if count(seat.slot) < Node::ENTRIES => {
            let mut list = EventList::new(list);
            fill(&mut list, seat, rank, key, value);
            Ok(Answer {
                outcome: Outcome::New,
                events: list.events,
            })
        }
        Err(rank) => {
            let events = put_full(pool, list, rank, key, value)?;
            Ok(Answer {
                outcome: Outcome::New,
                events,
            })
        }
    }
}

pub fn put(pool: &[u64], list: &mut [u64], key: u64, value: u64) -> Result<Answer, Refusal>
    ensures { PutPromise pool.now list.old key value result list.new }
{
    pass_list(list)?;
    let seat = pass_gate(pool, key)?;
    put_at(pool, list, seat, key, value)
}

// Format: a slice becomes an empty pool, by twenty events.
ghost use Rattle.std.specs.Prelude.{◌≡◌, ◌+◌, ◌≤◌};
ghost use Rattle.words.specs.Pool as p;
ghost use Rattle.words.specs.Written.{Wrote};
ghost use Rattle.change.specs.Format.{format_events};
ghost use Rattle.pool.specs.Promises.{FormatPromise};
ghost use Rattle.pool.specs.inner.Formatting.{header_events, leaf_events};

use crate::gate::pass_list;
use words::{EventList, Pool, Refusal};

// The header's words 1 to 7.
fn fresh_header(list: &mut EventList, capacity: u64)
    requires { (list.old.events + 7 ≤ p.events_most) × (capacity ≤ p.capacity_most) }
    ensures { Wrote (header_events capacity) list.old list.new }
{
    list.store(Pool::TOTAL_AT, Pool::total_of(capacity));
    list.store(Pool::LOG_OFFSET_AT, Pool::LOG_AT);
    list.store(Pool::NODES_OFFSET_AT, Pool::NODES_AT);
    list.store(Pool::CAPACITY_AT, capacity);
    list.store(Pool::USED_AT, 1);
    list.store(Pool::ROOT_AT, 1);
    list.store(Pool::HEIGHT_AT, 1);
}

// The commit word and the empty leaf, then the lines of all of them, and a fence.
fn fresh_leaf(list: &mut EventList)
    requires { list.old.events + 7 ≤ p.events_most }
    ensures { Wrote leaf_events list.old list.new }
{
    list.store(Pool::COMMIT_AT, 0);
    list.store(Pool::NODES_AT, 0);
    list.store(Pool::NODES_AT + 1, 0);
    list.flush(Pool::line(Pool::FORM_AT));
    list.flush(Pool::line(Pool::COMMIT_AT));
    list.flush(Pool::line(Pool::NODES_AT));
    list.fence();
}

fn format_events(list: &mut EventList, capacity: u64)
    requires { (list.old.events ≡ 0) × (capacity ≤ p.capacity_most) }
    ensures { Wrote (format_events capacity) list.old list.new }
{
    list.once(Pool::FORM_AT, 0);
    fresh_header(list, capacity);
    fresh_leaf(list);
    list.once(Pool::FORM_AT, Pool::FORM);
}

// Plans an empty pool of a capacity into the list. It reads nothing of the slice but its length.
pub fn format(pool: &[u64], list: &mut [u64], capacity: u64) -> Result<u64, Refusal>
    ensures { FormatPromise pool.now list.old capacity result list.new }
{
    pass_list(list)?;
    if !(1..=Pool::CAPACITY_MOST).contains(&capacity) {
        return Err(Refusal::BadCapacity);
    }
    if (pool.len() as u64) < Pool::total_of(capacity) {
        return Err(Refusal::ShortSlice);
    }
    let mut list = EventList::new(list);
    format_events(&mut list, capacity);
    Ok(list.events)
}

// Delete: a leaf's slot word without the name of a key.
ghost use Rattle.pool.specs.Promises.{DeletePromise};

use crate::gate::{pass_gate, pass_list};
use change::{Answer, Outcome};
use node::slot::without_name;
use words::{EventList, Pool, Refusal};

pub fn delete(pool: &[u64], list: &mut [u64], key: u64) -> Result<Answer, Refusal>
    ensures { DeletePromise pool.now list.old key result list.new }
{
    pass_list(list)?;
    let seat = pass_gate(pool, key)?;
    let Ok(rank) = seat.place else {
        return Ok(Answer {
            outcome: Outcome::Absent,
            events: 0,
        });
    };
    let slot = without_name(seat.slot, rank);
    let mut list = EventList::new(list);
    list.once(Pool::node_at(seat.leaf), slot);
    Ok(Answer {
        outcome: Outcome::Removed,
        events: list.events,
    })
}

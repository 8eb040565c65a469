// Fetch: what stands under a key.
ghost use Rattle.pool.specs.Promises.{FetchPromise};

use crate::gate::pass_gate;
use change::Outcome;
use node::layout::record_value;
use node::slot::name;
use words::Refusal;

pub fn fetch(pool: &[u64], key: u64) -> Result<Outcome, Refusal>
    ensures { FetchPromise pool.now key result }
{
    let seat = pass_gate(pool, key)?;
    let Ok(rank) = seat.place else {
        return Ok(Outcome::Absent);
    };
    let entry = name(seat.slot, rank);
    Ok(Outcome::Found(record_value(pool, seat.leaf, entry)))
}

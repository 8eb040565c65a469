// Carrying out one event of a list, and all of them.
ghost use Rattle.words.specs.Carry.{CarryPromise, CarryAllPromise};

use crate::event::{Event, event_at};
use crate::limits::Pool;
use crate::refusal::Refusal;

// Carries out event n of the list, counted from 1, on the pool.
pub fn carry_out(pool: &mut [u64], list: &[u64], n: u64) -> Result<(), Refusal>
    ensures { CarryPromise pool.old list.now n result pool.new }
{
    match event_at(list, n) {
        Some(Event::Store(word, value)) if word < (pool.len() as u64) => {
            pool[word as usize] = value;
            Ok(())
        }
        Some(Event::Flush(line)) if line * Pool::LINE_WORDS < (pool.len() as u64) => Ok(()),
        Some(Event::Fence) => Ok(()),
        _ => Err(Refusal::NoEvent),
    }
}

// All events of the list up to a number, one after the other. Past the list's end there are none, so it stops there.
pub fn carry_all(pool: &mut [u64], list: &[u64], events: u64)
    ensures { CarryAllPromise pool.old list.now events pool.new }
{
    // After a fetch: the loop need not be set up.
    if events == 0 {
        return;
    }
    for n in 1..=events.min((list.len() / 2) as u64) {
        let _ = carry_out(pool, list, n);
    }
}

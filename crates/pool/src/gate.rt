// What stands before the calls: refusal 1 of the list, refusals 2 and 3 of the pool, and for a call on a key refusal 4 and the way down.
ghost use Rattle.std.specs.Prelude.{◌≡◌, length, Ok, Err};
ghost use Rattle.change.specs.Gate as g;
ghost use Rattle.pool.specs.inner.Passing.{Gated};

use tree::descend::{Seat, descend};
use tree::header::form_agrees;
use words::{Pool, Refusal};

// The list holds the events of every call.
#[inline(always)]
pub fn pass_list(list: &[u64]) -> Result<(), Refusal>
    ensures { result ≡ g.past_list Err (length list.now) (Ok tt) }
{
    if (list.len() as u64) < Pool::LIST_WORDS {
        return Err(Refusal::ShortList);
    }
    Ok(())
}

#[inline(always)]
pub fn pass_form(pool: &[u64]) -> Result<(), Refusal>
    ensures { result ≡ g.past_form Err pool.now (Ok tt) }
{
    if !form_agrees(pool) {
        return Err(Refusal::NoPool);
    }
    Ok(())
}

// It is a pool, and no change of it is unfinished.
#[inline(always)]
pub fn pass_pool(pool: &[u64]) -> Result<(), Refusal>
    ensures { result ≡ g.past_gate Err pool.now (Ok tt) }
{
    pass_form(pool)?;
    if pool[Pool::COMMIT_AT as usize] != 0 {
        return Err(Refusal::Unfinished);
    }
    Ok(())
}

// Three calls begin with it: each takes it in whole, which costs fewer instructions than a call of it.
#[inline(always)]
pub fn pass_gate(pool: &[u64], key: u64) -> Result<Seat, Refusal>
    ensures { Gated pool.now key result }
{
    pass_pool(pool)?;
    Ok(descend(pool, key)?)
}

// The archive of the calls on a pool, for programs in Rust and C: a slice is a pointer and a length, an answer is a struct of words.
#![tactic(auto)]

ghost use Rattle.words.specs.Carry.{CarryAllPromise};
ghost use Rattle.exports.specs.Promises as p;

use exports::replies::{done_reply, format_reply, outcome_reply};
use exports::reply::{Kind, Reply, Verdict};

#[unsafe(no_mangle)]
pub extern "C" fn ombykape_format(pool: &[u64], list: &mut [u64], capacity: u64) -> Reply
    ensures { p.FormatPromise pool.now list.old capacity result list.new }
{
    format_reply(pool::format(pool, list, capacity))
}

#[unsafe(no_mangle)]
pub extern "C" fn ombykape_recover(pool: &[u64], list: &mut [u64]) -> Reply
    ensures { p.RecoverPromise pool.now list.old result list.new }
{
    Reply::from(pool::recover(pool, list))
}

#[unsafe(no_mangle)]
pub extern "C" fn ombykape_fetch(pool: &[u64], key: u64) -> Reply
    ensures { p.FetchPromise pool.now key result }
{
    outcome_reply(pool::fetch(pool, key), 0)
}

#[unsafe(no_mangle)]
pub extern "C" fn ombykape_put(pool: &[u64], list: &mut [u64], key: u64, value: u64) -> Reply
    ensures { p.PutPromise pool.now list.old key value result list.new }
{
    Reply::from(pool::put(pool, list, key, value))
}

#[unsafe(no_mangle)]
pub extern "C" fn ombykape_delete(pool: &[u64], list: &mut [u64], key: u64) -> Reply
    ensures { p.DeletePromise pool.now list.old key result list.new }
{
    Reply::from(pool::delete(pool, list, key))
}

#[unsafe(no_mangle)]
pub extern "C" fn ombykape_check(pool: &[u64], marks: &mut [u8]) -> Verdict
    ensures { p.CheckPromise pool.now marks.old result marks.new }
{
    Verdict::from(pool::check(pool, marks))
}

#[unsafe(no_mangle)]
pub extern "C" fn ombykape_carry_out(pool: &mut [u64], list: &[u64], n: u64) -> Reply
    ensures { p.CarryPromise pool.old list.now n result pool.new }
{
    done_reply(words::carry_out(pool, list, n), Kind::Done, 1)
}

// The events of the list from 1 to a number, one after the other.
#[unsafe(no_mangle)]
pub extern "C" fn ombykape_carry_all(pool: &mut [u64], list: &[u64], events: u64)
    ensures { CarryAllPromise pool.old list.now events pool.new }
{
    words::carry_all(pool, list, events);
}

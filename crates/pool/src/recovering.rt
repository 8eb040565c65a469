// Recover: an unfinished change is done again from the log.
ghost use Rattle.std.specs.Prelude.{◌≤◌, ◌≡◌, length};
ghost use Rattle.words.specs.Pool as p;
ghost use Rattle.change.specs.Recover as s;
ghost use Rattle.pool.specs.Promises.{RecoverPromise};
ghost use Rattle.pool.specs.inner.Logging.{Logged};

use crate::gate::{pass_form, pass_list};
use change::Recovery;
use split::logging::finish_log;
use words::{EventList, Pool, Refusal};

// Whether recovery may store to a word: used, root, height, or a word of a node.
fn may_store(total: u64, word: u64) -> bool
    ensures { result ≡ s.may_store total word }
{
    (Pool::USED_AT..total).contains(&word) && !(Pool::LOG_AT..Pool::NODES_AT).contains(&word)
}

// The pairs of the log: at most 31, and each address may be stored to.
fn log_of(pool: &[u64]) -> Result<&[[u64; 2]], Refusal>
    requires { p.words_least ≤ length pool.now }
    ensures { Logged pool.now result }
{
    let pairs = pool[Pool::COMMIT_AT as usize];
    if Pool::PAIRS_MOST < pairs {
        return Err(Refusal::BadLog);
    }
    let total = pool[Pool::TOTAL_AT as usize];
    let (all, _) = pool[Pool::PAIRS_AT as usize..].as_chunks::<2>();
    let log = &all[..pairs as usize];
    for [address, _] in log {
        if !may_store(total, *address) {
            return Err(Refusal::BadLog);
        }
    }
    Ok(log)
}

// Plans the rest of an unfinished change. Root and used are not looked at: a cut may have left them apart.
pub fn recover(pool: &[u64], list: &mut [u64]) -> Result<Recovery, Refusal>
    ensures { RecoverPromise pool.now list.old result list.new }
{
    pass_list(list)?;
    pass_form(pool)?;
    let pairs = pool[Pool::COMMIT_AT as usize];
    if pairs == 0 {
        return Ok(Recovery::Clean);
    }
    let log = log_of(pool)?;
    let mut list = EventList::new(list);
    finish_log(&mut list, log);
    Ok(Recovery::Recovered(pairs, list.events))
}

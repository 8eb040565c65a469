// A request is served by its own call.
ghost use Rattle.pool.specs.Promises.{ServePromise};

use crate::deleting::delete;
use crate::fetching::fetch;
use crate::putting::put;
use change::{Answer, Request};
use words::Refusal;

pub fn serve(pool: &[u64], list: &mut [u64], request: Request) -> Result<Answer, Refusal>
    ensures { ServePromise pool.now list.old request result list.new }
{
    match request {
        Request::Put(key, value) => put(pool, list, key, value),
        Request::Fetch(key) => {
            let outcome = fetch(pool, key)?;
            Ok(Answer { outcome, events: 0 })
        }
        Request::Delete(key) => delete(pool, list, key),
    }
}

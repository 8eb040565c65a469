// Check: its refusals, then the walk over the whole pool.
ghost use Rattle.pool.specs.Promises.{CheckPromise};

use crate::gate::pass_pool;
use change::Checked;
use tree::header::counts_agree;
use walk::walking::check_tree;
use words::{Pool, Refusal};

// Whether the pool is well formed, with its nodes and records, or the first fault. The marks tell which numbers were met.
pub fn check(pool: &[u64], marks: &mut [u8]) -> Result<Checked, Refusal>
    ensures { CheckPromise pool.now marks.old result marks.new }
{
    pass_pool(pool)?;
    if (marks.len() as u64) < pool[Pool::CAPACITY_AT as usize] {
        return Err(Refusal::ShortMarks);
    }
    if !counts_agree(pool) {
        return Err(Refusal::Damaged);
    }
    Ok(check_tree(pool, marks))
}

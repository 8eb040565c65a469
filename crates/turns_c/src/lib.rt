// The archive of the calls on lent desks, for programs in Rust and C: a slice is a pointer and a length, an answer is a struct of words.
// It is an archive of its own: compiled apart from the calls on a pool, neither has to share its copy of these with the other.
#![tactic(auto)]

ghost use Rattle.change.specs.declared.Request.TheVariants.{Put, Fetch, Delete};
ghost use Rattle.turns.specs.Promises.{SubmitPromise, PlanTurnPromise, TurnPromise};

use change::Request;
use exports::replies::done_reply;
use exports::reply::{Kind, Reply};
use turns::{DeskRecord, TurnReply};

// A submit of any request.
fn submitted(desks: &mut [DeskRecord], member: u64, request: Request) -> Reply
    ensures { SubmitPromise desks.old member request result desks.new }
{
    done_reply(desk::submit(desks, member, request), Kind::Accepted, 0)
}

#[unsafe(no_mangle)]
pub extern "C" fn ombykape_submit_put(
    desks: &mut [DeskRecord],
    member: u64,
    key: u64,
    value: u64,
) -> Reply
    ensures { SubmitPromise desks.old member (Put key value) result desks.new }
{
    submitted(desks, member, Request::Put(key, value))
}

#[unsafe(no_mangle)]
pub extern "C" fn ombykape_submit_fetch(desks: &mut [DeskRecord], member: u64, key: u64) -> Reply
    ensures { SubmitPromise desks.old member (Fetch key) result desks.new }
{
    submitted(desks, member, Request::Fetch(key))
}

#[unsafe(no_mangle)]
pub extern "C" fn ombykape_submit_delete(desks: &mut [DeskRecord], member: u64, key: u64) -> Reply
    ensures { SubmitPromise desks.old member (Delete key) result desks.new }
{
    submitted(desks, member, Request::Delete(key))
}

// A turn whose events are left to be carried out.
#[unsafe(no_mangle)]
pub extern "C" fn ombykape_plan_turn(
    pool: &[u64],
    list: &mut [u64],
    desks: &mut [DeskRecord],
    last: u64,
) -> TurnReply
    ensures { PlanTurnPromise pool.now list.old desks.old last result list.new
        desks.new }
{
    TurnReply::from(desk::plan_turn(pool, list, desks, last))
}

#[unsafe(no_mangle)]
pub extern "C" fn ombykape_turn(
    pool: &mut [u64],
    list: &mut [u64],
    desks: &mut [DeskRecord],
    last: u64,
) -> TurnReply
    ensures { TurnPromise pool.old list.old desks.old last result
        pool.new list.new desks.new }
{
    TurnReply::from(desk::turn(pool, list, desks, last))
}

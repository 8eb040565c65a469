// A turn.
ghost use Rattle.std.specs.Prelude.{◌≡◌, suc, ◌-◌, ◌≤◌, ◌<◌, length, IfOk, IfSome};
ghost use Rattle.words.specs.Lists.{count_from};
ghost use Rattle.desk.specs.Desk as d;
ghost use Rattle.desk.specs.Desk.{with_desk};
ghost use Rattle.desk.specs.Turn as t;
ghost use Rattle.desk.specs.Promises.{PlanTurnPromise, TurnPromise};
ghost use Rattle.desk.specs.inner.Parts.{found, chosen};
ghost use Rattle.desk.specs.inner.Parts as parts;

use crate::answer::{Turn, Turned};
use crate::lent::{DeskList, Lent};
use change::{Answer, Request};
use words::{Pool, Refusal};

// The place and the request of the first full desk from one place up to another.
fn first_full<L: Lent>(desks: &[L], from: usize, to: usize) -> Option<(usize, Request)>
    requires { to ≤ length desks.now }
    ensures found { let ds = L.reads desks.now in result ≡ found ds (d.first_full ds (count_from (suc from) (to - from))) }
    ensures within { IfSome result (λ x. x.0 < to) }
{
    for i in from..to {
        if let Some(request) = desks[i].desk() {
            return Some((i, request));
        }
    }
    None
}

// The desk that a turn serves, unless the turn is refused.
fn choose<L: Lent>(
    list: &[u64],
    desks: &[L],
    last: u64,
) -> Result<Option<(usize, Request)>, Refusal>
    ensures chosen { result ≡ chosen list.now (L.reads desks.now) last }
    ensures within { IfOk result (λ o. IfSome o (λ x. x.0 < length desks.now)) }
{
    let n = desks.len();
    if !(1..=DeskList::MOST).contains(&n) || (n as u64) < last {
        return Err(Refusal::NoDesk);
    }
    if (list.len() as u64) < Pool::LIST_WORDS {
        return Err(Refusal::ShortList);
    }
    let last = last as usize;
    match first_full(desks, last, n) {
        Some(ahead) => Ok(Some(ahead)),
        None => Ok(first_full(desks, 0, last)),
    }
}

// An answer with no member served.
pub fn unserved(turned: Result<Turned, Refusal>, last: u64) -> Turn
    ensures { result ≡ t.unserved last turned }
{
    Turn {
        turned,
        member: 0,
        events: 0,
        last,
    }
}

// The answer of a member served.
pub fn served(answer: Result<Answer, Refusal>, member: u64) -> Turn
    ensures { result ≡ parts.served member answer }
{
    let (outcome, events) = match answer {
        Ok(answer) => (Ok(answer.outcome), answer.events),
        Err(why) => (Err(why), 0),
    };
    Turn {
        turned: Ok(Turned::Served(outcome)),
        member,
        events,
        last: member,
    }
}

// A turn whose events the caller carries out: the pool is only read.
pub fn plan_turn<L: Lent>(pool: &[u64], list: &mut [u64], desks: &mut [L], last: u64) -> Turn
    ensures promise { PlanTurnPromise pool.now list.old (L.reads desks.old) last result list.new (L.reads desks.new) }
    ensures lent { desks.new ≡ with_desk desks.old result.member (L.made None) }
{
    let (i, request) = match choose(list, desks, last) {
        Err(why) => return unserved(Err(why), last),
        Ok(None) => return unserved(Ok(Turned::Idle), last),
        Ok(Some(chosen)) => chosen,
    };
    desks[i] = L::from_desk(DeskList::FRESH);
    served(pool::serve(pool, list, request), i as u64 + 1)
}

pub fn turn<L: Lent>(pool: &mut [u64], list: &mut [u64], desks: &mut [L], last: u64) -> Turn
    ensures promise { TurnPromise pool.old list.old (L.reads desks.old) last result pool.new list.new (L.reads desks.new) }
    ensures lent { desks.new ≡ with_desk desks.old result.member (L.made None) }
{
    let t = plan_turn(pool, list, desks, last);
    words::carry_all(pool, list, t.events);
    t
}

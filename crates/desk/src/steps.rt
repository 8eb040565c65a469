// For a caller whose desks stand in no slice of `Lent` desks: the steps of a turn, one by one.
ghost use Rattle.std.specs.Prelude.{◌≡◌, ◌≤◌, ◌<◌, ltb, if◌then◌else◌};
ghost use Rattle.words.specs.Event.{at};
ghost use Rattle.desk.specs.Desk.{desks_most, may_turn, round};
ghost use Rattle.desk.specs.Turn.{serve_turn};
ghost use Rattle.desk.specs.inner.Parts.{noted};

use crate::answer::{Turn, Turned};
use crate::lent::{Desk, DeskList};
use crate::turning::{served, unserved};
use words::{Pool, Refusal};

// A member and its desk; 0 and a fresh desk where none is full.
#[derive(Drop)]
pub struct Chosen {
    pub member: u64,
    pub desk: Desk,
}

// How many desks are looked at: none where the turn is refused.
pub fn looked_at(desks: usize, last: u64) -> usize
    ensures { result ≡ (if may_turn desks last then desks else 0) }
{
    if desks <= DeskList::MOST && last <= desks as u64 {
        desks
    } else {
        0
    }
}

// The member looked at after k others.
#[tactic(auto, using(crate::proofs::Round::round_ahead, crate::proofs::Round::round_about))]
fn member_after(desks: usize, last: u64, k: usize) -> usize
    requires { (desks ≤ desks_most) × (last ≤ desks) × (k < desks) }
    ensures { result ≡ at (round desks last) k }
{
    let last = last as usize;
    let ahead = desks - last;
    if k < ahead {
        last + k + 1
    } else {
        k - ahead + 1
    }
}

// The same for any numbers: 0 where no desk is looked at after k others.
pub fn looked_member(desks: usize, last: u64, k: usize) -> usize
    ensures { result ≡ (if ltb k (if may_turn desks last then desks else 0) then at (round desks last) k else 0) }
{
    if looked_at(desks, last) <= k {
        return 0;
    }
    member_after(desks, last, k)
}

// One desk more is looked at.
pub fn note(found: Chosen, member: usize, desk: Desk) -> Chosen
    ensures { result ≡ noted found member desk }
{
    match (found.desk, desk) {
        (None, Some(_)) => Chosen {
            member: member as u64,
            desk,
        },
        _ => found,
    }
}

// A turn on so many desks, of which one is chosen: its events are planned, and left to the caller.
#[tactic(auto, unfolding(crate::specs::Turn::serve_turn))]
pub fn plan_chosen(pool: &[u64], list: &mut [u64], desks: usize, last: u64, chosen: Chosen) -> Turn
    ensures { (result ≡ (serve_turn pool.now list.old desks last chosen.member chosen.desk).answer)
        × (list.new ≡ (serve_turn pool.now list.old desks last chosen.member chosen.desk).list) }
{
    if looked_at(desks, last) == 0 {
        return unserved(Err(Refusal::NoDesk), last);
    }
    if (list.len() as u64) < Pool::LIST_WORDS {
        return unserved(Err(Refusal::ShortList), last);
    }
    match chosen.desk {
        None => unserved(Ok(Turned::Idle), last),
        Some(request) => served(pool::serve(pool, list, request), chosen.member),
    }
}

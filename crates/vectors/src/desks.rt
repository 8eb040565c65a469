// Rows of submits and turns on lent desks, with the answers that were worked out by hand.
ghost use Rattle.std.specs.Prelude.{◌≤◌};

use crate::report::tell_whether;
use crate::steps::{Step, run};
use change::{Outcome, Request};
use desk::{Desk, DeskList, Turned};
use std::io;
use trials::asking::{CAPACITY, Kept, LIST_WORDS, POOL_WORDS};
use words::{Pool, Refusal};

const LEAST_WORDS: usize = Pool::WORDS_LEAST as usize;

// A row on a pool and its list.
fn on<const N: usize>(kept: &mut Kept<N>, desks: &mut [Desk], last: u64, row: &[Step]) -> bool {
    run(&mut kept.pool, &mut kept.list, desks, last, row)
}

fn on_fresh_pool(desks: &mut [Desk], last: u64, row: &[Step]) -> bool {
    let mut kept = Kept::<POOL_WORDS>::zeroed();
    kept.make(CAPACITY);
    on(&mut kept, desks, last, row)
}

// "One desk: next turn serves it."
fn one_desk() -> bool {
    let row = [
        Step::accepted(1, Request::Put(7, 70)),
        Step::served(1, Ok(Outcome::New), 7),
        Step::unserved(Ok(Turned::Idle), 1),
        Step::accepted(1, Request::Fetch(7)),
        Step::served(1, Ok(Outcome::Found(70)), 0),
    ];
    on_fresh_pool(&mut [DeskList::FRESH; 1], 0, &row)
}

// A desk that submits again at once waits its round; with last served 1, the third desk comes before the first.
fn three_desks() -> bool {
    let row = [
        Step::accepted(1, Request::Put(1, 10)),
        Step::accepted(2, Request::Put(2, 20)),
        Step::accepted(3, Request::Fetch(1)),
        Step::served(1, Ok(Outcome::New), 7),
        Step::accepted(1, Request::Delete(2)),
        Step::served(2, Ok(Outcome::New), 7),
        Step::served(3, Ok(Outcome::Found(10)), 0),
        Step::served(1, Ok(Outcome::Removed), 3),
        Step::unserved(Ok(Turned::Idle), 1),
        Step::accepted(1, Request::Put(1, 11)),
        Step::accepted(3, Request::Fetch(1)),
        Step::served(3, Ok(Outcome::Found(10)), 0),
        Step::served(1, Ok(Outcome::Replaced), 3),
        Step::unserved(Ok(Turned::Idle), 1),
    ];
    on_fresh_pool(&mut [DeskList::FRESH; 3], 0, &row)
}

// The last of the most desks comes before the first where 15 was last served.
fn sixteen_desks() -> bool {
    let row = [
        Step::accepted(1, Request::Put(1, 10)),
        Step::accepted(16, Request::Put(16, 160)),
        Step::refused(17, Request::Put(17, 170), Refusal::NoDesk),
        Step::served(16, Ok(Outcome::New), 7),
        Step::served(1, Ok(Outcome::New), 7),
    ];
    on_fresh_pool(&mut [DeskList::FRESH; 16], 15, &row)
}

// A full desk keeps its first request. There is no member 0, and none past the desks.
fn full_desk() -> bool {
    let row = [
        Step::accepted(2, Request::Put(1, 10)),
        Step::refused(2, Request::Put(1, 99), Refusal::FullDesk),
        Step::refused(0, Request::Put(1, 98), Refusal::NoDesk),
        Step::refused(4, Request::Put(1, 97), Refusal::NoDesk),
        Step::served(2, Ok(Outcome::New), 7),
        Step::accepted(2, Request::Fetch(1)),
        Step::served(2, Ok(Outcome::Found(10)), 0),
        Step::unserved(Ok(Turned::Idle), 2),
    ];
    on_fresh_pool(&mut [DeskList::FRESH; 3], 0, &row)
}

// A list of desks that is empty, or over 16.
fn no_desks(desks: &mut [Desk]) -> bool {
    let row = [
        Step::refused(1, Request::Put(1, 10), Refusal::NoDesk),
        Step::unserved(Err(Refusal::NoDesk), 0),
    ];
    on_fresh_pool(desks, 0, &row)
}

// A last served past the desks: the turn is refused, and leaves the desk full.
fn last_past_desks() -> bool {
    let row = [
        Step::accepted(1, Request::Put(1, 10)),
        Step::unserved(Err(Refusal::NoDesk), 4),
        Step::refused(1, Request::Put(1, 99), Refusal::FullDesk),
    ];
    on_fresh_pool(&mut [DeskList::FRESH; 3], 4, &row)
}

// A list of 371 words: the turn is refused whether or not a desk is full, and leaves it full.
fn short_list() -> bool {
    let mut kept = Kept::<POOL_WORDS>::zeroed();
    kept.make(CAPACITY);
    let row = [
        Step::unserved(Err(Refusal::ShortList), 2),
        Step::accepted(1, Request::Put(1, 10)),
        Step::unserved(Err(Refusal::ShortList), 2),
        Step::refused(1, Request::Put(1, 99), Refusal::FullDesk),
    ];
    run(
        &mut kept.pool,
        &mut [0; LIST_WORDS - 1],
        &mut [DeskList::FRESH; 3],
        2,
        &row,
    )
}

// "With none full [..]: Idle, on any pool, member 0, 0 events, last served as handed."
fn none_full() -> bool {
    let row = [
        Step::unserved(Ok(Turned::Idle), 2),
        Step::unserved(Ok(Turned::Idle), 2),
    ];
    run(
        &mut [0; LEAST_WORDS],
        &mut [0; LIST_WORDS],
        &mut [DeskList::FRESH; 3],
        2,
        &row,
    )
}

// "Inside a turn 2 to 5 become the member's answer and the desk is emptied."
fn refused_row(request: Request, why: Refusal) -> [Step; 5] {
    [
        Step::accepted(2, request),
        Step::served(2, Err(why), 0),
        Step::unserved(Ok(Turned::Idle), 2),
        Step::accepted(2, request),
        Step::served(2, Err(why), 0),
    ]
}

// A fresh pool of which one word of the header, or the commit word, is another number.
fn with_word(at: u64, word: u64, why: Refusal) -> bool
    requires { at ≤ 8 }
{
    let mut kept = Kept::<POOL_WORDS>::zeroed();
    kept.make(CAPACITY);
    kept.pool[at as usize] = word;
    on(
        &mut kept,
        &mut [DeskList::FRESH; 3],
        0,
        &refused_row(Request::Put(7, 70), why),
    )
}

// Seven members put a key each.
fn seven_puts() -> [Step; 14] {
    [
        Step::accepted(1, Request::Put(10, 1)),
        Step::accepted(2, Request::Put(20, 2)),
        Step::accepted(3, Request::Put(30, 3)),
        Step::accepted(4, Request::Put(40, 4)),
        Step::accepted(5, Request::Put(50, 5)),
        Step::accepted(6, Request::Put(60, 6)),
        Step::accepted(7, Request::Put(70, 7)),
        Step::served(1, Ok(Outcome::New), 7),
        Step::served(2, Ok(Outcome::New), 7),
        Step::served(3, Ok(Outcome::New), 7),
        Step::served(4, Ok(Outcome::New), 7),
        Step::served(5, Ok(Outcome::New), 7),
        Step::served(6, Ok(Outcome::New), 7),
        Step::served(7, Ok(Outcome::New), 7),
    ]
}

// The only node of a pool is full.
fn no_room() -> bool {
    let mut kept = Kept::<LEAST_WORDS>::zeroed();
    kept.make(1);
    let filled = on(&mut kept, &mut [DeskList::FRESH; 7], 0, &seven_puts());
    let new = refused_row(Request::Put(80, 8), Refusal::NoRoom);
    filled && on(&mut kept, &mut [DeskList::FRESH; 3], 0, &new)
}

fn tell_refusals(rt: &impl Print) -> io::Result<()> {
    tell_whether(rt, "full desk", full_desk())?;
    tell_whether(rt, "no desks", no_desks(&mut [DeskList::FRESH; 0]))?;
    tell_whether(rt, "seventeen desks", no_desks(&mut [DeskList::FRESH; 17]))?;
    tell_whether(rt, "last served past the desks", last_past_desks())?;
    tell_whether(rt, "turn with a short list", short_list())?;
    tell_whether(
        rt,
        "no pool in a turn",
        with_word(Pool::FORM_AT, 0, Refusal::NoPool),
    )?;
    tell_whether(
        rt,
        "unfinished in a turn",
        with_word(Pool::COMMIT_AT, 1, Refusal::Unfinished),
    )?;
    tell_whether(
        rt,
        "damaged in a turn",
        with_word(Pool::ROOT_AT, 2, Refusal::Damaged),
    )?;
    tell_whether(rt, "no room in a turn", no_room())
}

pub fn tell_desks(rt: &impl Print) -> io::Result<()> {
    tell_whether(rt, "one desk", one_desk())?;
    tell_whether(rt, "three desks", three_desks())?;
    tell_whether(rt, "sixteen desks", sixteen_desks())?;
    tell_whether(rt, "no desk full", none_full())?;
    tell_refusals(rt)
}

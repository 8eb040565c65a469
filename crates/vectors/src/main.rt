// Rows of requests on fresh pools. Each answer is compared with a list that the program keeps itself; the events, the refusals and the
// height of each case with numbers that were worked out apart from it. The answers of rows of submits and turns are compared with answers
// worked out apart. Prints a line a case.
#![tactic(auto)]

mod desks;
mod report;
mod steps;

use report::tell;
use std::io;
use std::process::ExitCode;
use trials::asking::CAPACITY;
use trials::rows::{Part, Row};
use trials::tally::Tally;
use trials::trial::play;

// One leaf.
fn leaves(rt: &impl Print) -> io::Result<()> {
    let leaf = Part::put(Row::Rising, 0, 7);
    tell(rt, "leaf", play(CAPACITY, &[leaf]), Tally::sound(49, 0, 1))?;
    tell(
        rt,
        "replace",
        play(CAPACITY, &[leaf, leaf]),
        Tally::sound(70, 0, 1),
    )?;
    tell(
        rt,
        "delete",
        play(CAPACITY, &[leaf, Part::delete(Row::Rising, 2, 3), leaf]),
        Tally::sound(77, 0, 1),
    )
}

// The splits of a full leaf, and pools that have no node to spare.
fn splits(rt: &impl Print) -> io::Result<()> {
    let leaf = Part::put(Row::Rising, 0, 7);
    let eighth = Part::put(Row::Rising, 7, 8);
    tell(
        rt,
        "split above",
        play(CAPACITY, &[leaf, eighth]),
        Tally::sound(96, 0, 2),
    )?;
    tell(
        rt,
        "split below",
        play(CAPACITY, &[leaf, Part::put(Row::Low, 0, 1)]),
        Tally::sound(104, 0, 2),
    )?;
    tell(
        rt,
        "two nodes",
        play(2, &[leaf, eighth, leaf]),
        Tally::sound(70, 1, 1),
    )?;
    tell(
        rt,
        "three nodes",
        play(3, &[leaf, eighth, Part::fetch(Row::Rising, 0, 9)]),
        Tally::sound(96, 0, 2),
    )
}

// Puts of a row, then fetches of its keys and of others.
fn tell_row(rt: &impl Print, name: &str, row: Row, count: u64, want: Tally) -> io::Result<()> {
    let puts = Part::put(row, 0, count);
    let fetches = Part::fetch(row, 0, count.saturating_add(50));
    tell(rt, name, play(CAPACITY, &[puts, fetches]), want)
}

fn trees(rt: &impl Print) -> io::Result<()> {
    let cases = [
        ("rising", Row::Rising, 250, 4288),
        ("falling", Row::Falling, 250, 5018),
        ("from both ends", Row::Ends, 300, 5282),
        ("scattered", Row::Scattered, 350, 5620),
        ("least and largest keys", Row::Limits, 200, 3732),
    ];
    for (name, row, count, events) in cases {
        tell_row(rt, name, row, count, Tally::sound(events, 0, 4))?;
    }
    Ok(())
}

// More puts than a pool of 100 nodes takes.
fn full_pools(rt: &impl Print) -> io::Result<()> {
    let cases = [
        ("full, rising", Row::Rising, 5567, 577),
        ("full, falling", Row::Falling, 6174, 593),
        ("full, scattered", Row::Scattered, 8038, 319),
    ];
    for (name, row, events, refused) in cases {
        tell_row(rt, name, row, 900, Tally::sound(events, refused, 4))?;
    }
    Ok(())
}

fn deletes(rt: &impl Print) -> io::Result<()> {
    let puts = Part::put(Row::Scattered, 0, 250);
    let all = Part::delete(Row::Scattered, 0, 250);
    let some = Part::delete(Row::Scattered, 50, 200);
    tell(
        rt,
        "emptied",
        play(CAPACITY, &[puts, all, Part::fetch(Row::Scattered, 0, 250)]),
        Tally::sound(4671, 0, 3),
    )?;
    tell(
        rt,
        "put again",
        play(CAPACITY, &[puts, some, puts]),
        Tally::sound(5721, 0, 3),
    )
}

fn tell_all(rt: &impl Print) -> io::Result<()> {
    desks::tell_desks(rt)?;
    leaves(rt)?;
    splits(rt)?;
    trees(rt)?;
    full_pools(rt)?;
    deletes(rt)
}

// Where it cannot print, the status alone tells of it.
fn main(rt: HostRuntime) -> ExitCode {
    match tell_all(&rt) {
        Ok(()) => ExitCode::SUCCESS,
        Err(_) => ExitCode::FAILURE,
    }
}

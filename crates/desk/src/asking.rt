// For a caller with one member, whose only desk it keeps by value.
ghost use Rattle.desk.specs.Promises.{AskPromise};

use crate::answer::Turn;
use crate::lent::Desk;
use crate::submitting::submit;
use crate::turning::turn;
use change::Request;
use words::Refusal;

// The answers to the submit and to the turn, and the desk after them.
#[derive(Drop)]
pub struct Asked {
    pub submitted: Result<(), Refusal>,
    pub turn: Turn,
    pub desk: Desk,
}

// Submits to the only desk of a list of one, then takes a turn.
pub fn ask(pool: &mut [u64], list: &mut [u64], desk: Desk, last: u64, request: Request) -> Asked
    ensures { AskPromise pool.old list.old desk last request result pool.new list.new }
{
    let mut desks = [desk];
    let submitted = submit(&mut desks, 1, request);
    let turn = turn(pool, list, &mut desks, last);
    Asked {
        submitted,
        turn,
        desk: desks[0],
    }
}

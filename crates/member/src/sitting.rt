// The member at its desk: bytes are taken, and each line that they end is answered.
use crate::failure::Failure;
use crate::output::Output;
use change::{Outcome, Request};
use desk::{Desk, DeskList, Turned};
use line::{BadLine, Fields, Taker};
use std::io::Read;
use words::{Pool, Refusal};

// "a fresh pool of 100 nodes"
const CAPACITY: u64 = 100;

// As `Pool::total_of` has it: a constant cannot call it.
const POOL_WORDS: usize = (Pool::NODES_AT + Pool::NODE_WORDS * CAPACITY) as usize;

const LIST_WORDS: usize = Pool::LIST_WORDS as usize;

// The pool and the list for its events, the desk, the member last served, the line that comes, and the answers that wait.
#[derive(Drop)]
pub struct Sitting {
    pool: [u64; POOL_WORDS],
    list: [u64; LIST_WORDS],
    desk: Desk,
    last: u64,
    taker: Taker,
    output: Output,
}

impl Sitting {
    pub fn new() -> Sitting {
        let mut pool = [0; POOL_WORDS];
        let mut list = [0; LIST_WORDS];
        make_pool(&mut pool, &mut list);
        Sitting {
            pool,
            list,
            desk: DeskList::FRESH,
            last: 0,
            taker: Taker::new(),
            output: Output::new(),
        }
    }

    // A proved loop has to end, and nothing says that an input does: no run uses up so many reads.
    pub fn answer_all(&mut self, rt: &impl Print, input: &mut impl Read) -> Result<(), Failure> {
        let mut block = [0u8; 4096];
        for _ in 0..u64::MAX {
            // A read may wait, so all answers so far are written first.
            self.output.write_out(rt)?;
            let n = input.read(&mut block).map_err(|_| Failure::Read)?;
            if n == 0 {
                break;
            }
            self.feed(rt, &block[..n])?;
        }
        self.finish(rt)
    }

    fn feed(&mut self, rt: &impl Print, block: &[u8]) -> Result<(), Failure> {
        for &byte in block {
            if let Some(line) = self.taker.step(byte) {
                self.answer(rt, line)?;
            }
        }
        Ok(())
    }

    // The last line, where it has no newline.
    fn finish(&mut self, rt: &impl Print) -> Result<(), Failure> {
        if let Some(line) = self.taker.rest() {
            self.answer(rt, line)?;
        }
        self.output.write_out(rt)
    }

    fn answer(&mut self, rt: &impl Print, line: Result<Request, BadLine>) -> Result<(), Failure> {
        let told = line.map(|request| self.ask(request));
        self.output.push(rt, told)
    }

    fn ask(&mut self, request: Request) -> Fields {
        let asked = desk::ask(
            &mut self.pool,
            &mut self.list,
            self.desk,
            self.last,
            request,
        );
        let turn = asked.turn;
        self.desk = asked.desk;
        self.last = turn.last;
        Fields {
            request,
            outcome: outcome_of(turn.turned),
            events: turn.events,
        }
    }
}

fn make_pool(pool: &mut [u64], list: &mut [u64]) {
    if let Ok(events) = pool::format(pool, list, CAPACITY) {
        words::carry_all(pool, list, events);
    }
}

// With one desk, which the request has filled, a turn is never idle.
fn outcome_of(turned: Result<Turned, Refusal>) -> Result<Outcome, Refusal> {
    match turned? {
        Turned::Served(outcome) => outcome,
        Turned::Idle => Err(Refusal::NoDesk),
    }
}

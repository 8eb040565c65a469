// A pool and its list as a trial keeps them, and a request served on them: planned, then carried out.
use change::{Answer, Request};
use words::{Pool, Refusal};

// The nodes of the largest pool.
pub const CAPACITY: u64 = 100;

// As `Pool::total_of` has it: a constant cannot call it.
pub const POOL_WORDS: usize = (Pool::NODES_AT + Pool::NODE_WORDS * CAPACITY) as usize;

pub const LIST_WORDS: usize = Pool::LIST_WORDS as usize;

#[derive(Drop)]
pub struct Kept<const N: usize> {
    pub pool: [u64; N],
    pub list: [u64; LIST_WORDS],
}

impl<const N: usize> Kept<N> {
    // Zeroes, of which `make` makes a pool where they lie.
    #[inline(always)]
    pub fn zeroed() -> Kept<N> {
        Kept {
            pool: [0; N],
            list: [0; LIST_WORDS],
        }
    }

    // An empty pool of a capacity, if the words are enough for it.
    pub fn make(&mut self, capacity: u64) {
        if let Ok(events) = pool::format(&mut self.pool, &mut self.list, capacity) {
            words::carry_all(&mut self.pool, &self.list, events);
        }
    }

    pub fn serve(&mut self, request: Request) -> Result<Answer, Refusal> {
        let answer = pool::serve(&mut self.pool, &mut self.list, request)?;
        words::carry_all(&mut self.pool, &self.list, answer.events);
        Ok(answer)
    }
}

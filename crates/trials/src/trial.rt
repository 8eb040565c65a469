// A case: parts of rows on a fresh pool, each answer held against the model's.
use crate::asking::{Kept, POOL_WORDS};
use crate::model::Model;
use crate::rows::Part;
use crate::tally::{Tally, agree};
use change::Request;
use words::{Pool, Refusal};

// What is kept, and beside it the records that the pool should hold and what came so far.
#[derive(Drop)]
struct Trial {
    kept: Kept<POOL_WORDS>,
    model: Model,
    tally: Tally,
}

impl Trial {
    // One request: the pool's answer against the model's.
    fn step(&mut self, request: Request) {
        let want = self.model.expected(request);
        let answer = self.kept.serve(request);
        let events = answer.map_or(0, |answer| answer.events);
        self.tally.events = self.tally.events.wrapping_add(events);
        match answer {
            Ok(answer) if agree(want, answer) => self.model.apply(request),
            Err(Refusal::NoRoom) => self.tally.refused = self.tally.refused.wrapping_add(1),
            _ => self.tally.differ = self.tally.differ.wrapping_add(1),
        }
    }

    fn run(&mut self, part: Part) {
        for i in part.from..part.to {
            self.step(part.request(i));
        }
    }
}

// Parts, one after the other, on a fresh pool of a capacity.
pub fn play(capacity: u64, parts: &[Part]) -> Tally {
    let mut trial = Trial {
        kept: Kept::zeroed(),
        model: Model::default(),
        tally: Tally::sound(0, 0, 0),
    };
    trial.kept.make(capacity);
    for part in parts {
        trial.run(*part);
    }
    trial.tally.height = trial.kept.pool[Pool::HEIGHT_AT as usize];
    trial.tally
}

// Rows of submits and turns, with the answer of each as it was worked out. A step is handed the pool and the desks as the step before left
// them, and a turn the last served that the turn before answered.
use change::{Outcome, Request};
use desk::{Desk, Turn, Turned};
use words::Refusal;

#[derive(Clone, Copy)]
pub enum Step {
    Submit(u64, Request, Result<(), Refusal>),
    Turn(Turn),
}

impl Step {
    pub fn accepted(member: u64, request: Request) -> Step {
        Step::Submit(member, request, Ok(()))
    }

    pub fn refused(member: u64, request: Request, why: Refusal) -> Step {
        Step::Submit(member, request, Err(why))
    }

    pub fn served(member: u64, answer: Result<Outcome, Refusal>, events: u64) -> Step {
        Step::Turn(Turn {
            turned: Ok(Turned::Served(answer)),
            member,
            events,
            last: member,
        })
    }

    // A turn that serves nobody, and answers the last served as handed.
    pub fn unserved(turned: Result<Turned, Refusal>, last: u64) -> Step {
        Step::Turn(Turn {
            turned,
            member: 0,
            events: 0,
            last,
        })
    }
}

// Whether each answer of a row is the one worked out: on these desks, the first turn handed a last served.
pub fn run(
    pool: &mut [u64],
    list: &mut [u64],
    desks: &mut [Desk],
    mut last: u64,
    row: &[Step],
) -> bool {
    let mut good = true;
    for step in row {
        good &= match *step {
            Step::Submit(member, request, want) => desk::submit(desks, member, request) == want,
            Step::Turn(want) => {
                let came = desk::turn(pool, list, desks, last);
                last = came.last;
                came == want
            }
        };
    }
    good
}

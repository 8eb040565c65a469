// Each answer as a reply. `From` turns what one type of answer tells in full; an outcome needs its event count, and a number of events or
// the unit is answered by more than one call.
ghost use Rattle.std.specs.Prelude.{◌≡◌};
ghost use Rattle.exports.specs.Replies as d;

use crate::reply::{Kind, Reply, Verdict};
use change::{Answer, Checked, Outcome, Recovery};
use words::Refusal;

impl From<Refusal> for Reply {
    ghost from_gives = { λ why r. r ≡ d.refused why };

    fn from(why: Refusal) -> Reply {
        Reply::new(Kind::Refused, 0, why.number())
    }
}

pub fn outcome_reply(outcome: Result<Outcome, Refusal>, events: u64) -> Reply
    ensures { result ≡ d.outcome_reply outcome events }
{
    match outcome {
        Ok(Outcome::New) => Reply::new(Kind::New, events, 0),
        Ok(Outcome::Replaced) => Reply::new(Kind::Replaced, events, 0),
        Ok(Outcome::Removed) => Reply::new(Kind::Removed, events, 0),
        Ok(Outcome::Absent) => Reply::new(Kind::Absent, events, 0),
        Ok(Outcome::Found(value)) => Reply::new(Kind::Found, events, value),
        Err(why) => Reply::from(why),
    }
}

impl From<Result<Answer, Refusal>> for Reply {
    ghost from_gives = { λ answer r. r ≡ d.answer_reply answer };

    fn from(answer: Result<Answer, Refusal>) -> Reply {
        match answer {
            Ok(answer) => outcome_reply(Ok(answer.outcome), answer.events),
            Err(why) => Reply::from(why),
        }
    }
}

pub fn format_reply(formatted: Result<u64, Refusal>) -> Reply
    ensures { result ≡ d.format_reply formatted }
{
    match formatted {
        Ok(events) => Reply::new(Kind::Formatted, events, 0),
        Err(why) => Reply::from(why),
    }
}

impl From<Result<Recovery, Refusal>> for Reply {
    ghost from_gives = { λ recovery r. r ≡ d.recovery_reply recovery };

    fn from(recovery: Result<Recovery, Refusal>) -> Reply {
        match recovery {
            Ok(Recovery::Clean) => Reply::new(Kind::Clean, 0, 0),
            Ok(Recovery::Recovered(pairs, events)) => Reply::new(Kind::Recovered, events, pairs),
            Err(why) => Reply::from(why),
        }
    }
}

// Of a call that answers the unit: what kind of answer it is when all went well, and the events that it counts.
pub fn done_reply(done: Result<(), Refusal>, kind: Kind, events: u64) -> Reply
    ensures { result ≡ d.done_reply done (d.kind_number kind) events }
{
    match done {
        Ok(()) => Reply::new(kind, events, 0),
        Err(why) => Reply::from(why),
    }
}

impl From<Result<Checked, Refusal>> for Verdict {
    ghost from_gives = { λ checked r. r ≡ d.verdict checked };

    fn from(checked: Result<Checked, Refusal>) -> Verdict {
        match checked {
            Ok(Checked::Sound(nodes, records)) => Verdict::new(Kind::Sound, nodes, records),
            Ok(Checked::Fault(node)) => Verdict::new(Kind::Fault, node, 0),
            Err(why) => Verdict::new(Kind::Refused, why.number(), 0),
        }
    }
}

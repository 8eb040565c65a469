// What a turn answers, as a reply.
ghost use Rattle.std.specs.Prelude.{◌≡◌};
ghost use Rattle.turns.specs.Replies as d;

use desk::{Turn, Turned};
use exports::replies::outcome_reply;
use exports::reply::{Kind, Reply};
use words::Refusal;

// Of a turn: the member served, the events carried out, the last served to hand to the next turn, and the value as in a reply.
#[repr(C)]
#[derive(Drop)]
pub struct TurnReply {
    pub kind: u64,
    pub member: u64,
    pub events: u64,
    pub last: u64,
    pub value: u64,
}

fn turned_reply(turned: Result<Turned, Refusal>, events: u64) -> Reply
    ensures { result ≡ d.turned_reply turned events }
{
    match turned {
        Ok(Turned::Served(outcome)) => outcome_reply(outcome, events),
        Ok(Turned::Idle) => Reply::new(Kind::Idle, events, 0),
        Err(why) => Reply::from(why),
    }
}

impl From<Turn> for TurnReply {
    ghost from_gives = { λ turn r. r ≡ d.turn_reply turn };

    fn from(turn: Turn) -> TurnReply {
        let reply = turned_reply(turn.turned, turn.events);
        TurnReply {
            kind: reply.kind,
            member: turn.member,
            events: reply.events,
            last: turn.last,
            value: reply.value,
        }
    }
}

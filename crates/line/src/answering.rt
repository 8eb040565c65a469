// The text of an answer: command, answer, events.
ghost use Rattle.std.specs.Prelude.{◌≡◌, ◌+◌, ◌≤◌, ◌++◌, length};
ghost use Rattle.arrayvec.specs.ArrayVec.{array_vec_len};
ghost use Rattle.line.specs.Line as t;

use crate::parsing::BadLine;
use crate::writing::{write_bytes, write_number};
use arrayvec::ArrayVec;
use change::{Outcome, Request};
use words::Refusal;

// The bytes of a line of output, at most.
pub const TEXT_MOST: usize = 64;

// What is printed of a line that asks.
#[derive(Clone, Copy)]
pub struct Fields {
    pub request: Request,
    pub outcome: Result<Outcome, Refusal>,
    pub events: u64,
}

fn command(request: Request) -> &'static [u8]
    ensures { result.now ≡ t.command_text request }
{
    match request {
        Request::Put(_, _) => b"put",
        Request::Fetch(_) => b"get",
        Request::Delete(_) => b"del",
    }
}

#[tactic(auto, using(crate::proofs::Texts::lengths, std::proofs::lemmas::Grind::common_steps))]
fn write_outcome<const N: usize>(out: &mut ArrayVec<u8, N>, outcome: Result<Outcome, Refusal>)
    requires { array_vec_len out.old + 28 ≤ N }
    ensures { out.new.items ≡ out.old.items ++ t.outcome_text outcome }
{
    match outcome {
        Ok(Outcome::New) => write_bytes(out, b"new"),
        Ok(Outcome::Replaced) => write_bytes(out, b"replaced"),
        Ok(Outcome::Removed) => write_bytes(out, b"removed"),
        Ok(Outcome::Absent) => write_bytes(out, b"absent"),
        Ok(Outcome::Found(value)) => {
            write_bytes(out, b"found:");
            write_number(out, value);
        }
        Err(why) => {
            write_bytes(out, b"refused:");
            write_number(out, why.number());
        }
    }
}

#[tactic(auto, using(crate::proofs::Texts::lengths, std::proofs::lemmas::Grind::common_steps))]
fn write_fields<const N: usize>(out: &mut ArrayVec<u8, N>, fields: Fields)
    requires { array_vec_len out.old + t.text_most ≤ N }
    ensures { out.new.items ≡ out.old.items ++ t.fields_text fields }
{
    write_bytes(out, command(fields.request));
    write_bytes(out, b" ");
    write_outcome(out, fields.outcome);
    write_bytes(out, b" ");
    write_number(out, fields.events);
    write_bytes(out, b"\n");
}

pub fn write_text<const N: usize>(out: &mut ArrayVec<u8, N>, told: Result<Fields, BadLine>)
    requires { array_vec_len out.old + t.text_most ≤ N }
    ensures { out.new.items ≡ out.old.items ++ t.text told }
{
    match told {
        Ok(fields) => write_fields(out, fields),
        Err(BadLine) => write_bytes(out, b"? badline 0\n"),
    }
}

// What a line asks.
ghost use Rattle.std.specs.Prelude.{◌≡◌};
ghost use Rattle.std.specs.Option.{option_copied};
ghost use Rattle.line.specs.Line.{blank, parts};
ghost use Rattle.line.specs.Line as l;

use crate::numbers::read_number;
use change::Request;

// The bytes of a line, at most.
pub const LINE_MOST: usize = 64;

// A line that asks nothing.
#[derive(Clone, Copy, PartialEq, Eq)]
pub struct BadLine;

// A command and its fields, one or two.
fn request(word: &[u8], key: &[u8], value: Option<&[u8]>) -> Option<Request>
    ensures { result ≡ l.request_of word.now key.now (option_copied value.entry) }
{
    let key = read_number(key)?;
    match (word, value) {
        (b"put", Some(value)) => Some(Request::Put(key, read_number(value)?)),
        (b"get", None) => Some(Request::Fetch(key)),
        (b"del", None) => Some(Request::Delete(key)),
        _ => None,
    }
}

// The fields are parted by single blanks.
fn asked(line: &[u8]) -> Option<Request>
    ensures { result ≡ l.fields_mean (parts blank line.now) }
{
    let mut fields = line.split(|b| *b == b' ');
    match (fields.next(), fields.next(), fields.next(), fields.next()) {
        (Some(word), Some(key), value, None) => request(word, key, value),
        _ => None,
    }
}

pub fn parse(line: &[u8]) -> Result<Request, BadLine>
    ensures { result ≡ l.meaning line.now }
{
    if LINE_MOST < line.len() {
        return Err(BadLine);
    }
    asked(line).ok_or(BadLine)
}

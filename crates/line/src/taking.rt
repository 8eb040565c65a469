// A line taken byte by byte as the bytes come: lines of any length, in the room of one line.
ghost use Rattle.std.specs.Prelude.{◌≡◌};

use crate::parsing::{BadLine, LINE_MOST, parse};
use arrayvec::ArrayVec;
use change::Request;

// The bytes since the last newline, as far as a line may have them, and whether there were more.
#[derive(Drop)]
pub struct Taker {
    pub line: ArrayVec<u8, LINE_MOST>,
    pub long: bool,
}

impl Taker {
    ghost use Rattle.line.specs.Taken as t;

    pub fn new() -> Taker
        ensures { result ≡ t.fresh }
    {
        Taker {
            line: ArrayVec::new(),
            long: false,
        }
    }

    // One more byte, and the line that it ended, if it did.
    pub fn step(&mut self, byte: u8) -> Option<Result<Request, BadLine>>
        ensures taker { self.new ≡ (t.step self.old byte).taker }
        ensures came { result ≡ (t.step self.old byte).came }
    {
        if byte == b'\n' {
            let line = self.whole();
            self.line.clear();
            self.long = false;
            return Some(line);
        }
        if self.line.try_push(byte).is_err() {
            self.long = true;
        }
        None
    }

    // What is left when the bytes end: a last line without a newline, if there is one.
    pub fn rest(&self) -> Option<Result<Request, BadLine>>
        ensures { result ≡ t.rest self.now }
    {
        if self.line.is_empty() {
            return None;
        }
        Some(self.whole())
    }

    // What the bytes since the last newline mean.
    fn whole(&self) -> Result<Request, BadLine>
        ensures { result ≡ t.whole self.now }
    {
        if self.long {
            return Err(BadLine);
        }
        parse(&self.line)
    }
}

// Output, gathered in a buffer and written in blocks.
ghost use Rattle.std.specs.Prelude.{◌≡◌, []};

use crate::failure::Failure;
use arrayvec::ArrayVec;
use line::{BadLine, Fields, TEXT_MOST};

// The bytes that wait.
#[derive(Drop)]
pub struct Output {
    waiting: ArrayVec<u8, 4096>,
}

impl Output {
    pub fn new() -> Output {
        let mut waiting = ArrayVec::new();
        line::write_bytes(&mut waiting, b"op answer events\n");
        Output { waiting }
    }

    // What is printed of a line waits after the others, or alone once these are written.
    pub fn push(&mut self, rt: &impl Print, told: Result<Fields, BadLine>) -> Result<(), Failure> {
        if self.waiting.remaining_capacity() < TEXT_MOST {
            self.write_out(rt)?;
        }
        line::write_text(&mut self.waiting, told);
        Ok(())
    }

    // Writes what waits. Where the write fails, what waits is given up.
    pub fn write_out(&mut self, rt: &impl Print) -> Result<(), Failure>
        ensures { self.new.waiting.items ≡ [] }
    {
        let told = rt.write_all(&self.waiting);
        self.waiting.clear();
        told.map_err(|_| Failure::Write)
    }
}

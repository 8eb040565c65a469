// Bytes, numbers and answers written into a lent slice: each call is handed a place there, and answers the place after what it wrote.
ghost use Rattle.std.specs.Prelude.{◌+◌, ◌≤◌, length};
ghost use Rattle.line.specs.Line.{digits};
ghost use Rattle.line.specs.Line as t;
ghost use Rattle.line.specs.inner.Written.{Wrote};

use crate::answering::{Fields, TEXT_MOST};
use crate::parsing::BadLine;
use arrayvec::ArrayVec;

// The digits of a number, at most.
const DIGITS_MOST: usize = 20;

#[tactic(auto, using(crate::proofs::Written::wrote_copy))]
pub fn write_bytes(out: &mut [u8], at: usize, bytes: &[u8]) -> usize
    requires { at + length bytes.now ≤ length out.old }
    ensures { Wrote bytes.now at out.old result out.new }
{
    let end = at + bytes.len();
    out[at..end].copy_from_slice(bytes);
    end
}

#[tactic(auto, using(crate::proofs::Decimal::length_digits, std::proofs::lemmas::Grind::common_steps))]
pub fn write_number(out: &mut [u8], at: usize, x: u64) -> usize
    requires { at + length (digits x) ≤ length out.old }
    ensures { Wrote (digits x) at out.old result out.new }
{
    let mut number = ArrayVec::<u8, DIGITS_MOST>::new();
    crate::write_number(&mut number, x);
    write_bytes(out, at, &number)
}

pub fn write_text(out: &mut [u8], at: usize, told: Result<Fields, BadLine>) -> usize
    requires { at + t.text_most ≤ length out.old }
    ensures { Wrote (t.text told) at out.old result out.new }
{
    let mut text = ArrayVec::<u8, TEXT_MOST>::new();
    crate::write_text(&mut text, told);
    write_bytes(out, at, &text)
}

// What ends the program before its input does.
use std::fmt;

#[derive(Clone, Copy)]
pub enum Failure {
    Read,
    Write,
}

impl fmt::Display for Failure {
    fn fmt<W: fmt::Write>(&self, f: &mut fmt::Formatter<W>) -> fmt::Result {
        match self {
            Failure::Read => write!(f, "cannot read its input"),
            Failure::Write => write!(f, "cannot write its answers"),
        }
    }
}

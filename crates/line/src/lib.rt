// Lines of text: what a line asks, the text of its answer, and a line taken byte by byte as the bytes come.
#![tactic(auto)]

mod answering;
pub mod lent;
mod numbers;
mod parsing;
mod taking;
mod writing;

pub use answering::{Fields, TEXT_MOST, write_text};
pub use numbers::read_number;
pub use parsing::{BadLine, LINE_MOST, parse};
pub use taking::Taker;
pub use writing::{write_bytes, write_number};

// One member's program: reads lines, asks a fresh pool of 100 nodes through a desk, and prints an answer for each line. Where a read or a
// write fails, it says so on standard error and ends with status 1.
#![tactic(auto)]

mod failure;
mod output;
mod sitting;

use sitting::Sitting;
use std::process::ExitCode;

fn main(rt: HostRuntime) -> ExitCode {
    let mut sitting = Sitting::new();
    if let Err(failure) = sitting.answer_all(&rt, &mut rt.stdin()) {
        // Where the message cannot be written either, the status alone tells.
        let _ = eprintln!(rt; "member: {failure}");
        return ExitCode::FAILURE;
    }
    ExitCode::SUCCESS
}

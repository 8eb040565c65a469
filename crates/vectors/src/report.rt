// A line for each case: that it is ok, or what came.
use std::io;
use trials::tally::Tally;

pub fn tell_whether(rt: &impl Print, name: &str, good: bool) -> io::Result<()> {
    let answer = if good { "ok" } else { "differs" };
    print!(rt; "{name}")?;
    println!(rt; ": {answer}")
}

// What came is held against what was worked out.
pub fn tell(rt: &impl Print, name: &str, came: Tally, want: Tally) -> io::Result<()> {
    let good = came == want;
    tell_whether(rt, name, good)?;
    if good {
        return Ok(());
    }
    println!(rt; "  {came}")
}

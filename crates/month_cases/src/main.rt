//! Bills the stored months and compares every line with what a second program computed for them.
#![tactic(auto)]

use case_texts::compare;
use month_bill::answer::answer;
use std::io;

/// How many months are stored.
const COUNT: u32 = 217;

fn main(rt: HostRuntime) -> io::Result<()> {
    let agreeing = compare(&rt, "month", COUNT, answer)?;
    println!(rt; "{agreeing} of {COUNT} months agree")
}

//! Runs the stored journals and compares every line with what a second program computed for them.
#![tactic(auto)]

use case_texts::compare;
use journal_run::answer::answer;
use std::io;

/// How many journals are stored.
const COUNT: u32 = 54;

fn main(rt: HostRuntime) -> io::Result<()> {
    let agreeing = compare(&rt, "journal", COUNT, answer)?;
    println!(rt; "{agreeing} of {COUNT} journals agree")
}

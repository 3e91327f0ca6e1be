//! Reads a journal on standard input, runs it on one ledger, and prints what each entry came to.
#![tactic(auto)]

use journal_run::answer::answer;
use std::io;
use std::io::Read;

fn main(rt: HostRuntime) -> io::Result<()> {
    let mut journal = Vec::new(rt.alloc());
    let _ = rt.stdin().read_to_end(&mut journal)?;
    let text = answer(rt.alloc(), journal.as_slice())?;
    print!(rt; "{text}")
}

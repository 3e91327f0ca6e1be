//! Reads a month's text on standard input and prints its charges, or the line of its refusal.
#![tactic(auto)]

ghost use Rattle.std.specs.Prelude.{◌≤◌, length, IfOk};

use limits::MOST_TEXT_BYTES;
use month_bill::answer::answer;
use std::io;
use std::io::Read;

/// Reads until the memory is full or the input ends, and gives the number of bytes read.
fn fill<R: Read>(input: &mut R, memory: &mut [u8]) -> io::Result<usize>
    ensures { IfOk result (λ n. n ≤ length memory.old) }
{
    let mut len = 0;
    while len < memory.len() {
        let n = input.read(&mut memory[len..])?;
        if n == 0 {
            break;
        }
        len += n;
    }
    Ok(len)
}

fn main(rt: HostRuntime) -> io::Result<()> {
    // One byte more than the longest text, so that a longer one is seen.
    let mut memory = [0u8; MOST_TEXT_BYTES + 1];
    let len = fill(&mut rt.stdin(), &mut memory)?;
    let text = answer(rt.alloc(), &memory[0..len])?;
    print!(rt; "{text}")
}

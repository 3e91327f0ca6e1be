//! Texts that are stored with their answers, as 001.txt, 001.out, 002.txt and so on.
#![tactic(auto)]

ghost use Rattle.std.specs.Prelude.{◌≤◌, IfOk};

use std::alloc::{AllocError, Global};
use std::{fs, io};

/// Whether a stored text's answer is the stored one.
fn agrees<F>(rt: &HostRuntime, number: u32, answer: &F) -> io::Result<bool>
where
    F: Fn(Global, &[u8]) -> Result<String, AllocError>,
    requires { F.IsAlwaysCallable answer.now }
{
    let heap = rt.alloc();
    let text_name = format!(in heap; "{number:03}.txt")?;
    let answer_name = format!(in heap; "{number:03}.out")?;
    let text = fs::read(rt, text_name.as_str())?;
    let wanted = fs::read(rt, answer_name.as_str())?;
    let got = answer(heap, text.as_slice())?;
    Ok(got.as_bytes() == wanted.as_slice())
}

/// Compares the answers to the first stored texts with the stored ones, prints each that differs, and
/// gives how many agree.
pub fn compare<F>(rt: &HostRuntime, word: &str, count: u32, answer: F) -> io::Result<u32>
where
    F: Fn(Global, &[u8]) -> Result<String, AllocError>,
    requires { F.IsAlwaysCallable answer }
    ensures { IfOk result (λ agreeing. agreeing ≤ count) }
{
    let mut agreeing = 0u32;
    for number in 1..=count {
        if agrees(rt, number, &answer)? {
            agreeing += 1;
        } else {
            println!(rt; "{word} {number:03} differs")?;
        }
    }
    Ok(agreeing)
}

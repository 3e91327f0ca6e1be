//! Does one of billing's tasks a number of times and prints a sum of what came of it. Its arguments
//! are a task or `all`, a count of members and a count of turns; the text to be read is on standard input.
#![tactic(auto)]

mod bills;
mod ferc_months;
mod mixing;
mod month;
mod readings;

use crate::bills::{bills, resettlements};
use crate::ferc_months::ferc_months;
use crate::readings::readings;
use anyhow::{Context, anyhow};
use sharing::posted::Posted;
use sharing::ratio::Ratio;
use std::alloc::Global;
use std::env;
use std::io::Read;

/// The tasks, by which a program in plain Rust is asked for them too.
const TASKS: [&str; 8] = [
    "bill_posted",
    "bill_ratio",
    "resettle_8_posted",
    "resettle_8_ratio",
    "resettle_11_posted",
    "resettle_11_ratio",
    "read",
    "ferc",
];

/// Does a task: the sum of what came of it.
fn do_task(
    heap: Global,
    task: &str,
    members: u32,
    count: u32,
    text: &mut [u8],
) -> anyhow::Result<i64> {
    match task {
        "bill_posted" => bills(heap, Posted, members, count),
        "bill_ratio" => bills(heap, Ratio, members, count),
        "resettle_8_posted" => resettlements(heap, Posted, 8, members, count),
        "resettle_8_ratio" => resettlements(heap, Ratio, 8, members, count),
        "resettle_11_posted" => resettlements(heap, Posted, 11, members, count),
        "resettle_11_ratio" => resettlements(heap, Ratio, 11, members, count),
        "read" => readings(text, count),
        "ferc" => ferc_months(heap, members, count),
        _ => Err(anyhow!("no such task")),
    }
}

fn main(rt: HostRuntime) -> anyhow::Result<()> {
    let heap = rt.alloc();
    let mut words = env::args(&rt)?.skip(1);
    let wanted = words.next().context("no task is given")?;
    let members = words.next().context("no members are given")?.parse()?;
    let count = words.next().context("no turns are given")?.parse()?;
    let mut text = Vec::new(heap);
    let _ = rt.stdin().read_to_end(&mut text)?;
    for task in TASKS {
        if wanted.as_str() == "all" || wanted.as_str() == task {
            let sum = do_task(heap, task, members, count, text.as_mut_slice())?;
            println!(rt; "{task}: {sum}")?;
        }
    }
    Ok(())
}

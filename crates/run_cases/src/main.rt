//! Carries out the stored runs and compares every step with what a second program computed.
#![tactic(auto)]

mod found;
mod numbers;
mod stored;

use crate::found::found_after;
use crate::numbers::{Numbers, numbers_of};
use crate::stored::{StoredRun, run_of};
use sharing::rule::Rule;
use sharing::with_rule;
use std::alloc::Global;
use std::fs;

/// The runs are stored as 01.txt, 01.out, 02.txt and so on.
const COUNT: u32 = 16;

/// The first step that is not found as it is stored, if any; a step is one order more.
fn differing_step<R: Rule + Copy + Drop>(
    heap: Global,
    rule: R,
    stored: &StoredRun,
    wanted: &[i64],
) -> anyhow::Result<Option<usize>> {
    let mut rest = wanted;
    for step in 0..=stored.orders.len() {
        let found = found_after(heap, rule, stored, step)?;
        let Some(others) = rest.strip_prefix(found.as_slice()) else {
            return Ok(Some(step));
        };
        rest = others;
    }
    // numbers that are left belong to the last step
    Ok((!rest.is_empty()).then_some(stored.orders.len()))
}

/// The numbers of a stored file.
fn read(rt: &HostRuntime, name: &str) -> anyhow::Result<Vec<i64>> {
    let text = fs::read(rt, name)?;
    Ok(numbers_of(rt.alloc(), text.as_slice())?)
}

/// Carries out one run step by step; says whether all agree.
fn agrees(rt: &HostRuntime, number: u32) -> anyhow::Result<bool> {
    let heap = rt.alloc();
    let run_name = format!(in heap; "{number:02}.txt")?;
    let found_name = format!(in heap; "{number:02}.out")?;
    let all = read(rt, run_name.as_str())?;
    let wanted = read(rt, found_name.as_str())?;
    let stored = run_of(heap, &mut Numbers::new(all.as_slice()))?;
    let differing = with_rule!(
        stored.rule,
        |rule| differing_step(heap, rule, &stored, wanted.as_slice())
    )?;
    if let Some(step) = differing {
        println!(rt; "{number:02}: step {step} differs")?;
        return Ok(false);
    }
    let steps = stored.orders.len().saturating_add(1);
    println!(rt; "{number:02}: {steps} steps agree")?;
    Ok(true)
}

fn main(rt: HostRuntime) -> anyhow::Result<()> {
    let mut agreeing = 0u32;
    for number in 1..=COUNT {
        agreeing += u32::from(agrees(&rt, number)?);
    }
    println!(rt; "{agreeing} of {COUNT} runs agree")?;
    Ok(())
}

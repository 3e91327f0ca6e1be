//! Cutting an amount over weights, so that the parts add up to it again.
ghost use Rattle.std.specs.Prelude.{◌≡◌, ◌≢◌, ◌<◌, ◌≤◌, IfSome, min, length, sum};
ghost use Rattle.cents.specs.Cutting.{cut, parts_up_to, taken, sum_z};
ghost use Rattle.cents.specs.Rounding.{Inside};

use crate::rounding::down;
use crate::weights::total;
use limits::{MOST_CENTS, MOST_UNITS};

/// What the weights up to a running sum take of the amount, rounded down. A running sum above the
/// whole counts as the whole.
pub fn taken(amount: i64, run: u64, whole: u64) -> i64
    ensures value { result ≡ taken amount whole (min run whole) }
    ensures inside { Inside amount result }
{
    let run = run.min(whole);
    match taken_in_64_bits(amount, run, whole) {
        Some(cents) => cents,
        None => down(i128::from(amount) * i128::from(run), whole) as i64,
    }
}

/// The same for a running sum of at most the whole, where the amount is no more than a pool may be and the
/// whole no more than units may be: their product fits 64 bits, in which a division is much the faster.
/// None where one is more, or the whole is 0.
fn taken_in_64_bits(amount: i64, run: u64, whole: u64) -> Option<i64>
    requires { run ≤ whole }
    ensures { IfSome result (λ cents. cents ≡ taken amount whole run) }
{
    if whole == 0 || amount.unsigned_abs() > MOST_CENTS || whole > MOST_UNITS {
        return None;
    }
    Some((amount * run as i64).div_euclid(whole as i64))
}

/// Writes what each weight takes of the amount, after those before it. Where there is not one place
/// for each weight, nothing is written; a running sum above the whole counts as the whole.
pub fn split(amount: i64, whole: u64, weights: &[u32], out: &mut [i64])
    ensures parts { length weights.now ≡ length out.old → out.new ≡ parts_up_to amount whole 0 weights.now }
    ensures short { length weights.now ≢ length out.old → out.new ≡ out.old }
    ensures cut { length weights.now ≡ length out.old → whole ≡ sum weights.now → out.new ≡ cut amount weights.now }
{
    if weights.len() != out.len() {
        return;
    }
    let mut run = 0u64;
    let mut before = 0i64;
    for (i, weight) in weights.iter().enumerate() {
        run = run.saturating_add(u64::from(*weight));
        let upto = taken(amount, run, whole);
        out[i] = upto - before;
        before = upto;
    }
}

/// The parts of an amount by weights: each is what the weights up to its own take, less what those
/// before it take. Where the weights add up to more than 0, the parts add up to the amount.
pub fn cut<const N: usize>(amount: i64, weights: [u32; N]) -> [i64; N]
    requires few { N ≤ 65536 }
    ensures parts { result ≡ cut amount weights.entry }
    ensures whole { 0 < sum weights.entry → sum_z result ≡ amount }
{
    let mut parts = [0i64; N];
    split(amount, total(&weights), &weights, &mut parts);
    parts
}

//! Lines whose numbers lie in their ranges.
ghost use Rattle.std.specs.Prelude.{◌≡◌, ◌^◌, ◌<◌, ◌≤◌, IfSome, IfOk, sum};
ghost use Rattle.std.specs.List.{list_all};
ghost use Rattle.refusal.specs.Answers.{answer_by};
ghost use Rattle.month_text.specs.Accepted.{EachTo, EachWithin};
ghost use Rattle.month_text.specs.Ranges.{natural_in, amount_in, each, number_at_line, naturals_at, amounts_at, weights_at};

use crate::lines::line;
use cents::weights::adds_up;
use refusal::{Fault, Layer, Refusal};

/// The fault of a line that does not have the form that it must have.
pub(crate) fn off_layout(line_number: u32) -> Fault
    ensures { result ≡ record { refusal = Refusal.Layout; layer = Layer.Text; place = line_number } }
{
    Layer::Text.refuses_at(Refusal::Layout, line_number)
}

/// The fault of a line that has a number outside its range.
pub(crate) fn out_of_range(line_number: u32) -> Fault
    ensures { result ≡ record { refusal = Refusal.Range; layer = Layer.Text; place = line_number } }
{
    Layer::Text.refuses_at(Refusal::Range, line_number)
}

/// The number without a sign, where it lies from `low` to `high`.
// Two numbers and no `RangeInclusive`: that one also says whether it is used up.
fn natural(x: i64, low: u32, high: u32) -> Option<u32>
    ensures value { result ≡ natural_in low high x }
    ensures range { IfSome result (λ n. (low ≤ n) × (n ≤ high)) }
{
    let n = u32::try_from(x).ok()?;
    (low..=high).contains(&n).then_some(n)
}

/// All numbers without signs, where each lies from `low` to `high`.
fn each_natural<const K: usize>(xs: [i64; K], low: u32, high: u32) -> Option<[u32; K]>
    ensures value { result ≡ each (natural_in low high) xs.entry }
    ensures range { IfSome result (λ ns. EachTo high ns) }
{
    let mut numbers = [0u32; K];
    for (i, x) in xs.iter().enumerate() {
        numbers[i] = natural(*x, low, high)?;
    }
    Some(numbers)
}

/// Whether each amount lies within ±`most`.
fn all_bounded<const K: usize>(xs: [i64; K], most: u64) -> bool
    ensures { result ≡ list_all (amount_in most) xs.entry }
{
    xs.iter().all(|x| x.unsigned_abs() <= most)
}

/// A line of `K` numbers from `low` to `high`, and the text after it.
// The text and its line number are two: a cursor would have to count up to the number.
pub(crate) fn naturals<'a, const K: usize>(
    key: &[u8],
    low: u32,
    high: u32,
    line_number: u32,
    s: &'a [u8],
) -> Result<([u32; K], &'a [u8]), Fault>
    requires { K < 2 ^ 16 }
    ensures value { answer_by (λ p. (p.0, p.1.now)) result ≡ naturals_at key.now K low high line_number s.now }
    ensures range { IfOk result (λ p. EachTo high p.0) }
{
    let Some(read) = line::<K>(key, false, s) else {
        return Err(off_layout(line_number));
    };
    let (read, rest) = read;
    let Some(numbers) = each_natural(read, low, high) else {
        return Err(out_of_range(line_number));
    };
    Ok((numbers, rest))
}

/// A line of one number from `low` to `high`, and the text after it.
pub(crate) fn number_line<'a>(
    key: &[u8],
    low: u32,
    high: u32,
    line_number: u32,
    s: &'a [u8],
) -> Result<(u32, &'a [u8]), Fault>
    ensures value { answer_by (λ p. (p.0, p.1.now)) result ≡ number_at_line key.now low high line_number s.now }
    ensures range { IfOk result (λ p. (low ≤ p.0) × (p.0 ≤ high)) }
{
    let ([number], rest) = naturals::<1>(key, low, high, line_number, s)?;
    Ok((number, rest))
}

/// A line of `K` signed amounts within ±`most`, and the text after it.
pub(crate) fn amounts<'a, const K: usize>(
    key: &[u8],
    most: u64,
    line_number: u32,
    s: &'a [u8],
) -> Result<([i64; K], &'a [u8]), Fault>
    ensures value { answer_by (λ p. (p.0, p.1.now)) result ≡ amounts_at key.now K most line_number s.now }
    ensures range { IfOk result (λ p. EachWithin most p.0) }
{
    let Some(read) = line::<K>(key, true, s) else {
        return Err(off_layout(line_number));
    };
    let (amounts, rest) = read;
    if !all_bounded(amounts, most) {
        return Err(out_of_range(line_number));
    }
    Ok((amounts, rest))
}

/// A line of `K` thousandths that add up to 1,000, and the text after it.
pub(crate) fn weights<'a, const K: usize>(
    key: &[u8],
    line_number: u32,
    s: &'a [u8],
) -> Result<([u32; K], &'a [u8]), Fault>
    requires { K < 2 ^ 16 }
    ensures value { answer_by (λ p. (p.0, p.1.now)) result ≡ weights_at key.now K line_number s.now }
    ensures range { IfOk result (λ p. EachTo 1000 p.0) }
    ensures whole { IfOk result (λ p. sum p.0 ≡ 1000) }
{
    let (weights, rest) = match naturals::<K>(key, 0, 1000, line_number, s) {
        Ok(read) => read,
        Err(fault) => return Err(fault),
    };
    if !adds_up(weights, 1000) {
        return Err(Layer::Sheet.refuses_at(Refusal::Weights, line_number));
    }
    Ok((weights, rest))
}

//! Rows of weights.
ghost use Rattle.std.specs.Prelude.{◌≡◌, ◌-◌, ◌^◌, ◌≤◌, length, min, sum, ◌==◌, nat_le};
ghost use Rattle.cents.specs.Passes.{all_pass};

/// A row of at most so many weights is added up with no test at each: its sum fits 64 bits.
const FEW: usize = 65_536;

/// The sum of a row of weights, which stops growing at the largest 64-bit number: no row of at most
/// 65,536 weights reaches it.
pub fn total(weights: &[u32]) -> u64
    ensures value { result ≡ min (sum weights.now) (2 ^ 64 - 1) }
    ensures exact { length weights.now ≤ 65536 → result ≡ sum weights.now }
{
    if weights.len() <= FEW {
        return weights.iter().map(|weight| u64::from(*weight)).sum();
    }
    weights
        .iter()
        .fold(0u64, |sum, weight| sum.saturating_add(u64::from(*weight)))
}

/// Whether the weights add up to a whole.
pub fn adds_up<const N: usize>(weights: [u32; N], whole: u32) -> bool
    ensures { result ≡ (sum weights.entry == whole) }
{
    total(&weights) == u64::from(whole)
}

/// Whether each number is at most a bound.
pub fn each_at_most<const N: usize>(numbers: [u32; N], most: u32) -> bool
    ensures { result ≡ all_pass (λ n. nat_le n most) numbers.entry }
{
    numbers.iter().all(|number| *number <= most)
}

//! Sums of amounts.
ghost use Rattle.std.specs.Prelude.{◌≡◌, ◌*◌, ◌^◌, ◌≤◌, length, unsigned_abs};
ghost use Rattle.cents.specs.Cutting.{sum_z};

/// The sum of amounts, in a type that holds it however many they are.
pub fn sum_of(amounts: &[i64]) -> i128
    ensures sum { result ≡ sum_z amounts.now }
    ensures small { unsigned_abs result ≤ 2 ^ 63 * length amounts.now }
{
    let mut sum = 0i128;
    for amount in amounts {
        sum += i128::from(*amount);
    }
    sum
}

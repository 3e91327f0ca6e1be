//! Rounding: down is toward minus infinity, for credits too; nearest rounds halves up.
ghost use Rattle.std.specs.Prelude.{◌≡◌, ◌*◌, ◌<◌};
ghost use Rattle.cents.specs.Rounding.{round_down, round_nearest, Largest, Closest};

/// The largest whole number not above a ÷ b; 0 where b is 0.
pub fn down(a: i128, b: u64) -> i128
    ensures value { result ≡ round_down a b }
    ensures largest { 0 < b → Largest a b result }
{
    if b == 0 {
        return 0;
    }
    a.div_euclid(i128::from(b))
}

/// The whole number nearest to a ÷ b, halves up; 0 where b is 0.
pub fn nearest(a: i64, b: u64) -> i64
    ensures value { result ≡ round_nearest a b }
    ensures closest { 0 < b → Closest a b result }
{
    if b == 0 {
        return 0;
    }
    let doubled = 2 * i128::from(a) + i128::from(b);
    doubled.div_euclid(2 * i128::from(b)) as i64
}

/// The whole cents nearest to an amount in hundredths of a cent, halves up.
pub fn nearest_cents(hundredths: i64) -> i64
    ensures { result ≡ round_nearest hundredths 100 }
{
    // Half of it first, down: (x + 50) ÷ 100 in one step overflows at the largest amounts
    ((hundredths >> 1) + 25).div_euclid(50)
}

//! A use of any rule.
ghost use Rattle.std.specs.Prelude.{◌≡◌, ◌≤◌, true, ◌-ℤ◌, sum, unsigned_abs};
ghost use Rattle.cents.specs.Cutting.{sum_z};
ghost use Rattle.sharing.specs.Domain.{shareable};
ghost use Rattle.sharing.specs.Tolerance.{slack};

use cents::totals::sum_of;
use sharing::rule::Rule;

/// What three members bear together.
pub fn together<R: Rule>(rule: &R, pool: i64, units: [u32; 3]) -> i64
    ensures value { result ≡ sum_z (R.shares rule.now pool units) }
    ensures near { shareable pool units ≡ true → unsigned_abs (pool -ℤ result) ≤ slack 3 R.STEP (sum units) }
{
    let mut out = [0i64; 3];
    rule.share(pool, &units, &mut out);
    sum_of(&out) as i64
}

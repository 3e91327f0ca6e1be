//! What can be shared.
ghost use Rattle.std.specs.Prelude.{◌≡◌, ◌&&◌, ◌==◌, if◌then◌else◌, length, Some, None, sum};
ghost use Rattle.sharing.specs.Domain.{in_domain, shareable};
ghost use Rattle.sharing.specs.Shares.{shares_written, shared};

use cents::weights::total;
use limits::{MOST_CENTS, MOST_UNITS};

/// Whether a pool can be shared over so many units.
pub fn in_domain(pool: i64, total: u64) -> bool
    ensures { result ≡ in_domain pool total }
{
    pool.unsigned_abs() <= MOST_CENTS && 1 <= total && total <= MOST_UNITS
}

/// The total to share over; none where nothing is shared: then each place gets 0, or stays where
/// there is not one for each member.
pub fn total_or_clear(pool: i64, units: &[u32], out: &mut [i64]) -> Option<u64>
    ensures over { result ≡ (if length units.now == length out.old && shareable pool units.now then Some (sum units.now) else None) }
    ensures rest { out.new ≡ shares_written units.now out.old (shared pool units.now out.old) }
{
    if units.len() != out.len() {
        return None;
    }
    let total = total(units);
    if !in_domain(pool, total) {
        out.fill(0);
        return None;
    }
    Some(total)
}

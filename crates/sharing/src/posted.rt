//! The rule of a posted rate.
ghost use Rattle.std.specs.Prelude.{◌≡◌, ◌*◌, ◌≤◌, sum, unsigned_abs};
ghost use Rattle.sharing.specs.Posted.{posted_rate, posted_share, posted};
ghost use Rattle.std.proofs.lemmas.List.{length-map};
ghost use Rattle.sharing.specs.LawsOfRules.{map_unused, shared_long, shared_idle, shared_fair, shared_unused};
ghost use Rattle.std.proofs.Common.{rules};
ghost use Rattle.sharing.specs.LawsOfPosted.{each_near, posted_none};

use crate::domain::{in_domain, total_or_clear};
use crate::rule::Rule;
use crate::writing::write_shares;
use cents::rounding::{nearest, nearest_cents};

/// The rate of a unit, in hundredths of a cent; 0 where nothing can be shared.
pub fn posted_rate(pool: i64, total: u64) -> i64
    ensures { result ≡ posted_rate pool total }
{
    if !in_domain(pool, total) {
        return 0;
    }
    nearest(100 * pool, total)
}

/// What a member's units bear at a rate, in cents.
fn posted_share(rate: i64, units: u32) -> i64
    requires { unsigned_abs rate * units ≤ 1000000000000 }
    ensures { result ≡ posted_share rate units }
{
    nearest_cents(rate * i64::from(units))
}

/// Each member bears its units at one rate, which is posted to the nearest hundredth of a cent.
#[derive(Clone, Copy)]
pub struct Posted;

impl Rule for Posted {
    const STEP: u32 = 1;

    ghost STEP = { 1 };

    ghost shares = { λ x p us. posted p us };

    ghost stepped = { Prim.search rules };

    ghost long = { λ x p us. shared_long p us _ (length-map us _) };

    ghost idle = { λ x p us e. shared_idle p us _ e };

    ghost fair = { λ x p us e. shared_fair 1 p us _ e (each_near p us e) };

    ghost unused = { λ x p us m e. shared_unused p us _ m (map_unused _ us m (posted_none (posted_rate p (sum us))) e) };

    fn share(&self, pool: i64, units: &[u32], out: &mut [i64]) {
        if let Some(total) = total_or_clear(pool, units, out) {
            let rate = posted_rate(pool, total);
            write_shares(units, out, |member| posted_share(rate, member));
        }
    }
}

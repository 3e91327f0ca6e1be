//! The rule of shares that are each rounded by themselves.
ghost use Rattle.std.specs.Prelude.{◌≡◌, ◌*◌, ◌≤◌, map, sum, unsigned_abs};
ghost use Rattle.sharing.specs.Shares.{shared};
ghost use Rattle.rule_cases.specs.Exact.{exact_share};
ghost use Rattle.std.proofs.lemmas.List.{length-map};
ghost use Rattle.sharing.specs.LawsOfRules.{map_unused, shared_long, shared_idle, shared_fair, shared_unused};
ghost use Rattle.std.proofs.Common.{rules};
ghost use Rattle.rule_cases.specs.LawsOfExact.{each_exact, exact_none};
ghost use Rattle.limits.specs.declared.TheConstants.{MOST_CENTS, MOST_UNITS};

use cents::rounding::nearest;
use sharing::domain::total_or_clear;
use sharing::rule::Rule;
use sharing::writing::write_shares;

/// The nearest to a member's exact part of the pool.
fn exact_share(pool: i64, total: u64, units: u32) -> i64
    requires { unsigned_abs pool * units ≤ MOST_CENTS * MOST_UNITS }
    ensures { result ≡ exact_share pool total units }
{
    nearest(pool * i64::from(units), total)
}

/// Each member bears its exact part of the pool, to the nearest cent.
#[derive(Clone, Copy)]
pub struct Exact;

impl Rule for Exact {
    const STEP: u32 = 0;

    ghost STEP = { 0 };

    ghost shares = { λ x p us. shared p us (map (exact_share p (sum us)) us) };

    ghost stepped = { Prim.search rules };

    ghost long = { λ x p us. shared_long p us _ (length-map us _) };

    ghost idle = { λ x p us e. shared_idle p us _ e };

    ghost fair = { λ x p us e. shared_fair 0 p us _ e (each_exact p us e) };

    ghost unused = { λ x p us m e. shared_unused p us _ m (map_unused _ us m (exact_none p (sum us)) e) };

    fn share(&self, pool: i64, units: &[u32], out: &mut [i64]) {
        if let Some(total) = total_or_clear(pool, units, out) {
            write_shares(units, out, |member| exact_share(pool, total, member));
        }
    }
}

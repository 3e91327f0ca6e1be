//! The rule of ratio shares.
ghost use Rattle.std.specs.Prelude.{sum};
ghost use Rattle.cents.specs.Cutting.{cut};
ghost use Rattle.cents.proofs.Parts.{cut_length};
ghost use Rattle.sharing.specs.Ratio.{ratio};
ghost use Rattle.sharing.specs.LawsOfRules.{in_domain_lem, shared_long, shared_idle, shared_fair, shared_unused};
ghost use Rattle.sharing.specs.LawsOfRatio.{part_near, part_unused};
ghost use Rattle.std.proofs.Common.{rules};

use crate::domain::total_or_clear;
use crate::rule::Rule;
use cents::cutting::split;

/// Each member bears its part of the pool, and all parts together are the pool.
#[derive(Clone, Copy)]
pub struct Ratio;

impl Rule for Ratio {
    const STEP: u32 = 0;

    ghost STEP = { 0 };

    ghost shares = { λ x p us. ratio p us };

    ghost stepped = { Prim.search rules };

    ghost long = { λ x p us. shared_long p us (cut p us) (cut_length p us) };

    ghost idle = { λ x p us e. shared_idle p us (cut p us) e };

    ghost fair = { λ x p us e. shared_fair 0 p us (cut p us) e (λ m. part_near p (sum us) 0 us m (in_domain_lem p (sum us) e).1) };

    ghost unused = { λ x p us m e. shared_unused p us (cut p us) m (part_unused p (sum us) 0 us m e) };

    fn share(&self, pool: i64, units: &[u32], out: &mut [i64]) {
        if let Some(total) = total_or_clear(pool, units, out) {
            split(pool, total, units, out);
        }
    }
}

//! What every rule keeps to.
ghost use Rattle.std.specs.Prelude.{◌≡◌, ℕ, ◌+◌, ◌≤◌, true, List, length, take, ℤ, pos, ◌-ℤ◌, sum, slice_index_or, unsigned_abs};
ghost use Rattle.cents.specs.Cutting.{sum_z};
ghost use Rattle.sharing.specs.Domain.{shareable};
ghost use Rattle.sharing.specs.Tolerance.{slack};
ghost use Rattle.limits.specs.declared.TheConstants.{MOST_SHARED};

use crate::rule::Rule;

/// The step of a rule, and how far its shares may lie from the pool: each of them, those of the
/// first members, and all together.
pub fn bounds<R: Rule>() -> u32
    ensures value { result ≡ R.STEP }
    ensures each { (x : R) (p : ℤ) (us : List ℕ) (m : ℕ) → unsigned_abs (slice_index_or (R.shares x p us) m (pos 0)) ≤ MOST_SHARED + 1 }
    ensures first { (x : R) (p : ℤ) (us : List ℕ) (k : ℕ) → unsigned_abs (sum_z (take k (R.shares x p us))) ≤ MOST_SHARED + k }
    ensures together { (x : R) (p : ℤ) (us : List ℕ) → shareable p us ≡ true
        → unsigned_abs (p -ℤ sum_z (R.shares x p us)) ≤ slack (length us) R.STEP (sum us) }
{
    R::STEP
}

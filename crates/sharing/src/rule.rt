//! What it is to share a pool among the members.
ghost use Rattle.std.specs.Prelude.{◌≡◌, ℕ, ◌≤◌, true, false, List, length, ℤ, pos, slice_index, slice_index_or};
ghost use Rattle.sharing.specs.Domain.{shareable};
ghost use Rattle.sharing.specs.Shares.{no_shares, shares_written};
ghost use Rattle.sharing.specs.Tolerance.{EachNear};

/// A rule that shares a pool among the members by their units.
pub trait Rule {
    /// The step in which the rule posts its rate, in hundredths of a cent, at most 100; 0 where it
    /// posts none.
    const STEP: u32;

    ghost STEP: { ℕ };

    // the shares, in cents, of a pool and the members' units
    ghost shares: { Self → ℤ → List ℕ → List ℤ };

    /// Writes the shares of all members. Where there is not one place for each, nothing is written.
    fn share(&self, pool: i64, units: &[u32], out: &mut [i64])
        ensures { out.new ≡ shares_written units.now out.old (shares self.now pool units.now) };

    ghost stepped: { STEP ≤ 100 };

    // each member has a share
    ghost long: { (x : Self) (p : ℤ) (us : List ℕ) → length (shares x p us) ≡ length us };

    // where nothing can be shared, nobody bears anything
    ghost idle: { (x : Self) (p : ℤ) (us : List ℕ) → shareable p us ≡ false → shares x p us ≡ no_shares us };

    // each share lies near its exact part of the pool
    ghost fair: { (x : Self) (p : ℤ) (us : List ℕ) → shareable p us ≡ true → EachNear STEP p us (shares x p us) };

    // who used nothing bears nothing
    ghost unused: { (x : Self) (p : ℤ) (us : List ℕ) (m : ℕ) → slice_index us m ≡ 0 → slice_index_or (shares x p us) m (pos 0) ≡ pos 0 };
}

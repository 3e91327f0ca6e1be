//! How a member's row in some office's form becomes units of the seven kinds.
ghost use Rattle.std.specs.Prelude.{◌≡◌, ℕ, ◌≤◌, List, Some, Option, slice_index};
ghost use Rattle.limits.specs.declared.TheConstants.{MOST_UNITS};

/// Reads a member's row as units, or finds it out of range.
pub trait Measure<R> {
    ghost reads: { Self → R → Option (List ℕ) };

    /// The row's units of the seven kinds.
    fn read(&self, row: &R) -> Option<[u32; 7]>
        ensures { result ≡ reads self.now row.now };

    ghost small: { (x : Self) (row : R) (units : List ℕ) → reads x row ≡ Some units → (k : ℕ) → slice_index units k ≤ MOST_UNITS };
}

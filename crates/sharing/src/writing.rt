//! Shares that a function makes of the members' units.
ghost use Rattle.std.specs.Prelude.{◌≡◌, ◌≢◌, ℕ, ◌<◌, length, pos, slice_index, slice_index_or};

/// Writes what a function makes of each member's units into the member's place. Where there is not
/// one place for each member, nothing is written.
pub fn write_shares<F: Fn(u32) -> i64>(units: &[u32], out: &mut [i64], share: F)
    requires callable { (m : ℕ) → m < length units.now → F.pre share (slice_index units.now m) }
    ensures shares { length units.now ≡ length out.old
        → (m : ℕ) → m < length units.now → F.post share (slice_index units.now m) (slice_index_or out.new m (pos 0)) }
    ensures short { length units.now ≢ length out.old → out.new ≡ out.old }
{
    if units.len() != out.len() {
        return;
    }
    for (i, member) in units.iter().enumerate() {
        out[i] = share(*member);
    }
}

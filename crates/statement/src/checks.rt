//! What is tested before anything is charged.
ghost use Rattle.std.specs.Prelude.{◌≡◌, ℕ, ◌*◌, ◌<◌, ◌≤◌, IfOk, length, pos, sum, slice_index_or, unsigned_abs};
ghost use Rattle.refusal.specs.Answers.{answer, answer_by};
ghost use Rattle.statement.specs.Columns.{column};
ghost use Rattle.statement.specs.Checks.{totals_rule, pools_rule, charge_rule};
ghost use Rattle.limits.specs.declared.TheConstants.{MOST_CENTS, MOST_UNITS};

use crate::component::Component;
use crate::kind::Kind;
use crate::usage::Usage;
use limits::{MOST_CENTS, MOST_UNITS, count_lawful};
use refusal::{Fault, Layer, Refusal};

/// A month that passed all tests; only `test` makes one.
#[derive(Drop)]
pub(crate) struct TestedMonth<'a> {
    pub pools: [i64; 13],
    pub units: Usage<'a>,
    ghost within: { (c : ℕ) → unsigned_abs (slice_index_or pools c (pos 0)) ≤ MOST_CENTS },
    ghost totals: { (k : ℕ) → k < 7 → sum (column units.rows.now k) ≤ MOST_UNITS },
}

impl<'a> TestedMonth<'a> {
    /// All tests of a month, in their order.
    pub(crate) fn test(pools: [i64; 13], rows: &'a [[u32; 7]], cells: usize) -> Result<Self, Fault>
        ensures answered { answer_by (λ _. tt) result ≡ charge_rule pools rows.now cells }
        ensures kept { IfOk result (λ m. (m.pools ≡ pools) × (m.units.rows.now ≡ rows.now) × (cells ≡ 13 * length rows.now)) }
    {
        if rows.len().checked_mul(13) != Some(cells) {
            return Err(Layer::Ledger.refuses(Refusal::Length));
        }
        if !count_lawful(rows.len()) {
            return Err(Layer::Ledger.refuses(Refusal::Count));
        }
        let units = Usage { rows };
        check_totals(&units)?;
        check_pools(pools)?;
        Ok(TestedMonth { pools, units })
    }
}

/// Refuses the lowest kind whose total is too large.
fn check_totals(units: &Usage<'_>) -> Result<(), Fault>
    ensures { answer result ≡ totals_rule units.now.rows.now 0 7 }
{
    // The kinds have no list: a place makes each.
    for place in 0..7 {
        let kind = Kind { place };
        if units.total(kind) > MOST_UNITS {
            return Err(Layer::Ledger.refuses_at(Refusal::Total, kind.number()));
        }
    }
    Ok(())
}

/// Refuses the lowest component whose pool is out of range.
fn check_pools(pools: [i64; 13]) -> Result<(), Fault>
    ensures { answer result ≡ pools_rule pools 0 }
{
    for (place, pool) in pools.iter().enumerate() {
        if pool.unsigned_abs() > MOST_CENTS {
            let component = Component { place };
            return Err(Layer::Ledger.refuses_at(Refusal::Pool, component.number()));
        }
    }
    Ok(())
}

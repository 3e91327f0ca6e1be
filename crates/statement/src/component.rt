//! One component: its pool shared over a kind's units.
ghost use Rattle.std.specs.Prelude.{◌≡◌, ℕ, ◌+◌, ◌<◌, ◌≤◌, length, take, ◌-ℤ◌, unsigned_abs};
ghost use Rattle.cents.specs.Cutting.{sum_z};
ghost use Rattle.statement.specs.Columns.{kind_of};
ghost use Rattle.statement.specs.Charges.{charge, charged};
ghost use Rattle.limits.specs.declared.TheConstants.{MOST_CENTS, MOST_SHARED};

use crate::charge::ComponentCharge;
use crate::checks::TestedMonth;
use crate::kind::Kind;
use sharing::rule::Rule;

/// The place of the kind that the component at a place is charged by.
// Public for any place, as callers may ask; `Component` has the range in its type.
pub fn kind_of(component: usize) -> usize
    ensures value { result ≡ kind_of component }
    ensures below { component < 13 → result < 7 }
{
    if component < 7 {
        component
    } else {
        component - 7
    }
}

/// A component, by its place among the thirteen.
#[derive(Clone, Copy)]
pub struct Component {
    pub place: usize,
    ghost below: { place < 13 },
}

impl Component {
    /// The number by which it is ordered and refused, 1 to 13.
    pub fn number(self) -> u32
        ensures { result ≡ self.place + 1 }
    {
        self.place as u32 + 1
    }

    /// The kind of units that it is charged by.
    pub fn kind(self) -> Kind
        ensures { result.place ≡ kind_of self.place }
    {
        Kind {
            place: kind_of(self.place),
        }
    }
}

/// What is left of a pool that some cells were charged. Shares of a pool stay near it together, the
/// first of them as well as all, so what is left after each fits 64 bits.
fn balance_of(pool: i64, cells: &[i64]) -> i64
    requires within { unsigned_abs pool ≤ MOST_CENTS }
    requires near { (k : ℕ) → unsigned_abs (sum_z (take k cells.now)) ≤ MOST_SHARED + k }
    ensures { result ≡ pool -ℤ sum_z cells.now }
{
    let mut balance = pool;
    for cents in cells {
        balance -= *cents;
    }
    balance
}

impl TestedMonth<'_> {
    /// Charges a component: its cells go into a row, one for each member.
    pub(crate) fn charge_component<R: Rule>(
        &self,
        rule: &R,
        component: Component,
        row: &mut [i64],
    ) -> ComponentCharge
        requires { length row.old ≡ length self.now.units.rows.now }
        ensures value { result ≡ charged (R.shares rule.now) self.now.pools self.now.units.rows.now component.place }
        ensures row { row.new ≡ charge (R.shares rule.now) self.now.pools self.now.units.rows.now component.place }
    {
        let kind = component.kind();
        let pool = self.pools[component.place];
        let units = self.units.total(kind) as u32;
        let column = self.units.column(kind);
        rule.share(pool, &column[..self.units.rows.len()], row);
        let balance = balance_of(pool, row);
        ComponentCharge {
            pool,
            units,
            balance,
        }
    }
}

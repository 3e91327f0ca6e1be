//! The account of one component.
ghost use Rattle.std.specs.Prelude.{◌≡◌, ◌<◌, ◌≤◌, ◌+ℤ◌, unsigned_abs};
ghost use Rattle.ledger.specs.Billing.{billed_account};

use limits::{MONTHS_ON_FILE, MOST_CENTS, MOST_COST};
use statement::charge::ComponentCharge;

/// A balance, and the pools of the months on file, each in the slot of its month.
#[derive(Clone, Copy)]
pub struct Account {
    pub balance: i64,
    pub pools: [i64; MONTHS_ON_FILE],
}

impl Account {
    /// The pool of a bill: the component's cost and what is left from before.
    pub(crate) fn pool(&self, cost: i64) -> i64
        requires balance { unsigned_abs self.now.balance ≤ MOST_CENTS }
        requires cost { unsigned_abs cost ≤ MOST_COST }
        ensures { result ≡ cost +ℤ self.now.balance }
    {
        cost + self.balance
    }

    /// Puts the pool of a charge in its month's slot, and what is left of it in the balance.
    pub(crate) fn close(&mut self, slot: usize, charge: ComponentCharge)
        requires slot { slot < MONTHS_ON_FILE }
        ensures { self.new ≡ billed_account slot charge self.old }
    {
        self.pools[slot] = charge.pool;
        self.balance = charge.balance;
    }

    /// Sets the balance that a resettlement leaves.
    pub(crate) fn settle(&mut self, balance: i64)
        ensures { self.new ≡ record { balance = balance; pools = self.old.pools } }
    {
        self.balance = balance;
    }
}

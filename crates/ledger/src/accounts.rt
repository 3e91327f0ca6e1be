//! The thirteen accounts of a ledger.
ghost use Rattle.std.specs.Prelude.{◌≡◌, ℕ, ◌%◌, ◌≤◌, unsigned_abs};
ghost use Rattle.tariff.specs.Costs.{Bounded};
ghost use Rattle.ledger.specs.Files.{row_start};
ghost use Rattle.ledger.specs.States.{account_at, balances, is_on_file, opened};
ghost use Rattle.ledger.specs.Billing.{closed, pools_of};
ghost use Rattle.ledger.specs.Resettling.{settled};

use crate::account::Account;
use limits::{LAST_MONTH, MONTHS_ON_FILE, MOST_CENTS, MOST_COST};
use statement::charge::ComponentCharge;
use statement::component::Component;
use std::array;

/// The slot of a month on file: the slots in turn.
pub(crate) fn slot_of(month: u32) -> usize
    ensures { result ≡ month % MONTHS_ON_FILE }
{
    month as usize % MONTHS_ON_FILE
}

/// How many members there are, the first month, the open month, and an account for each component.
#[derive(Clone, Copy)]
pub struct Accounts {
    pub members: u32,
    pub first: u32,
    pub month: u32,
    pub rows: [Account; 13],
}

impl Accounts {
    /// New accounts, with nothing in them.
    pub(crate) fn new(members: u32, first: u32) -> Accounts
        ensures { result ≡ opened members first }
    {
        let account = Account {
            balance: 0,
            pools: [0; MONTHS_ON_FILE],
        };
        Accounts {
            members,
            first,
            month: first,
            rows: [account; 13],
        }
    }

    /// Whether a month is on file, as one of the latest billed.
    pub(crate) fn is_on_file(&self, month: u32) -> bool
        ensures { result ≡ is_on_file self.now month }
    {
        self.first <= month && month < self.month && (self.month - month) as usize <= MONTHS_ON_FILE
    }

    /// Where the row of a month and of a component begins in the file.
    pub(crate) fn row_start(&self, month: u32, component: Component) -> usize
        ensures { result ≡ row_start self.now.members month component.place }
    {
        (slot_of(month) * 13 + component.place) * self.members as usize
    }

    /// The pools of a bill, from the components' costs.
    pub(crate) fn pools(&self, costs: [i64; 13]) -> [i64; 13]
        requires balances { (c : ℕ) → unsigned_abs (account_at self.now c).balance ≤ MOST_CENTS }
        requires costs { Bounded MOST_COST costs }
        ensures { result ≡ pools_of costs self.now }
    {
        array::from_fn(|place| self.rows[place].pool(costs[place]))
    }

    /// Closes the open month on its charges, and opens the next.
    pub(crate) fn close(&mut self, charges: [ComponentCharge; 13])
        requires month { self.old.month ≤ LAST_MONTH }
        ensures { self.new ≡ closed charges self.old }
    {
        let slot = slot_of(self.month);
        for (place, account) in self.rows.iter_mut().enumerate() {
            account.close(slot, charges[place]);
        }
        self.month += 1;
    }

    /// Sets one account's balance.
    pub(crate) fn settle(&mut self, component: Component, balance: i64)
        ensures { self.new ≡ settled component.place balance self.old }
    {
        self.rows[component.place].settle(balance);
    }

    /// The thirteen balances.
    pub(crate) fn balances(&self) -> [i64; 13]
        ensures { result ≡ balances self.now }
    {
        self.rows.map(|account| account.balance)
    }
}

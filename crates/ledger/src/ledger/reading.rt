//! What a ledger holds.
ghost use Rattle.std.specs.Prelude.{◌≡◌};
ghost use Rattle.ledger.specs.States.{balances};

use crate::ledger::Ledger;
use sharing::rule::Rule;

impl<R: Rule> Ledger<R> {
    /// How many members it has.
    pub fn members(&self) -> u32
        ensures { result ≡ self.now.accounts.members }
    {
        self.accounts.members
    }

    /// The open month.
    pub fn month(&self) -> u32
        ensures { result ≡ self.now.accounts.month }
    {
        self.accounts.month
    }

    /// The six amounts that wait for the open month's bill.
    pub fn waiting(&self) -> [i64; 6]
        ensures { result ≡ self.now.heads.amounts }
    {
        self.heads.amounts()
    }

    /// The thirteen balances.
    pub fn balances(&self) -> [i64; 13]
        ensures { result ≡ balances self.now.accounts }
    {
        self.accounts.balances()
    }
}

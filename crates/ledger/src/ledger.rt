//! A ledger: a sharing rule, a sheet, the open month's heads, and the accounts.
mod billing;
mod booking;
mod opening;
mod reading;
mod resettling;

ghost use Rattle.std.specs.Prelude.{◌≡◌, ◌+◌, ℕ, ◌<◌, ◌≤◌, length, unsigned_abs};
ghost use Rattle.ledger.specs.States.{account_at};
ghost use Rattle.limits.specs.declared.TheConstants.{FIRST_MONTH, LAST_MONTH, MONTHS_ON_FILE, MOST_CENTS, MOST_MEMBERS};

use crate::accounts::Accounts;
use sharing::rule::Rule;
use tariff::heads::Heads;
use tariff::sheet::Sheet;

/// The ledger of one member or more, at most `MOST_MEMBERS`.
#[derive(Drop)]
pub struct Ledger<R: Rule> {
    rule: R,
    sheet: Sheet,
    heads: Heads,
    accounts: Accounts,
    // The accounts are plain records: the ledger keeps what is always true of them.
    ghost count_in_range: { (1 ≤ accounts.members) × (accounts.members ≤ MOST_MEMBERS) },
    ghost month_in_range: { (FIRST_MONTH ≤ accounts.first) × (accounts.first ≤ accounts.month)
        × (accounts.month ≤ (LAST_MONTH + 1)) },
    ghost slots: { (c : ℕ) → c < 13 → length (account_at accounts c).pools ≡ MONTHS_ON_FILE },
    ghost small: { (c : ℕ) → unsigned_abs (account_at accounts c).balance ≤ MOST_CENTS },
}

//! The terms on which a ledger is opened: its rule, its weights and its members' account numbers.
ghost use Rattle.std.specs.Prelude.{◌≡◌};
ghost use Rattle.journal_text.specs.Terms.{account_numbers, same_accounts, same_terms};

use limits::MOST_TEXT_MEMBERS;
use month_text::month::{Member, Month};

/// The account numbers in the members' order. Blank places have account number 0.
fn account_numbers(members: [Member; MOST_TEXT_MEMBERS]) -> [u32; MOST_TEXT_MEMBERS]
    ensures { result ≡ account_numbers members }
{
    members.map(|member| member.account)
}

/// Whether the members have the same account numbers in the same order.
fn same_accounts(one: &Month, other: &Month) -> bool
    ensures { result ≡ same_accounts one.now other.now }
{
    one.count == other.count && account_numbers(one.members) == account_numbers(other.members)
}

/// Whether two months can stand in one ledger.
pub(crate) fn same_terms(one: &Month, other: &Month) -> bool
    ensures { result ≡ same_terms one.now other.now }
{
    one.rule == other.rule && one.sheet == other.sheet && same_accounts(one, other)
}

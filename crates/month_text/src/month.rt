//! A month as its text gives it.
ghost use Rattle.std.specs.Prelude.{◌≡◌};
ghost use Rattle.month_text.specs.Members.{member_of, member_lawful};

use limits::{MOST_ACCOUNT, MOST_TEXT_MEMBERS};
use sharing::name::RuleName;
use std::array;
use units::facts::Facts;

/// The largest number of a month's text: it has eleven digits.
pub const MOST_NUMBER: u64 = 99_999_999_999;

/// A member's account and what it did in the month.
#[derive(Clone, Copy, PartialEq, Eq, Debug)]
pub struct Member {
    pub account: u32,
    pub facts: Facts,
}

/// A member from a row: its account, and then its facts.
impl From<[u32; 12]> for Member {
    ghost from_gives = { λ row member. member ≡ member_of row };

    fn from(row: [u32; 12]) -> Member {
        Member {
            account: row[0],
            facts: Facts::from(array::from_fn(|i| row[i + 1])),
        }
    }
}

impl Member {
    /// Whether the account follows the last one, and the facts are in range.
    pub(crate) fn follows(&self, last: u32) -> bool
        ensures { result ≡ member_lawful last self.now }
    {
        last < self.account && self.account <= MOST_ACCOUNT && self.facts.lawful()
    }
}

/// The three lines of the sheet, in thousandths.
#[derive(Clone, Copy, PartialEq, Eq, Debug)]
pub struct SheetLines {
    pub division: [u32; 6],
    pub management: [u32; 4],
    pub split: [u32; 2],
}

/// All lines of a month's text. It has places for the most members that a text may have; those from
/// `count` on are blank.
#[derive(Clone, Copy, PartialEq, Eq, Debug)]
pub struct Month {
    pub month: u32,
    pub rule: RuleName,
    pub sheet: SheetLines,
    pub cost: [i64; 6],
    pub control: i64,
    pub count: usize,
    pub members: [Member; MOST_TEXT_MEMBERS],
}

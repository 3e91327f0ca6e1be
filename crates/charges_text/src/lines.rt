//! How a member's charges are printed.
ghost use Rattle.std.specs.Prelude.{Some};
ghost use Rattle.charges_text.specs.Printed.{member_fields};

use crate::charges::MemberCharge;
use cents::totals::sum_of;
use std::fmt;

/// A member's account, its charges and their sum.
impl fmt::Display for MemberCharge {
    ghost output = { λ m. Some (member_fields m) };

    fn fmt<W: fmt::Write>(&self, f: &mut fmt::Formatter<W>) -> fmt::Result {
        let account = self.account;
        write!(f, "{account}")?;
        for charge in &self.charges {
            write!(f, ",{charge}")?;
        }
        let sum = sum_of(&self.charges);
        write!(f, ",{sum}")
    }
}

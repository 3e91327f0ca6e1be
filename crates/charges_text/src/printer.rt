//! The text of a month's charges.
ghost use Rattle.std.specs.Prelude.{◌≡◌, IfOk, Some, string_bytes};
ghost use Rattle.std.specs.List.{flat_map};
ghost use Rattle.charges_text.specs.Printed.{component_lines, member_line, printed};

use crate::charges::MemberCharge;
use statement::charge::ComponentCharge;
use std::alloc::{AllocError, Global};
use std::fmt;

/// The thirteen components' lines.
#[derive(Drop)]
struct Components([ComponentCharge; 13]);

/// The members' lines. Not one type with `Components`, whose lines have numbers.
#[derive(Drop)]
struct Members<'a>(&'a [MemberCharge]);

impl fmt::Display for Components {
    ghost output = { λ c. Some (component_lines 1 c.0) };

    fn fmt<W: fmt::Write>(&self, f: &mut fmt::Formatter<W>) -> fmt::Result {
        for (i, charge) in self.0.iter().enumerate() {
            let number = i + 1;
            let ComponentCharge {
                pool,
                units,
                balance,
            } = *charge;
            writeln!(f, "component={number},{pool},{units},{balance}")?;
        }
        Ok(())
    }
}

impl fmt::Display for Members<'_> {
    ghost output = { λ m. Some (flat_map member_line m.0.now) };

    fn fmt<W: fmt::Write>(&self, f: &mut fmt::Formatter<W>) -> fmt::Result {
        for member in self.0 {
            writeln!(f, "user={member}")?;
        }
        Ok(())
    }
}

/// The whole text: the month, its components, its members.
pub fn charges_text(
    heap: Global,
    month: u32,
    components: [ComponentCharge; 13],
    members: &[MemberCharge],
) -> Result<String, AllocError>
    ensures { IfOk result (λ t. string_bytes t ≡ printed month components members.now) }
{
    let components = Components(components);
    let members = Members(members);
    format!(in heap; "month={month}\n{components}{members}")
}

//! The thirteen components of a month.
ghost use Rattle.std.specs.Prelude.{◌≡◌, ◌*◌, ◌<◌, length, MatchResult};
ghost use Rattle.refusal.specs.Answers.{answer_by};
ghost use Rattle.statement.specs.Checks.{charge_rule};
ghost use Rattle.statement.specs.Charges.{component_charges, cells, IsCharged, member_charge, member_charges};

use crate::charge::ComponentCharge;
use crate::checks::TestedMonth;
use crate::component::Component;
use refusal::Fault;
use sharing::rule::Rule;
use std::array;

impl TestedMonth<'_> {
    /// Charges all components: their cells go into the statement, component by component.
    fn charge<R: Rule>(&self, rule: &R, statement: &mut [i64]) -> [ComponentCharge; 13]
        requires { length statement.old ≡ 13 * length self.now.units.rows.now }
        ensures value { result ≡ component_charges (R.shares rule.now) self.now.pools self.now.units.rows.now 13 }
        ensures cells { statement.new ≡ cells (R.shares rule.now) self.now.pools self.now.units.rows.now 13 }
    {
        let members = self.units.rows.len();
        let blank = ComponentCharge {
            pool: 0,
            units: 0,
            balance: 0,
        };
        let mut charges = [blank; 13];
        for (place, charge) in charges.iter_mut().enumerate() {
            let component = Component { place };
            let start = place * members;
            let row = &mut statement[start..start + members];
            *charge = self.charge_component(rule, component, row);
        }
        charges
    }
}

/// Charges a month: shares the pool of every component over the members' units, one row of seven
/// kinds a member, into a statement of thirteen cells a member, component by component.
pub fn charge_month<R: Rule>(
    rule: &R,
    pools: [i64; 13],
    units: &[[u32; 7]],
    statement: &mut [i64],
) -> Result<[ComponentCharge; 13], Fault>
    ensures answered { answer_by (λ _. tt) result ≡ charge_rule pools units.now (length statement.old) }
    ensures done { MatchResult result (λ charges. IsCharged (R.shares rule.now) pools units.now charges statement.new) (λ _. statement.new ≡ statement.old) }
{
    let month = TestedMonth::test(pools, units, statement.len())?;
    Ok(month.charge(rule, statement))
}

/// What a member pays for a component; 0 where the statement has no such member.
fn cell(statement: &[i64], component: Component, member: usize) -> i64
    ensures { result ≡ member_charge statement.now member component.place }
{
    let members = statement.len() / 13;
    let start = component.place * members;
    let row = &statement[start..start + members];
    row.get(member).copied().unwrap_or(0)
}

/// What the member at a place pays for each component of a statement. A statement has thirteen
/// cells for each member, so it has a thirteenth as many members as cells; any other place pays 0.
pub fn member_charges(statement: &[i64], member: usize) -> [i64; 13]
    ensures { result ≡ member_charges statement.now member }
{
    array::from_fn(
        |place|
            requires { place < 13 }
        { cell(statement, Component { place }, member) },
    )
}

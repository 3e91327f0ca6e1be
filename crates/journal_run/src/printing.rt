//! What is printed for an order.
ghost use Rattle.std.specs.Prelude.{◌≡◌, ◌≤◌, IfOk, Some, string_bytes};
ghost use Rattle.charges_text.specs.Printed.{printed};
ghost use Rattle.month_bill.specs.Members.{member_rows};
ghost use Rattle.journal_run.specs.Outcomes.{members_of, resettled_text, outcome_text};
ghost use Rattle.limits.specs.declared.TheConstants.{MOST_TEXT_MEMBERS};

use charges_text::printer::charges_text;
use charges_text::refusals::refusal_text;
use journal_text::entry::{Action, Entry};
use month_bill::members::member_rows;
use month_text::month::{Member, Month};
use refusal::Fault;
use runs::done::Done;
use statement::charge::ComponentCharge;
use std::alloc::{AllocError, Global};
use std::fmt;

/// A month's charges, as a month that is billed alone prints them.
fn bill_text(
    heap: Global,
    month: &Month,
    components: [ComponentCharge; 13],
    statement: &[i64],
) -> Result<String, AllocError>
    requires { month.now.count ≤ MOST_TEXT_MEMBERS }
    ensures { IfOk result (λ t. string_bytes t ≡ printed month.now.month components (member_rows statement.now 0 (members_of month.now))) }
{
    let rows = member_rows(month.members, statement);
    charges_text(heap, month.month, components, &rows[0..month.count])
}

/// A resettlement's month and component, and what each member pays or gets back.
#[derive(Clone, Copy)]
struct Resettled<'a> {
    month: u32,
    component: u32,
    members: &'a [Member],
    cells: &'a [i64],
}

impl fmt::Display for Resettled<'_> {
    ghost output = { λ r. Some (resettled_text r.month r.component r.members.now r.cells.now) };

    fn fmt<W: fmt::Write>(&self, f: &mut fmt::Formatter<W>) -> fmt::Result {
        let Resettled {
            month,
            component,
            members,
            cells,
        } = *self;
        writeln!(f, "resettled={month},{component}")?;
        for (member, cents) in members.iter().zip(cells) {
            let account = member.account;
            writeln!(f, "difference={account},{cents}")?;
        }
        Ok(())
    }
}

/// What an order came to. A booking prints nothing, since its bill follows.
pub(crate) fn order_text(
    heap: Global,
    entry: &Entry,
    outcome: Result<Done, Fault>,
    cells: &[i64],
) -> Result<String, AllocError>
    requires { entry.now.month.count ≤ MOST_TEXT_MEMBERS }
    ensures { IfOk result (λ t. string_bytes t ≡ outcome_text entry.now outcome cells.now) }
{
    let month = &entry.month;
    match (outcome, entry.action) {
        (Ok(Done::Billed(components)), _) => bill_text(heap, month, components, cells),
        (Ok(Done::Resettled), Action::Resettle(component)) => {
            let resettled = Resettled {
                month: month.month,
                component,
                members: &month.members[0..month.count],
                cells,
            };
            format!(in heap; "{resettled}")
        }
        (Err(fault), _) => refusal_text(heap, fault),
        _ => Ok(String::new(heap)),
    }
}

//! The members' side of a month: their units, and what they pay.
ghost use Rattle.std.specs.Prelude.{◌≡◌, ◌≤◌, take, IfOk, OnOk};
ghost use Rattle.refusal.specs.Answers.{answer_by};
ghost use Rattle.month_bill.specs.Members.{facts_of_all, month_units, member_rows};

use bottom_books::fact_book::FactBook;
use charges_text::charges::MemberCharge;
use limits::MOST_TEXT_MEMBERS;
use month_text::month::{Member, Month};
use refusal::{Fault, Layer, Refusal};
use statement::month::member_charges;
use std::array;
use units::facts::Facts;

/// The facts of all members.
fn all_facts(members: [Member; MOST_TEXT_MEMBERS]) -> [Facts; MOST_TEXT_MEMBERS]
    ensures { result ≡ facts_of_all members }
{
    members.map(|member| member.facts)
}

/// The fact book of a month; refused where the month has more members than a text may have.
pub fn month_book(month: &Month) -> Result<FactBook, Fault>
    ensures answered { answer_by (λ book. take month.now.count book.units.rows) result ≡ month_units month.now }
    ensures made { IfOk result (λ book. (book.units.month ≡ month.now.month) × (book.units.count ≡ month.now.count)) }
    ensures count { OnOk result (month.now.count ≤ MOST_TEXT_MEMBERS) }
{
    if month.count > MOST_TEXT_MEMBERS {
        return Err(Layer::Ledger.refuses(Refusal::Count));
    }
    let facts = all_facts(month.members);
    let mut book = FactBook::blank();
    book.fill(month.month, &facts[0..month.count])?;
    Ok(book)
}

/// What the members of all places pay by a statement.
pub fn member_rows(
    members: [Member; MOST_TEXT_MEMBERS],
    statement: &[i64],
) -> [MemberCharge; MOST_TEXT_MEMBERS]
    ensures { result ≡ member_rows statement.now 0 members }
{
    array::from_fn(|i| MemberCharge {
        account: members[i].account,
        charges: member_charges(statement, i),
    })
}

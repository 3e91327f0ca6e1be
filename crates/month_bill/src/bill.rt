//! A month's bill.
ghost use Rattle.std.specs.Prelude.{◌≡◌, ◌≤◌};
ghost use Rattle.refusal.specs.Answers.{answer, answer_by};
ghost use Rattle.month_text.specs.Accepted.{InRange};
ghost use Rattle.month_bill.specs.Bills.{charges_of, bill_alone, bill_by, bill_month};
ghost use Rattle.month_bill.specs.Late.{OnlyLate};
ghost use Rattle.month_bill.specs.Members.{book_reading};

use crate::costs::{month_ledger, month_sheet};
use crate::members::{member_rows, month_book};
use book::book::Book;
use bottom_books::fact_book::FactBook;
use charges_text::charges::MemberCharge;
use ledger::ledger::Ledger;
use ledger::line::{Line, MEMBER_LINES};
use limits::MOST_TEXT_MEMBERS;
use month_text::month::{Member, Month};
use refusal::Fault;
use sharing::rule::Rule;
use sharing::with_rule;
use statement::charge::ComponentCharge;

/// What a month's components and members are charged. There is a row for each place that a month's
/// text has. A row from the month's count on is no member's: its account is the one that the
/// month's place has (0 in a month that was read), and its thirteen charges are 0.
#[derive(Clone, Copy)]
pub struct Bill {
    pub components: [ComponentCharge; 13],
    pub members: [MemberCharge; MOST_TEXT_MEMBERS],
}

/// Bills a book on a ledger, with a month file that is not kept.
fn bill_on<R: Rule>(
    ledger: &mut Ledger<R>,
    book: &FactBook,
    members: [Member; MOST_TEXT_MEMBERS],
) -> Result<Bill, Fault>
    requires { book.now.units.count ≤ MOST_TEXT_MEMBERS }
    ensures { answer_by charges_of result ≡ bill_alone ledger.old (book_reading book.now) members }
{
    let count = book.members() as usize;
    let mut file = [Line { units: 0, cents: 0 }; MEMBER_LINES * MOST_TEXT_MEMBERS];
    let file = &mut file[0..MEMBER_LINES * count];
    let mut statement = [0i64; 13 * MOST_TEXT_MEMBERS];
    let statement = &mut statement[0..13 * count];
    let components = ledger.bill(book, file, statement)?;
    let members = member_rows(members, statement);
    Ok(Bill {
        components,
        members,
    })
}

/// Bills a month by a rule, on a new ledger.
fn bill_by<R: Rule + Copy + Drop>(rule: R, month: &Month) -> Result<Bill, Fault>
    ensures { answer_by charges_of result ≡ bill_by (R.shares rule) month.now }
{
    let sheet = month_sheet(month)?;
    let book = month_book(month)?;
    let mut ledger = month_ledger(rule, sheet, book.members(), month)?;
    bill_on(&mut ledger, &book, month.members)
}

/// Bills a month by its rule, on a new ledger.
pub fn bill_month(month: &Month) -> Result<Bill, Fault>
    ensures answered { answer_by charges_of result ≡ bill_month month.now }
    ensures late { InRange month.now → OnlyLate (answer result) }
{
    with_rule!(month.rule, |rule| bill_by(rule, month))
}

//! The text that answers a month's text.
ghost use Rattle.std.specs.Prelude.{◌≡◌, ◌≤◌, take, IfOk, string_bytes};
ghost use Rattle.refusal.specs.Answers.{answer_by};
ghost use Rattle.charges_text.specs.Printed.{printed};
ghost use Rattle.month_bill.specs.Late.{BillOnceRead};
ghost use Rattle.month_bill.specs.Outcome.{billed_text, month_answer};
ghost use Rattle.limits.specs.declared.TheConstants.{MOST_TEXT_MEMBERS};

use crate::bill::{Bill, bill_month};
use charges_text::printer::charges_text;
use charges_text::refusals::refusal_text;
use month_text::month::Month;
use month_text::reader::read;
use refusal::Fault;
use std::alloc::{AllocError, Global};

/// The month of a text and its bill.
fn billed(text: &[u8]) -> Result<(Month, Bill), Fault>
    ensures answered { answer_by (λ b. printed b.0.month b.1.components (take b.0.count b.1.members)) result ≡ billed_text text.now }
    ensures count { IfOk result (λ b. b.0.count ≤ MOST_TEXT_MEMBERS) }
    ensures late { BillOnceRead text.now }
{
    let month = read(text)?;
    let bill = bill_month(&month)?;
    Ok((month, bill))
}

/// The charges of a month's text, or the line of its refusal.
pub fn answer(heap: Global, text: &[u8]) -> Result<String, AllocError>
    ensures answered { IfOk result (λ lines. string_bytes lines ≡ month_answer text.now) }
    ensures late { BillOnceRead text.now }
{
    match billed(text) {
        Ok((month, bill)) => {
            let members = &bill.members[0..month.count];
            charges_text(heap, month.month, bill.components, members)
        }
        Err(fault) => refusal_text(heap, fault),
    }
}

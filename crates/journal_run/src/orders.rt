//! The orders that a journal's entries give.
ghost use Rattle.std.specs.Prelude.{◌≡◌, length, IfOk, OnOk};
ghost use Rattle.journal_text.specs.Answered.{Answered};
ghost use Rattle.journal_run.specs.Deeds.{orders_of, orders_with};
ghost use Rattle.journal_run.specs.Meanings.{given_orders};

use crate::given::Given;
use journal_text::entry::{Action, Entry};
use journal_text::unread::Unread;
use month_bill::members::month_book;
use runs::order::{Costs, Order};
use std::alloc::Global;

/// A bill books its costs first; the costs of a resettlement were booked with their bill.
fn give_orders<'a>(entry: &'a Entry, given: &mut Given<'a>) -> Result<(), Unread>
    requires { length given.old.entries.items ≡ length given.old.orders.items }
    ensures answered { Answered (λ _. given_orders given.new) result (orders_with (given_orders given.old) entry.now) }
    ensures paired { OnOk result (length given.new.entries.items ≡ length given.new.orders.items) }
{
    let book = month_book(&entry.month)?;
    match entry.action {
        Action::Bill => {
            let control = entry.month.control;
            let amounts = entry.month.cost;
            given.push(entry, Order::Book(Costs { control, amounts }))?;
            given.push(entry, Order::Bill(book))
        }
        Action::Resettle(component) => given.push(entry, Order::Resettle(component, book)),
    }
}

/// The orders of all entries, each beside the entry that gives it.
pub(crate) fn journal_orders(heap: Global, entries: &[Entry]) -> Result<Given<'_>, Unread>
    ensures answered { Answered given_orders result (orders_of entries.now) }
    ensures paired { IfOk result (λ given. length given.entries.items ≡ length given.orders.items) }
{
    let mut given = Given::new(heap);
    for entry in entries {
        give_orders(entry, &mut given)?;
    }
    Ok(given)
}

//! The orders that are given so far.
ghost use Rattle.std.specs.Prelude.{◌≡◌, [], ◌∷◌, ◌++◌, length, IfErr, OnOk};
ghost use Rattle.journal_run.specs.Meanings.{given_orders, order_deed};

use bottom_books::fact_book::FactBook;
use journal_text::entry::Entry;
use journal_text::unread::Unread;
use runs::order::Order;
use std::alloc::Global;

/// Orders, and at the same place the entry that gave each.
#[derive(Drop)]
pub(crate) struct Given<'a> {
    pub entries: Vec<&'a Entry>,
    pub orders: Vec<Order<FactBook>>,
}

impl<'a> Given<'a> {
    /// No orders.
    pub(crate) fn new(heap: Global) -> Given<'a>
        ensures given { given_orders result ≡ [] }
        ensures paired { length result.entries.items ≡ length result.orders.items }
    {
        Given {
            entries: Vec::new(heap),
            orders: Vec::new(heap),
        }
    }

    /// One order more.
    pub(crate) fn push(&mut self, entry: &'a Entry, order: Order<FactBook>) -> Result<(), Unread>
        requires { length self.old.entries.items ≡ length self.old.orders.items }
        ensures given { OnOk result (given_orders self.new ≡ given_orders self.old ++ (entry.now, order_deed order) ∷ []) }
        ensures memory { IfErr result (λ e. e ≡ Unread.Memory) }
        ensures paired { OnOk result (length self.new.entries.items ≡ length self.new.orders.items) }
    {
        self.entries.push(entry)?;
        self.orders.push(order)?;
        Ok(())
    }
}

//! What a ledger is ordered to do.

/// Costs to be put on a voucher: a control total, and the amounts of the six heads.
#[derive(Clone, Copy)]
pub struct Costs {
    pub control: i64,
    pub amounts: [i64; 6],
}

/// An order.
#[derive(Clone, Copy)]
pub enum Order<B> {
    /// Put costs on a voucher, balance it and book it.
    Book(Costs),
    /// Bill the open month by a book.
    Bill(B),
    // The component is a plain number: it is handed in untested, and refusal 6 tests it.
    /// Resettle a component, 1 to 13, of the book's month.
    Resettle(u32, B),
}

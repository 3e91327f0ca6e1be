//! An entry of a journal.
use month_text::month::Month;

/// What an entry asks for.
#[derive(Clone, Copy, PartialEq, Eq, Debug)]
pub enum Action {
    /// Book the month's costs and bill it.
    Bill,
    // The component is a plain number: it is handed in untested, and refusal 6 tests it.
    /// Share a component's pool of the month again.
    Resettle(u32),
}

/// An action, the line of the journal that asks for it, and the month that it is for.
#[derive(Clone, Copy, PartialEq, Eq, Debug)]
pub struct Entry {
    pub action: Action,
    pub line: u32,
    pub month: Month,
}

//! What a book of units is. It means a month, a count of members, and units for each of the seven
//! kinds and each member; members are counted from 0.
ghost use Rattle.std.specs.Prelude.{◌≡◌, ℕ, ◌≤◌, Bool, true, MatchResult, OnOk};
ghost use Rattle.refusal.specs.Answers.{answer, bare};
ghost use Rattle.book.specs.Asking.{ask_rule};
ghost use Rattle.book.specs.Correcting.{correct_rule, Corrected, kept_after};
ghost use Rattle.limits.specs.declared.TheConstants.{FIRST_MONTH, LAST_MONTH, MOST_MEMBERS, MOST_UNITS};

use refusal::Fault;

/// A book of units. Asking changes nothing and gives what the book means.
pub trait Book {
    ghost month: { Self → ℕ };

    ghost count: { Self → ℕ };

    // the units of a kind and a member
    ghost units: { Self → ℕ → ℕ → ℕ };

    /// The book's month.
    fn month(&self) -> u32
        ensures { result ≡ month self.now };

    /// How many members it has.
    fn members(&self) -> u32
        ensures { result ≡ count self.now };

    /// The units of a kind, 1 to 7, and a member. Both are plain numbers, not tested before: refusal 6
    /// is of the kind, then 7 of the member.
    fn units(&self, kind: u32, member: u32) -> Result<u32, Fault>
        ensures { answer result ≡ ask_rule (count self.now) (units self.now kind member) kind member };

    ghost month_in_range: { (b : Self) → (FIRST_MONTH ≤ month b) × (month b ≤ LAST_MONTH) };

    ghost count_in_range: { (b : Self) → (1 ≤ count b) × (count b ≤ MOST_MEMBERS) };

    ghost units_in_range: { (b : Self) (kind member : ℕ) → units b kind member ≤ MOST_UNITS };
}

/// A book that also accepts corrections. It takes some pairs of kind and member; a pair that was
/// corrected once is kept, and is taken from then on.
pub trait Correctable: Book {
    ghost takes: { Self → ℕ → ℕ → Bool };

    ghost keeps: { Self → ℕ → ℕ → Bool };

    /// Whether the book takes corrections of a kind and a member, any two numbers: `correct` refuses
    /// a pair that it does not take by 15, the last of its tests.
    fn takes(&self, kind: u32, member: u32) -> bool
        ensures { result ≡ takes self.now kind member };

    /// Adds a signed amount to the units of one kind and member. Refused, nothing changes.
    fn correct(&mut self, kind: u32, member: u32, amount: i64) -> Result<(), Fault>
        ensures answered { let units = Self.Book.units self.old kind member in
            answer result ≡ bare (correct_rule (Self.Book.count self.old) units (takes self.old kind member) kind member amount) }
        ensures kept { MatchResult result
            (λ _. (Self.Book.month self.new ≡ Self.Book.month self.old) × (Self.Book.count self.new ≡ Self.Book.count self.old))
            (λ _. self.new ≡ self.old) }
        ensures units { OnOk result (Corrected (Self.Book.units self.old) (Self.Book.units self.new) amount (kind, member)) }
        ensures taken { OnOk result ((k m : ℕ) → keeps self.new k m ≡ kept_after (keeps self.old k m) (k, m) (kind, member)) };

    ghost lasting: { (b : Self) (kind member : ℕ) → keeps b kind member ≡ true → takes b kind member ≡ true };
}

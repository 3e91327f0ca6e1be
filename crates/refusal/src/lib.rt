//! The one fault type of the whole repository: which refusal, which layer's check failed, and where.
#![tactic(auto)]

ghost use Rattle.std.specs.Prelude.{◌≡◌, Some, decimal};
ghost use Rattle.refusal.specs.Answers.{number};

use std::fmt;

/// Why a call was refused; each has the number that programs print.
#[derive(Clone, Copy, PartialEq, Eq, Debug)]
pub enum Refusal {
    /// A line off the layout.
    Layout = 1,
    /// A number outside its range.
    Range = 2,
    /// Weights that do not add up to 1,000.
    Weights = 3,
    /// Members 0, above 200, or not the ledger's.
    Count = 4,
    /// A month out of range, not open, or not on file.
    Month = 5,
    /// A kind that is not 1 to 7, or a component that is not reconciled.
    Kind = 6,
    /// A member's place not below the count.
    Member = 7,
    /// The total of a kind above 2,000,000,000.
    Total = 8,
    /// A pool outside ±4,000,000,000.
    Pool = 9,
    /// Cents of a resettled line, or the balance after it, out of range.
    Resettled = 10,
    /// Memory of the wrong length.
    Length = 11,
    /// A voucher line's head, or its sum, out of range.
    Head = 12,
    /// The control total missed.
    Control = 13,
    /// A booked head outside ±4,000,000,000.
    Booked = 14,
    /// A pair of kind and member that the book does not take.
    Pair = 15,
    /// Corrected units below 0 or above 2,000,000,000.
    Corrected = 16,
    /// A FERC volume of 0, or a rate outside ±1,000,000.
    Rate = 17,
    /// Twelve FERC months billed already.
    Year = 18,
}

/// The part whose check failed.
#[derive(Clone, Copy, PartialEq, Eq, Debug)]
pub enum Layer {
    Text,
    Sheet,
    Voucher,
    Book,
    Ledger,
    Ferc,
}

/// A refusal with its layer and its place: the reader's line, the kind or the component, else 0.
#[derive(Clone, Copy, PartialEq, Eq, Debug)]
pub struct Fault {
    pub refusal: Refusal,
    pub layer: Layer,
    pub place: u32,
}

impl Refusal {
    /// The refusal's number in the table, 1 to 18.
    pub fn number(self) -> u32
        ensures { result ≡ number self }
    {
        self as u32
    }
}

/// A refusal is printed as its number.
impl fmt::Display for Refusal {
    ghost output = { λ refusal. Some (decimal (number refusal)) };

    fn fmt<W: fmt::Write>(&self, f: &mut fmt::Formatter<W>) -> fmt::Result {
        let number = self.number();
        write!(f, "{number}")
    }
}

impl Layer {
    /// This layer's refusal with no place of its own.
    pub fn refuses(self, refusal: Refusal) -> Fault
        ensures { result ≡ record { refusal = refusal; layer = self; place = 0 } }
    {
        self.refuses_at(refusal, 0)
    }

    /// This layer's refusal at a line, a kind or a component.
    pub fn refuses_at(self, refusal: Refusal, place: u32) -> Fault
        ensures { result ≡ record { refusal = refusal; layer = self; place = place } }
    {
        Fault {
            refusal,
            layer: self,
            place,
        }
    }
}

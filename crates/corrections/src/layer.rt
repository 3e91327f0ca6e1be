//! The layer of corrections over a book. It keeps each corrected pair's units and means these, and
//! the book's units for every other pair; the book below stays as it is.
ghost use Rattle.std.specs.Prelude.{◌≡◌, [], ℕ, OnOk, MatchResult};
ghost use Rattle.refusal.specs.Answers.{answer, bare};
ghost use Rattle.book.specs.Correcting.{correct_rule, corrected_units, kept_after};
ghost use Rattle.corrections.specs.Kept.{kept, pairs, units_over};
ghost use Rattle.corrections.specs.Pairs.{among, pairs_with, takes_pair};
ghost use Rattle.corrections.specs.LawsOfCorrections.{units_small};
ghost use Rattle.std.proofs.Common.{rules};

use crate::fixes::Fixes;
use crate::pair::Pair;
use book::asking::{check_pair, new_units};
use book::book::{Book, Correctable};
use refusal::Fault;

/// A book with corrections over it.
#[derive(Clone, Copy)]
pub struct Corrections<B> {
    book: B,
    fixes: Fixes,
}

impl<B> Corrections<B> {
    /// Lays the layer over a book; nothing is corrected yet.
    pub fn over(book: B) -> Corrections<B>
        ensures book { result.book ≡ book }
        ensures fixes { kept result.fixes ≡ [] }
    {
        Corrections {
            book,
            fixes: Fixes::none(),
        }
    }
}

impl<B: Book> Book for Corrections<B> {
    ghost month = { λ c. B.Book.month c.book };

    ghost count = { λ c. B.Book.count c.book };

    ghost units = { λ c. units_over c.fixes (B.Book.units c.book) };

    ghost month_in_range = { Prim.search rules };

    ghost count_in_range = { Prim.search rules };

    ghost units_in_range = { λ c kind member. units_small c.fixes (B.Book.units c.book) kind member (B.Book.units_in_range c.book kind member) };

    fn month(&self) -> u32 {
        self.book.month()
    }

    fn members(&self) -> u32 {
        self.book.members()
    }

    fn units(&self, kind: u32, member: u32) -> Result<u32, Fault> {
        check_pair(self.book.members(), kind, member)?;
        match self.fixes.look(Pair { kind, member }) {
            Some(units) => Ok(units),
            None => self.book.units(kind, member),
        }
    }
}

impl<B: Book> Correctable for Corrections<B> {
    ghost takes = { λ c kind member. takes_pair (pairs c.fixes) (kind, member) };

    ghost keeps = { λ c kind member. among (pairs c.fixes) (kind, member) };

    ghost lasting = { Prim.search rules };

    fn takes(&self, kind: u32, member: u32) -> bool {
        self.fixes.takes(Pair { kind, member })
    }

    // The trait's clauses for this layer, and two more: which pairs are corrected then, and that the
    // book below stays.
    fn correct(&mut self, kind: u32, member: u32, amount: i64) -> Result<(), Fault>
        ensures answered { let units = units_over self.old.fixes (B.units self.old.book) kind member in
            let takes = takes_pair (pairs self.old.fixes) (kind, member) in
            answer result ≡ bare (correct_rule (B.count self.old.book) units takes kind member amount) }
        ensures kept { MatchResult result
            (λ _. (B.month self.new.book ≡ B.month self.old.book) × (B.count self.new.book ≡ B.count self.old.book))
            (λ _. self.new ≡ self.old) }
        ensures units { OnOk result ((k m : ℕ) → units_over self.new.fixes (B.units self.new.book) k m
            ≡ corrected_units (units_over self.old.fixes (B.units self.old.book) k m) amount (k, m) (kind, member)) }
        ensures taken { OnOk result ((k m : ℕ) → among (pairs self.new.fixes) (k, m)
            ≡ kept_after (among (pairs self.old.fixes) (k, m)) (k, m) (kind, member)) }
        ensures pairs { OnOk result (pairs self.new.fixes ≡ pairs_with (pairs self.old.fixes) (kind, member)) }
        ensures below { self.new.book ≡ self.old.book }
    {
        let units = new_units(self, kind, member, amount)?;
        self.fixes.put(Pair { kind, member }, units)
    }
}

//! A book that is one of two books, so that one list may hold books of several types.
#![tactic(auto)]

ghost use Rattle.either_book.specs.Either.{either};
ghost use Rattle.std.proofs.Common.{rules};

use book::book::Book;
use refusal::Fault;

/// One of two books.
#[derive(Clone, Copy)]
pub enum EitherBook<A, B> {
    First(A),
    Second(B),
}

impl<A: Book, B: Book> Book for EitherBook<A, B> {
    ghost month = { λ e. either A.Book.month B.Book.month e };

    ghost count = { λ e. either A.Book.count B.Book.count e };

    ghost units = { λ e kind member. either (λ a. A.Book.units a kind member) (λ b. B.Book.units b kind member) e };

    ghost month_in_range = { Prim.search rules };

    ghost count_in_range = { Prim.search rules };

    ghost units_in_range = { Prim.search rules };

    fn month(&self) -> u32 {
        match self {
            EitherBook::First(book) => book.month(),
            EitherBook::Second(book) => book.month(),
        }
    }

    fn members(&self) -> u32 {
        match self {
            EitherBook::First(book) => book.members(),
            EitherBook::Second(book) => book.members(),
        }
    }

    fn units(&self, kind: u32, member: u32) -> Result<u32, Fault> {
        match self {
            EitherBook::First(book) => book.units(kind, member),
            EitherBook::Second(book) => book.units(kind, member),
        }
    }
}

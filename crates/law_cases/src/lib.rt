//! Nothing absurd follows from the laws of a trait. Each function here has a plain contract over every
//! rule or every book, and calls what the trait has, so that its laws are at hand in the proof; turned
//! false, the contract must be refused, which it would not be if the laws clashed.
#![tactic(auto)]

ghost use Rattle.std.specs.Prelude.{◌≡◌};

use book::book::{Book, Correctable};
use sharing::rule::Rule;

/// Zero, whatever the sharing rule.
pub fn zero_by_rule<R: Rule>(rule: &R) -> u32
    ensures by_rule { result ≡ 0 }
{
    let mut shares = [0; 3];
    rule.share(100, &[1, 0, 2], &mut shares);
    rule.share(100, &[0; 3], &mut shares);
    0
}

/// Zero, whatever the book.
pub fn zero_by_book<B: Book>(book: &B) -> u32
    ensures by_book { result ≡ 0 }
{
    let _ = book.month();
    let _ = book.members();
    let _ = book.units(1, 0);
    0
}

/// Zero, whatever the book that takes corrections.
pub fn zero_by_correctable<B: Correctable>(book: &mut B) -> u32
    ensures by_correctable { result ≡ 0 }
{
    let _ = book.correct(1, 0, 1);
    let _ = book.correct(1, 0, -1);
    let _ = book.takes(1, 0);
    let _ = book.members();
    0
}

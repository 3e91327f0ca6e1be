//! A book's units, asked for once.
ghost use Rattle.std.specs.Prelude.{◌≡◌, length, if◌then◌else◌, MatchResult, nat_eq};
ghost use Rattle.refusal.specs.Answers.{answer, refused, done};
ghost use Rattle.refusal.specs.declared.Layer.TheVariants.{Ledger};
ghost use Rattle.statement.specs.Readings.{book_rows, row_asked};

use book::book::Book;
use refusal::{Fault, Layer, Refusal};

/// A member's units of the seven kinds.
fn member_row<B: Book>(book: &B, member: u32) -> Result<[u32; 7], Fault>
    ensures { answer result ≡ row_asked (B.count book.now) (B.units book.now) member }
{
    let mut row = [0u32; 7];
    for (i, units) in row.iter_mut().enumerate() {
        *units = book.units(i as u32 + 1, member)?;
    }
    Ok(row)
}

/// Reads all units of a book into memory that has a row for each member.
pub fn read_book<B: Book>(book: &B, out: &mut [[u32; 7]]) -> Result<(), Fault>
    ensures answered { answer result ≡ (if nat_eq (length out.old) (B.count book.now) then done tt else refused 11 Ledger 0) }
    ensures after { MatchResult result (λ _. out.new ≡ book_rows (B.units book.now) 0 (B.count book.now)) (λ _. out.new ≡ out.old) }
{
    if out.len() != book.members() as usize {
        return Err(Layer::Ledger.refuses(Refusal::Length));
    }
    for (member, row) in out.iter_mut().enumerate() {
        *row = member_row(book, member as u32)?;
    }
    Ok(())
}

//! The test that billing and resettling have in common.
ghost use Rattle.std.specs.Prelude.{◌≡◌, length};
ghost use Rattle.refusal.specs.Answers.{answer};
ghost use Rattle.ledger.specs.Billing.{memory_rule};

use crate::accounts::Accounts;
use crate::line::{Line, MEMBER_LINES};
use book::book::Book;
use refusal::{Fault, Layer, Refusal};

impl Accounts {
    /// Tests the lengths of file and statement, and the book's count.
    pub(crate) fn check_memory<B: Book>(
        &self,
        file: &[Line],
        statement: &[i64],
        wanted: usize,
        book: &B,
    ) -> Result<(), Fault>
        ensures { answer result ≡ memory_rule self.now.members (length file.now) (length statement.now) wanted (B.count book.now) }
    {
        if file.len() != MEMBER_LINES * self.members as usize {
            return Err(Layer::Ledger.refuses(Refusal::Length));
        }
        if statement.len() != wanted {
            return Err(Layer::Ledger.refuses(Refusal::Length));
        }
        if book.members() != self.members {
            return Err(Layer::Ledger.refuses(Refusal::Count));
        }
        Ok(())
    }
}

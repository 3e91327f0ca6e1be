//! Booking a voucher.
ghost use Rattle.std.specs.Prelude.{◌≡◌, List, IfErr};
ghost use Rattle.refusal.specs.Answers.{bare, after};
ghost use Rattle.tariff.specs.Heads.{book_rule};
ghost use Rattle.voucher.specs.declared.voucher.State.TheVariants.{Balanced};
ghost use Rattle.ledger.specs.declared.line.Line.{Line};
ghost use Rattle.ledger.specs.Booking.{booking_answer};
ghost use Rattle.ledger.specs.Histories.{booked, history_with};
ghost use Rattle.ledger.specs.Kept.{Promise, Invariant};
ghost use Rattle.ledger.specs.Ledgers.{HoldsAfter};

use crate::ledger::Ledger;
use crate::unbooked::Unbooked;
use sharing::rule::Rule;
use voucher::voucher::Voucher;

impl<R: Rule> Ledger<R> {
    /// Books a balanced voucher on the open month's heads. It ends the voucher either way; refused, it
    /// hands back the six amounts, and the ledger is as it was.
    pub fn book(&mut self, voucher: Voucher) -> Result<(), Unbooked>
        requires { voucher.state ≡ Balanced }
        ensures answered { booking_answer result ≡ bare (book_rule self.old.heads.amounts voucher.amounts) }
        ensures amounts { IfErr result (λ unbooked. unbooked.amounts ≡ voucher.amounts) }
        ensures heads { self.new.heads.amounts
            ≡ after (book_rule self.old.heads.amounts voucher.amounts) (λ sums. sums) self.old.heads.amounts }
        ensures same { (self.new.rule ≡ self.old.rule) × (self.new.sheet ≡ self.old.sheet)
            × (self.new.accounts ≡ self.old.accounts) }
        ensures promise { (file : List Line)
            → HoldsAfter Promise self.old file self.new file (history_with result (booked voucher.amounts)) }
        ensures invariant { (file : List Line)
            → HoldsAfter Invariant self.old file self.new file (history_with result (booked voucher.amounts)) }
    {
        let amounts = voucher.spend();
        self.heads
            .book(amounts)
            .map_err(|fault| Unbooked { fault, amounts })
    }
}

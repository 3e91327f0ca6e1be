//! The six heads of cost that wait for the open month's bill: division cost, the non-divisional
//! cost of 9-1 to 9-4, and the non-divisional settlement cost.
ghost use Rattle.std.specs.Prelude.{◌≡◌, [], ◌∷◌, length, pos, ◌+ℤ◌, if◌then◌else◌, Some, None};
ghost use Rattle.cents.specs.Passes.{all_pass};
ghost use Rattle.refusal.specs.Answers.{answer, bare, after};
ghost use Rattle.tariff.specs.Heads.{AmountsInRange, within, sums, book_rule};

use limits::MOST_CENTS;
use refusal::{Fault, Layer, Refusal};

/// Six amounts, each within ±4,000,000,000.
#[derive(Clone, Copy)]
pub struct Heads {
    amounts: [i64; 6],
    ghost long: { length amounts ≡ 6 },
    ghost small: { AmountsInRange amounts },
}

/// An amount added to what a head has, where the sum stays in range.
pub fn add_to_head(head: i64, amount: i64) -> Option<i64>
    ensures { result ≡ (if within (head +ℤ amount) then Some (head +ℤ amount) else None) }
{
    head.checked_add(amount)
        .filter(|sum| sum.unsigned_abs() <= MOST_CENTS)
}

/// Each head with its amount, where all of them stay in range.
fn summed(mut heads: [i64; 6], amounts: [i64; 6]) -> Option<[i64; 6]>
    ensures { result ≡ (if all_pass within (sums heads amounts) then Some (sums heads amounts) else None) }
{
    for (i, amount) in amounts.iter().enumerate() {
        heads[i] = add_to_head(heads[i], *amount)?;
    }
    Some(heads)
}

impl Heads {
    /// Nothing waits.
    pub fn zero() -> Heads
        ensures { result.amounts ≡ pos 0 ∷ pos 0 ∷ pos 0 ∷ pos 0 ∷ pos 0 ∷ pos 0 ∷ [] }
    {
        Heads { amounts: [0; 6] }
    }

    /// The six amounts.
    pub fn amounts(&self) -> [i64; 6]
        ensures amounts { result ≡ self.now.amounts }
        ensures small { AmountsInRange result }
    {
        self.amounts
    }

    /// Adds an amount to each head, or refuses where a head would go out of range.
    pub fn book(&mut self, amounts: [i64; 6]) -> Result<(), Fault>
        ensures answered { answer result ≡ bare (book_rule self.old.amounts amounts) }
        ensures after { self.new.amounts ≡ after (book_rule self.old.amounts amounts) (λ sums. sums) self.old.amounts }
    {
        let Some(sums) = summed(self.amounts, amounts) else {
            return Err(Layer::Ledger.refuses(Refusal::Booked));
        };
        *self = Heads { amounts: sums };
        Ok(())
    }
}

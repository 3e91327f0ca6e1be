//! What can be done with a voucher.
ghost use Rattle.std.specs.Prelude.{◌≡◌};
ghost use Rattle.refusal.specs.Answers.{answer, answer_by, bare, after};
ghost use Rattle.cents.specs.Cutting.{sum_z};
ghost use Rattle.voucher.specs.Calls.{open_rule, line_rule, line_state, balance_rule};
ghost use Rattle.voucher.specs.declared.voucher.State.TheVariants.{Balanced};

use crate::voucher::{State, Voucher};
use cents::totals::sum_of;
use limits::MOST_CONTROL;
use refusal::{Fault, Layer, Refusal};
use tariff::heads::add_to_head;

impl Voucher {
    /// Opens a voucher for a control total.
    pub fn open(control: i64) -> Result<Voucher, Fault>
        ensures { answer_by (λ v. (v.control, v.amounts, v.state)) result ≡ open_rule control }
    {
        if control.unsigned_abs() > MOST_CONTROL {
            return Err(Layer::Voucher.refuses(Refusal::Range));
        }
        Ok(Voucher {
            control,
            amounts: [0; 6],
            state: State::Open,
        })
    }

    /// Adds an amount to a head; a voucher that was balanced is open again.
    pub fn line(&mut self, head: u32, amount: i64) -> Result<(), Fault>
        ensures answered { answer result ≡ bare (line_rule self.old.amounts head amount) }
        ensures amounts { self.new.amounts ≡ after (line_rule self.old.amounts head amount) (λ amounts. amounts) self.old.amounts }
        ensures state { self.new.state ≡ line_state (line_rule self.old.amounts head amount) self.old.state }
        ensures control { self.new.control ≡ self.old.control }
    {
        if !(1..=6).contains(&head) {
            return Err(Layer::Voucher.refuses(Refusal::Head));
        }
        let i = head as usize - 1;
        let Some(sum) = add_to_head(self.amounts[i], amount) else {
            return Err(Layer::Voucher.refuses(Refusal::Head));
        };
        self.state = State::Open;
        self.amounts[i] = sum;
        Ok(())
    }

    /// Balances the voucher: its lines must add up to the control total. Refused, it stays as it was.
    pub fn balance(&mut self) -> Result<(), Fault>
        ensures answered { answer result ≡ balance_rule self.old.control self.old.amounts }
        ensures state { self.new.state ≡ after (balance_rule self.old.control self.old.amounts) (λ _. Balanced) self.old.state }
        ensures kept { (self.new.control ≡ self.old.control) × (self.new.amounts ≡ self.old.amounts) }
    {
        if sum_of(&self.amounts) != self.control as i128 {
            return Err(Layer::Voucher.refuses(Refusal::Control));
        }
        self.state = State::Balanced;
        Ok(())
    }

    /// Strikes the voucher out, whatever its state, and hands back its amounts.
    pub fn strike(self) -> [i64; 6]
        ensures { result ≡ self.amounts }
    {
        let Voucher {
            control: _,
            amounts,
            state: _,
        } = self;
        amounts
    }

    /// Ends a balanced voucher and hands back its amounts, which add up to its control total.
    pub fn spend(self) -> [i64; 6]
        requires { self.state ≡ Balanced }
        ensures amounts { result ≡ self.amounts }
        ensures whole { sum_z result ≡ self.control }
    {
        self.strike()
    }
}

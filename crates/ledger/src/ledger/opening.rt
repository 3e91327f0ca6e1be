//! Opening a ledger.
ghost use Rattle.std.specs.Prelude.{◌≡◌, List, [], MatchResult, OnOk};
ghost use Rattle.refusal.specs.Answers.{answer, bare};
ghost use Rattle.tariff.specs.Sheets.{Even};
ghost use Rattle.ledger.specs.declared.line.Line.{Line};
ghost use Rattle.ledger.specs.States.{opened, opening_rule, no_heads};
ghost use Rattle.ledger.specs.Kept.{Promise, Invariant};
ghost use Rattle.ledger.specs.Ledgers.{state_of, terms_of, IsNew};

use crate::accounts::Accounts;
use crate::ledger::Ledger;
use limits::{FIRST_MONTH, count_lawful, month_lawful};
use refusal::{Fault, Layer, Refusal};
use sharing::rule::Rule;
use tariff::heads::Heads;
use tariff::sheet::Sheet;

impl<R: Rule + Drop> Ledger<R> {
    /// A ledger of one member with nothing in it: the place in which a ledger is opened.
    pub fn blank(rule: R) -> Ledger<R>
        ensures rule { result.rule ≡ rule }
        ensures sheet { Even result.sheet.division result.sheet.management result.sheet.split }
        ensures accounts { (result.heads.amounts ≡ no_heads) × (result.accounts ≡ opened 1 FIRST_MONTH) }
    {
        Ledger {
            rule,
            sheet: Sheet::even(),
            heads: Heads::zero(),
            accounts: Accounts::new(1, FIRST_MONTH),
        }
    }

    /// Opens a ledger in the place of this one; refused, this one stays as it was.
    pub fn open(&mut self, rule: R, sheet: Sheet, members: u32, first: u32) -> Result<(), Fault>
        ensures answered { answer result ≡ bare (opening_rule members first) }
        ensures after { MatchResult result (λ _. IsNew self.new rule sheet members first) (λ _. self.new ≡ self.old) }
        ensures promise { OnOk result ((file : List Line) → Promise (terms_of self.new) [] (state_of self.new file)) }
        ensures invariant { OnOk result ((file : List Line) → Invariant (terms_of self.new) [] (state_of self.new file)) }
    {
        if !count_lawful(members as usize) {
            return Err(Layer::Ledger.refuses(Refusal::Count));
        }
        if !month_lawful(first) {
            return Err(Layer::Ledger.refuses(Refusal::Month));
        }
        self.rule = rule;
        self.sheet = sheet;
        self.heads = Heads::zero();
        self.accounts = Accounts::new(members, first);
        Ok(())
    }
}

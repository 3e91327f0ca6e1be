//! Looking a pair up, and keeping its units.
ghost use Rattle.std.specs.Prelude.{◌≡◌, ◌≤◌, [], MatchResult, OnOk, position};
ghost use Rattle.refusal.specs.Answers.{answer, bare};
ghost use Rattle.book.specs.Correcting.{taken_rule};
ghost use Rattle.corrections.specs.Kept.{kept, pairs};
ghost use Rattle.corrections.specs.Fixes.{Keeps, is_for, seek};
ghost use Rattle.corrections.specs.Pairs.{pairs_with, takes_pair};

use crate::fixes::{Fix, Fixes};
use crate::pair::Pair;
use limits::{MOST_PAIRS, MOST_UNITS};
use refusal::{Fault, Layer, Refusal};

impl Fixes {
    /// No pair is corrected.
    pub(crate) fn none() -> Fixes
        ensures { kept result ≡ [] }
    {
        let blank = Fix {
            pair: Pair { kind: 0, member: 0 },
            units: 0,
        };
        Fixes {
            used: 0,
            list: [blank; MOST_PAIRS],
        }
    }

    /// The place of a pair that was corrected.
    fn place(&self, pair: Pair) -> Option<usize>
        ensures { result ≡ position (is_for pair.kind pair.member) (kept self.now) }
    {
        self.list[..self.used]
            .iter()
            .position(|fix| pair == fix.pair)
    }

    /// The units that a pair was corrected to.
    pub(crate) fn look(&self, pair: Pair) -> Option<u32>
        ensures { result ≡ seek (kept self.now) pair.kind pair.member }
    {
        self.list[..self.used]
            .iter()
            .find(|fix| pair == fix.pair)
            .map(|fix| fix.units)
    }

    /// Whether a pair is corrected already or there is room for one more.
    #[tactic(auto, using(crate::proofs::Places::takes_kept))]
    pub(crate) fn takes(&self, pair: Pair) -> bool
        ensures { result ≡ takes_pair (pairs self.now) (pair.kind, pair.member) }
    {
        self.place(pair).is_some() || self.used < MOST_PAIRS
    }

    /// Keeps a pair's units; refused where no place is left for a new pair, and then nothing changes.
    #[tactic(auto, using(crate::proofs::Places::takes_kept))]
    pub(crate) fn put(&mut self, pair: Pair, units: u32) -> Result<(), Fault>
        requires { units ≤ MOST_UNITS }
        ensures answered { answer result ≡ bare (taken_rule (takes_pair (pairs self.old) (pair.kind, pair.member)) units) }
        ensures pairs { OnOk result (pairs self.new ≡ pairs_with (pairs self.old) (pair.kind, pair.member)) }
        ensures after { MatchResult result
            (λ _. Keeps (kept self.old) (kept self.new) (pair.kind, pair.member) units)
            (λ _. self.new ≡ self.old) }
    {
        match self.place(pair) {
            Some(at) => self.list[at] = Fix { pair, units },
            None if self.used < MOST_PAIRS => {
                self.list[self.used] = Fix { pair, units };
                self.used += 1;
            }
            None => return Err(Layer::Book.refuses(Refusal::Pair)),
        }
        Ok(())
    }
}

//! A tariff sheet: how division cost, management cost and the two split schedules are divided.
ghost use Rattle.std.specs.Prelude.{◌≡◌, true, sum, MatchResult};
ghost use Rattle.refusal.specs.Answers.{answer};
ghost use Rattle.tariff.specs.Sheets.{thousandths, sheet_rule, Even};

use cents::weights::{adds_up, each_at_most};
use refusal::{Fault, Layer, Refusal};

/// Weights in thousandths: six of division cost (9-1 to 9-4, management, settlement), four of
/// management cost (9-1 to 9-4), and the first part of each split (9-2, 9-3).
#[derive(Clone, Copy)]
pub struct Sheet {
    division: [u32; 6],
    management: [u32; 4],
    split: [u32; 2],
    ghost divided: { sum division ≡ 1000 },
    ghost managed: { sum management ≡ 1000 },
    ghost parted: { thousandths split ≡ true },
}

impl Sheet {
    /// A sheet that divides evenly: the place in which another sheet is laid.
    pub fn even() -> Sheet
        ensures { Even result.division result.management result.split }
    {
        Sheet {
            division: [167, 167, 167, 167, 166, 166],
            management: [250; 4],
            split: [500; 2],
        }
    }

    /// Lays a sheet whole in the place of this one; refused, this one stays.
    pub fn lay(
        &mut self,
        division: [u32; 6],
        management: [u32; 4],
        split: [u32; 2],
    ) -> Result<(), Fault>
        ensures answered { answer result ≡ sheet_rule division management split }
        ensures after { MatchResult result
            (λ _. (self.new.division ≡ division) × (self.new.management ≡ management) × (self.new.split ≡ split))
            (λ _. self.new ≡ self.old) }
    {
        if !(each_at_most(division, 1000)
            && each_at_most(management, 1000)
            && each_at_most(split, 1000))
        {
            return Err(Layer::Sheet.refuses(Refusal::Range));
        }
        if !(adds_up(division, 1000) && adds_up(management, 1000)) {
            return Err(Layer::Sheet.refuses(Refusal::Weights));
        }
        *self = Sheet {
            division,
            management,
            split,
        };
        Ok(())
    }

    /// The six division weights.
    pub fn division(&self) -> [u32; 6]
        ensures weights { result ≡ self.now.division }
        ensures whole { sum result ≡ 1000 }
    {
        self.division
    }

    /// The four management weights.
    pub fn management(&self) -> [u32; 4]
        ensures weights { result ≡ self.now.management }
        ensures whole { sum result ≡ 1000 }
    {
        self.management
    }

    /// The two splits.
    pub fn split(&self) -> [u32; 2]
        ensures parts { result ≡ self.now.split }
        ensures small { thousandths result ≡ true }
    {
        self.split
    }
}

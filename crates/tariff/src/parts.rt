//! How division cost is parted, and its management part again.
ghost use Rattle.std.specs.Prelude.{◌≡◌, ◌<◌};
ghost use Rattle.tariff.specs.Costs.{divided, managed, service, settlement};
ghost use Rattle.tariff.specs.Heads.{AmountsInRange};

use crate::heads::Heads;
use crate::sheet::Sheet;
use cents::cutting::cut;

/// Division cost's parts (9-1 to 9-4, management, settlement), the management part's own four, and
/// the heads that they are cut from: all in range, as the heads are.
#[derive(Clone, Copy)]
pub(crate) struct Parts {
    division: [i64; 6],
    management: [i64; 4],
    heads: [i64; 6],
    ghost divided: { AmountsInRange division },
    ghost managed: { AmountsInRange management },
    ghost small: { AmountsInRange heads },
}

impl Parts {
    /// The parts of the heads' division cost by a sheet.
    pub(crate) fn cut(sheet: &Sheet, heads: &Heads) -> Parts
        ensures division { result.division ≡ divided sheet.now.division heads.now.amounts }
        ensures management { result.management ≡ managed sheet.now.division sheet.now.management heads.now.amounts }
        ensures heads { result.heads ≡ heads.now.amounts }
    {
        let heads = heads.amounts();
        let division = cut(heads[0], sheet.division());
        let management = cut(division[4], sheet.management());
        Parts {
            division,
            management,
            heads,
        }
    }

    /// The cost of one of 9-1 to 9-4: its division part, its management part, its non-divisional cost.
    pub(crate) fn service(&self, i: usize) -> i64
        requires { i < 4 }
        ensures { result ≡ service self.now.division self.now.management self.now.heads i }
    {
        self.division[i] + self.management[i] + self.heads[i + 1]
    }

    /// Settlement cost: its division part and its non-divisional cost.
    pub(crate) fn settlement(&self) -> i64
        ensures { result ≡ settlement self.now.division self.now.heads }
    {
        self.division[5] + self.heads[5]
    }
}

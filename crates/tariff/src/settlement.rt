//! PJMSettlement's cost, cut by the fixed weights of its seven components.
ghost use Rattle.std.specs.Prelude.{◌≡◌, sum};
ghost use Rattle.cents.specs.Cutting.{cut, sum_z};
ghost use Rattle.tariff.specs.Costs.{settlement_weights};

use cents::cutting::cut;

/// The weights of components 7 to 13, of 100,000.
const WEIGHTS: [u32; 7] = [68_000, 8_000, 4_800, 3_200, 7_896, 104, 8_000];

/// The settlement cost of components 7 to 13.
pub fn settlement_parts(cost: i64) -> [i64; 7]
    ensures table { sum settlement_weights ≡ 100000 }
    ensures parts { result ≡ cut cost settlement_weights }
    ensures whole { sum_z result ≡ cost }
{
    cut(cost, WEIGHTS)
}

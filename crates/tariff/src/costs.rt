//! From six heads of cost to the thirteen component costs.
ghost use Rattle.std.specs.Prelude.{◌≡◌, ◌≤◌, ◌∷◌, ◌++◌};
ghost use Rattle.cents.specs.Cutting.{cut, sum_z};
ghost use Rattle.tariff.specs.Costs.{halves, service_costs, costs, Bounded};
ghost use Rattle.limits.specs.declared.TheConstants.{MOST_COST};

use crate::heads::Heads;
use crate::parts::Parts;
use crate::settlement::settlement_parts;
use crate::sheet::Sheet;
use cents::cutting::cut;

/// A split schedule's two components.
fn halves(cost: i64, split: u32) -> [i64; 2]
    requires { split ≤ 1000 }
    ensures parts { result ≡ cut cost (halves split) }
    ensures whole { sum_z result ≡ cost }
{
    cut(cost, [split, 1000 - split])
}

/// The thirteen components in their order.
fn joined(
    first: i64,
    second: [i64; 2],
    third: [i64; 2],
    fourth: i64,
    settled: [i64; 7],
) -> [i64; 13]
    ensures { result ≡ first ∷ (second ++ (third ++ (fourth ∷ settled))) }
{
    let [a, b] = second;
    let [c, d] = third;
    let [s1, s2, s3, s4, s5, s6, s7] = settled;
    [first, a, b, c, d, fourth, s1, s2, s3, s4, s5, s6, s7]
}

impl Sheet {
    /// The cost of 9-1 to 9-4 and of settlement.
    fn service_costs(&self, heads: &Heads) -> [i64; 5]
        ensures { result ≡ service_costs self.now.division self.now.management heads.now.amounts }
    {
        // Four calls and not a loop: settlement, the fifth, has no management part.
        let parts = Parts::cut(self, heads);
        [
            parts.service(0),
            parts.service(1),
            parts.service(2),
            parts.service(3),
            parts.settlement(),
        ]
    }

    /// The thirteen component costs of six heads, which add up to them. None is beyond ±12,000,000,000,
    /// three times the most of a head.
    pub fn costs(&self, heads: &Heads) -> [i64; 13]
        ensures value { result ≡ costs self.now.division self.now.management self.now.split heads.now.amounts }
        ensures whole { sum_z result ≡ sum_z heads.now.amounts }
        ensures small { Bounded MOST_COST result }
    {
        let [first, second, third, fourth, settlement] = self.service_costs(heads);
        let split = self.split();
        let second = halves(second, split[0]);
        let third = halves(third, split[1]);
        joined(first, second, third, fourth, settlement_parts(settlement))
    }
}

//! Sums worked by hand, shown of the definitions themselves.
#![tactic(auto)]

ghost use Rattle.std.specs.Prelude.{◌≡◌, length};
ghost use Rattle.sum_cases.specs.Sums.{computed, by_hand};

/// How many sums there are. The definitions give each of them as it was worked by hand.
pub fn worked_sums() -> u32
    ensures count { result ≡ length by_hand }
    ensures sums { computed ≡ by_hand }
{
    9
}

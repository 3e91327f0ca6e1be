//! The calls of `screens`, exported to C under their names. It has no code of its own.
#![tactic(auto)]

ghost use Rattle.std.specs.Prelude.{◌≡◌};
ghost use Rattle.screens.specs.Screens.{rate_answer, text_answer};
ghost use Rattle.ferc.specs.Rates.{rate_rule};
ghost use Rattle.month_text.specs.Months.{read_month};

use screens::{RateAnswer, TextAnswer};

/// The rate of a FERC year; 0 where it is refused.
#[unsafe(no_mangle)]
pub extern "C" fn bulliongnat_ferc_rate(
    estimate: i64,
    paid: i64,
    recovered: i64,
    volume: u64,
) -> RateAnswer
    ensures { result ≡ rate_answer (rate_rule estimate paid recovered volume) }
{
    screens::bulliongnat_ferc_rate(estimate, paid, recovered, volume)
}

/// Whether a text is a month's, and else the first refusal.
#[unsafe(no_mangle)]
pub extern "C" fn bulliongnat_test_month(text: &[u8]) -> TextAnswer
    ensures { result ≡ text_answer (read_month text.now) }
{
    screens::bulliongnat_test_month(text)
}

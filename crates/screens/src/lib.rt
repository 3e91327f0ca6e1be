//! What screens written in C call: the FERC rate, and the test of a month's text. A refusal is
//! given by its number; 0 stands for an accepted call. The crate `screens_c` exports them.
#![tactic(auto)]

ghost use Rattle.std.specs.Prelude.{◌≡◌};
ghost use Rattle.screens.specs.Screens.{rate_answer, text_answer};
ghost use Rattle.ferc.specs.Rates.{rate_rule};
ghost use Rattle.month_text.specs.Months.{read_month};

use ferc::rate::YearFigures;
use month_text::reader::read;

/// A rate, or the number of its refusal. C has no Result.
#[repr(C)]
#[derive(Clone, Copy)]
pub struct RateAnswer {
    pub rate: i64,
    pub number: u32,
}

/// The number of a refusal and its line; 0 and 0 where the text is accepted. C has no Result.
#[repr(C)]
#[derive(Clone, Copy)]
pub struct TextAnswer {
    pub number: u32,
    pub line: u32,
}

/// The rate of a FERC year; 0 where it is refused.
pub fn bulliongnat_ferc_rate(estimate: i64, paid: i64, recovered: i64, volume: u64) -> RateAnswer
    ensures { result ≡ rate_answer (rate_rule estimate paid recovered volume) }
{
    let figures = YearFigures {
        estimate,
        paid,
        recovered,
        volume,
    };
    match figures.rate() {
        Ok(rate) => RateAnswer { rate, number: 0 },
        Err(fault) => RateAnswer {
            rate: 0,
            number: fault.refusal.number(),
        },
    }
}

/// Whether a text is a month's, and else the first refusal.
pub fn bulliongnat_test_month(text: &[u8]) -> TextAnswer
    ensures { result ≡ text_answer (read_month text.now) }
{
    match read(text) {
        Ok(_) => TextAnswer { number: 0, line: 0 },
        Err(fault) => TextAnswer {
            number: fault.refusal.number(),
            line: fault.place,
        },
    }
}

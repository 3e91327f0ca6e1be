//! A voucher is opened, takes lines, is balanced, and is then ended by a call that hands back its
//! six amounts. It may not lapse.
mod calls;

ghost use Rattle.std.specs.Prelude.{◌≡◌, ◌≤◌, unsigned_abs};
ghost use Rattle.cents.specs.Cutting.{sum_z};
ghost use Rattle.tariff.specs.Heads.{AmountsInRange};
ghost use Rattle.voucher.specs.declared.voucher.State.TheVariants.{Balanced, Ended};
ghost use Rattle.limits.specs.declared.TheConstants.{MOST_CONTROL};

/// The state of a voucher.
#[derive(Clone, Copy, PartialEq, Eq, Debug)]
pub enum State {
    /// Lines are taken; nothing is known of their sum.
    Open,
    /// The lines add up to the control total.
    Balanced,
    /// The amounts are handed back. The calls that end a voucher take it apart, so no voucher is in this state.
    Ended,
}

/// A control total and the amounts of six heads; balanced, they add up to it.
pub struct Voucher {
    control: i64,
    amounts: [i64; 6],
    state: State,
    ghost control_in_range: { unsigned_abs control ≤ MOST_CONTROL },
    ghost small: { AmountsInRange amounts },
    ghost even: { (state ≡ Balanced → sum_z amounts ≡ control) },
}

// A voucher is spent or struck: letting one go asks what no call leaves it in, and so is refused.
impl Drop for Voucher {
    fn drop(self)
        requires { self.state ≡ Ended }
    {
        let Voucher {
            control: _,
            amounts: _,
            state: _,
        } = self;
    }
}

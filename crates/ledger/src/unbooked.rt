//! A refused booking.
ghost use Rattle.std.specs.Prelude.{◌≡◌};

use refusal::Fault;

/// Why a booking was refused, and the six amounts of the voucher that it ended.
#[derive(Clone, Copy)]
pub struct Unbooked {
    pub fault: Fault,
    pub amounts: [i64; 6],
}

/// The fault alone, for a caller that has no use for the amounts.
impl From<Unbooked> for Fault {
    ghost from_gives = { λ unbooked fault. fault ≡ unbooked.fault };

    fn from(unbooked: Unbooked) -> Fault {
        unbooked.fault
    }
}

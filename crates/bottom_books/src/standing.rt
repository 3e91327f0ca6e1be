//! Megawatts that stand for a whole period.
ghost use Rattle.std.specs.Prelude.{◌≡◌};
ghost use Rattle.bottom_books.specs.Standings.{standing_lawful, megawatts_lawful, given_lawful};

use limits::{MOST_MEGAWATTS, MOST_UNITS};

/// A member's standing megawatts for kinds 1, 2, 4 and 6, and its units of kinds 3, 5 and 7.
#[derive(Clone, Copy, PartialEq, Eq, Debug)]
pub struct Standing {
    pub transmission: u32,
    pub ftr: u32,
    pub bids: u32,
    pub energy: u32,
    pub segments: u32,
    pub capacity: u32,
    pub invoices: u32,
}

impl Standing {
    /// Whether no megawatts are above 1,000,000 and no given units above 2,000,000,000.
    pub(crate) fn lawful(&self) -> bool
        ensures { result ≡ standing_lawful self.now }
    {
        self.megawatts_lawful() && self.given_lawful()
    }

    fn megawatts_lawful(&self) -> bool
        ensures { result ≡ megawatts_lawful self.now }
    {
        self.transmission <= MOST_MEGAWATTS
            && self.ftr <= MOST_MEGAWATTS
            && self.energy <= MOST_MEGAWATTS
            && self.capacity <= MOST_MEGAWATTS
    }

    fn given_lawful(&self) -> bool
        ensures { result ≡ given_lawful self.now }
    {
        [self.bids, self.segments, self.invoices]
            .iter()
            .all(|units| u64::from(*units) <= MOST_UNITS)
    }
}

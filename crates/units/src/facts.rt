//! A member's eleven facts of a month, in the order of a `user` line after the account.
ghost use Rattle.std.specs.Prelude.{◌≡◌};
ghost use Rattle.units.specs.Kinds.{lawful, energy_lawful, bids_lawful, capacity_lawful, units_of, facts_of};

use limits::MOST_FACT;

/// What one member did in a month, as its office reports it.
#[derive(Clone, Copy, PartialEq, Eq, Debug)]
pub struct Facts {
    pub transmission: u32,
    pub wheel_through: u32,
    pub generation: u32,
    pub virtual_mwh: u32,
    pub ftr: u32,
    pub obligation_bids: u32,
    pub option_bids: u32,
    pub segments: u32,
    pub capacity_obligation: u32,
    pub capacity_resource: u32,
    pub invoices: u32,
}

/// The facts from a row of eleven numbers.
impl From<[u32; 11]> for Facts {
    ghost from_gives = { λ row facts. facts ≡ facts_of row };

    fn from(row: [u32; 11]) -> Facts {
        Facts {
            transmission: row[0],
            wheel_through: row[1],
            generation: row[2],
            virtual_mwh: row[3],
            ftr: row[4],
            obligation_bids: row[5],
            option_bids: row[6],
            segments: row[7],
            capacity_obligation: row[8],
            capacity_resource: row[9],
            invoices: row[10],
        }
    }
}

impl Facts {
    /// Whether each fact is at most 100,000,000 and wheel-through is not above transmission.
    pub fn lawful(&self) -> bool
        ensures { result ≡ lawful self.now }
    {
        self.energy_lawful() && self.bids_lawful() && self.capacity_lawful()
    }

    /// The units of the seven kinds, in their order; nothing where the facts are not lawful.
    pub fn units(&self) -> Option<[u32; 7]>
        ensures { result ≡ units_of self.now }
    {
        if !self.lawful() {
            return None;
        }
        let units = [
            self.transmission,
            self.ftr,
            self.obligation_bids + 5 * self.option_bids,
            self.transmission - self.wheel_through + self.generation + self.virtual_mwh,
            self.segments,
            self.capacity_obligation + self.capacity_resource,
            self.invoices,
        ];
        Some(units)
    }

    fn energy_lawful(&self) -> bool
        ensures { result ≡ energy_lawful self.now }
    {
        self.transmission <= MOST_FACT
            && self.wheel_through <= self.transmission
            && self.generation <= MOST_FACT
            && self.virtual_mwh <= MOST_FACT
    }

    fn bids_lawful(&self) -> bool
        ensures { result ≡ bids_lawful self.now }
    {
        self.ftr <= MOST_FACT
            && self.obligation_bids <= MOST_FACT
            && self.option_bids <= MOST_FACT
            && self.segments <= MOST_FACT
    }

    fn capacity_lawful(&self) -> bool
        ensures { result ≡ capacity_lawful self.now }
    {
        self.capacity_obligation <= MOST_FACT
            && self.capacity_resource <= MOST_FACT
            && self.invoices <= MOST_FACT
    }
}

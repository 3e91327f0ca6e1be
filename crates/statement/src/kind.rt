//! The seven kinds of units.
ghost use Rattle.std.specs.Prelude.{◌≡◌, ◌+◌, ◌<◌};

/// A kind, by its place among the seven.
#[derive(Clone, Copy)]
pub struct Kind {
    pub place: usize,
    ghost below: { place < 7 },
}

impl Kind {
    /// The number by which books are asked for it, 1 to 7.
    pub fn number(self) -> u32
        ensures { result ≡ self.place + 1 }
    {
        self.place as u32 + 1
    }
}

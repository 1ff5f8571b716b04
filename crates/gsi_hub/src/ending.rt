ghost use Rattle.std.specs.Prelude.{◌≡◌};
ghost use Rattle.gsi_hub.specs.inner.Endings.{merged};

/// What the building of indexes may end with.
#[derive(Clone, Copy, Debug, PartialEq, Eq)]
pub enum Ending {
    /// None of them is live.
    Dropped,
    /// The least that is live and lags.
    Lags { i: u32 },
    /// Those that are live are covered, and there are such.
    Covered,
}

impl Ending {
    /// What two lists of indexes come to together.
    pub fn and(self, other: Ending) -> Ending
        ensures { result ≡ merged self other }
    {
        match self {
            Ending::Dropped => other,
            Ending::Covered => match other {
                Ending::Lags { i } => Ending::Lags { i },
                _ => Ending::Covered,
            },
            Ending::Lags { i } => match other {
                Ending::Lags { i: j } => Ending::Lags { i: i.min(j) },
                _ => Ending::Lags { i },
            },
        }
    }
}

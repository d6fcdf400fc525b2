//! Why a search over two texts has no report.

use resolvo_pool_core::want::Want;

/// The most bytes that a report may have, as for the judge.
pub const MOST_BYTES: u64 = 1 << 30;

/// Why there is no report.
#[derive(Clone, Copy, Debug, PartialEq, Eq)]
pub enum Stop {
    /// The search lacked something.
    Lacks(Want),
    /// The budget of the search was used up.
    GivenUp,
    /// The report has more bytes than it may have, by its message alone.
    TooLong,
}

impl From<Want> for Stop {
    ghost use Rattle.std.specs.Prelude.{◌≡◌};
    ghost use Rattle.resolve_answer.specs.declared.stop.Stop.TheVariants.{Lacks};

    ghost from_gives = { λ w s. s ≡ Lacks w };

    fn from(lacked: Want) -> Self {
        Stop::Lacks(lacked)
    }
}

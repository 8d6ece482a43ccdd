// Why a replay gives no answer.
use std::alloc::AllocError;

/// Why a replay gives no answer.
#[derive(Clone, Copy, Debug, PartialEq, Eq)]
pub enum ReplayFault {
    /// A number of that scenario (from 0) and house day is above 2^127 - 1 in absolute value, and none before it.
    TooWide { scenario: usize, day: u8 },
    /// Memory ran out.
    NoMemory,
}

impl From<AllocError> for ReplayFault {
    ghost use Rattle.std.specs.Prelude.{◌≡◌};
    ghost use Rattle.core_replay.specs.declared.fault.ReplayFault.TheVariants.{NoMemory};

    ghost from_gives = { λ _ r. r ≡ NoMemory };

    fn from(_: AllocError) -> ReplayFault {
        ReplayFault::NoMemory
    }
}

// Why a certificate is not accepted.
use std::alloc::AllocError;

/// Why a check does not accept a certificate. Conditions and their places are numbered from 1.
#[derive(Clone, Copy, Debug, PartialEq, Eq)]
pub enum CheckFault {
    /// All places before pass, no number of this one is above 2^127 - 1 in absolute value, and it does not hold.
    No { condition: u8, place: u32 },
    /// All places before pass, and a number of this one is above 2^127 - 1 in absolute value.
    TooWide { condition: u8, place: u32 },
    /// Memory ran out.
    NoMemory,
}

impl From<AllocError> for CheckFault {
    ghost use Rattle.std.specs.Prelude.{◌≡◌};
    ghost use Rattle.core_check.specs.declared.fault.CheckFault.TheVariants.{NoMemory};

    ghost from_gives = { λ _ r. r ≡ NoMemory };

    fn from(_: AllocError) -> CheckFault {
        CheckFault::NoMemory
    }
}

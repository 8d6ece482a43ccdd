// Why a step of a pivot is not made.
use exact_frac::Left;
use std::alloc::AllocError;

/// Why a step is not made.
#[derive(Clone, Copy, Debug, PartialEq, Eq)]
pub enum Fault {
    /// One of its operations left the type.
    Left,
    /// Memory was refused.
    NoMemory,
}

impl From<AllocError> for Fault {
    ghost use Rattle.std.specs.Prelude.{◌≡◌};
    ghost use Rattle.core_sparse.specs.declared.fault.Fault.TheVariants.{NoMemory};

    ghost from_gives = { λ _ r. r ≡ NoMemory };

    fn from(_: AllocError) -> Fault {
        Fault::NoMemory
    }
}

impl From<Left> for Fault {
    ghost use Rattle.std.specs.Prelude.{◌≡◌};
    ghost use Rattle.core_sparse.specs.declared.fault.Fault.TheVariants as fault;

    ghost from_gives = { λ _ r. r ≡ fault.Left };

    fn from(_: Left) -> Fault {
        Fault::Left
    }
}

// Why a margin has no certificate.
use core_duals::DualFault;
use core_run::RunFault;
use std::alloc::AllocError;

/// Why a case gets no certificate.
#[derive(Clone, Copy, Debug, PartialEq, Eq)]
pub enum MarginFault {
    /// An operation of this pivot, counted from 1, leaves 128 bits.
    Pivot { pivot: u64 },
    /// A number that the certificate is made from is above 2^127 - 1 in absolute value, printed or not.
    Common,
    /// The run has not ended after so many pivots, which are the budget.
    Spent { pivots: u64 },
    /// Memory was refused.
    NoMemory,
}

impl From<AllocError> for MarginFault {
    ghost use Rattle.std.specs.Prelude.{◌≡◌};
    ghost use Rattle.core_margin.specs.declared.fault.MarginFault.TheVariants.{NoMemory};

    ghost from_gives = { λ _ r. r ≡ NoMemory };

    fn from(_: AllocError) -> MarginFault {
        MarginFault::NoMemory
    }
}

impl From<RunFault> for MarginFault {
    ghost use Rattle.std.specs.Prelude.{◌≡◌};
    ghost use Rattle.core_margin.specs.Answers.{fault_of_run};

    ghost from_gives = { λ fault r. r ≡ fault_of_run fault };

    fn from(fault: RunFault) -> MarginFault {
        match fault {
            RunFault::TooWide { pivot } => MarginFault::Pivot { pivot },
            RunFault::Spent { pivots } => MarginFault::Spent { pivots },
            RunFault::NoMemory => MarginFault::NoMemory,
        }
    }
}

impl From<DualFault> for MarginFault {
    ghost use Rattle.std.specs.Prelude.{◌≡◌};
    ghost use Rattle.core_margin.specs.Answers.{fault_of_numbers};

    ghost from_gives = { λ fault r. r ≡ fault_of_numbers fault };

    fn from(fault: DualFault) -> MarginFault {
        match fault {
            DualFault::TooWide => MarginFault::Common,
            DualFault::NoMemory => MarginFault::NoMemory,
        }
    }
}

// Why a report gives no answer.
use core_replay::ReplayFault;
use std::alloc::AllocError;

/// Why a report gives no answer.
#[derive(Clone, Copy, Debug, PartialEq, Eq)]
pub enum ReportFault {
    /// In the replay of that scenario (from 0) and house day a number is above 2^127 - 1 in absolute value, and none
    /// before it.
    TooWide { scenario: usize, day: u8 },
    /// Memory ran out.
    NoMemory,
}

impl From<AllocError> for ReportFault {
    ghost use Rattle.std.specs.Prelude.{◌≡◌};
    ghost use Rattle.core_report.specs.declared.fault.ReportFault.TheVariants.{NoMemory};

    ghost from_gives = { λ _ r. r ≡ NoMemory };

    fn from(_: AllocError) -> ReportFault {
        ReportFault::NoMemory
    }
}

impl From<ReplayFault> for ReportFault {
    ghost use Rattle.std.specs.Prelude.{◌≡◌};
    ghost use Rattle.core_report.specs.Faults.{fault_of};

    ghost from_gives = { λ fault r. r ≡ fault_of fault };

    fn from(fault: ReplayFault) -> ReportFault {
        match fault {
            ReplayFault::TooWide { scenario, day } => ReportFault::TooWide { scenario, day },
            ReplayFault::NoMemory => ReportFault::NoMemory,
        }
    }
}

// Fractions over their least common denominator.
ghost use Rattle.std.specs.Prelude.{◌≡◌, ◌^◌, ◌-◌, map, Err, IfOk, OnOk};
ghost use Rattle.core_sums.specs.Widths.{most};
ghost use Rattle.exact_frac.specs.Value128.{value128};
ghost use Rattle.core_duals.specs.Lists.{CommonLeaves};
ghost use Rattle.core_duals.specs.Scaled.{IsOverCommon};

use core_wide::Numbers;
use exact_frac::{Frac128, Left, common_den, scaled};
use std::alloc::{AllocError, Global};

/// A list of fractions over one denominator.
#[derive(Debug, Drop)]
pub struct Scaled {
    /// The least common denominator, so at least 1.
    pub den: i128,
    /// The numerators over it, in the list's order.
    pub nums: Numbers,
}

/// Why a list is not put over one denominator.
#[derive(Clone, Copy, Debug, PartialEq, Eq)]
pub enum DualFault {
    /// The least common denominator, or a numerator over it, is above 2^127 - 1 in absolute value.
    TooWide,
    /// Memory was refused.
    NoMemory,
}

impl From<AllocError> for DualFault {
    ghost use Rattle.std.specs.Prelude.{◌≡◌};
    ghost use Rattle.core_duals.specs.declared.scaled.DualFault.TheVariants.{NoMemory};

    ghost from_gives = { λ _ r. r ≡ NoMemory };

    fn from(_: AllocError) -> DualFault {
        DualFault::NoMemory
    }
}

impl From<Left> for DualFault {
    ghost use Rattle.std.specs.Prelude.{◌≡◌};
    ghost use Rattle.core_duals.specs.declared.scaled.DualFault.TheVariants.{TooWide};

    ghost from_gives = { λ _ r. r ≡ TooWide };

    fn from(_: Left) -> DualFault {
        DualFault::TooWide
    }
}

/// A list over its least common denominator.
pub(crate) fn over_common(alloc: Global, list: &[Frac128]) -> Result<Scaled, DualFault>
    ensures exact { IfOk result (IsOverCommon (map value128 list.now)) }
    ensures fits { OnOk result (¬ (CommonLeaves most (map value128 list.now))) }
    ensures too_wide { result ≡ Err DualFault.TooWide
        → CommonLeaves most (map value128 list.now) }
{
    let den = common_den(list)?;
    let mut nums = Numbers::zeros(alloc, list.len())?;
    for i in 0..list.len() {
        nums.set(i, scaled(list[i], den)?);
    }
    Ok(Scaled { den, nums })
}

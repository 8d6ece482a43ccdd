// The certificate that the numbers of a last dictionary give.
ghost use Rattle.std.specs.Prelude.{◌≡◌, suc, ◌-◌, ◌^◌, length, Err, IfOk, OnOk};
ghost use Rattle.core_sums.specs.Places.{at};
ghost use Rattle.core_model.specs.Fits.{Fits, IsPlainlyRefusing};
ghost use Rattle.core_lp.specs.declared.names.Col.TheVariants.{Loss};
ghost use Rattle.core_lp.specs.ByName.{of_column};
ghost use Rattle.core_lp.specs.CaseProgramme.{row_names};
ghost use Rattle.core_lp.specs.Named.{named_of};
ghost use Rattle.core_lp.specs.Placing.{placed, ArePartsOf, PlacedLeaves};
ghost use Rattle.core_lp.specs.Placing.{loss_placed, dual_weights, farkas_weights, numerators_of, ArePositive, LossLeaves};

use crate::built::Built;
use crate::column_numbers::by_column;
use crate::row_numbers::{by_row, house_days, line_weights};
use core_book::Case;
use core_duals::{DualFault, Scaled};
use core_model::{Calendar, Cert, Numbers, Weights};
use core_wide::{minus, times};
use std::alloc::{AllocError, Global};

/// The numbers of a last dictionary of a case's programme, as `core_duals` gives them.
#[derive(Debug, Drop)]
pub enum Parts {
    /// No value is negative: the values of the columns, and the costs of the loss column and of the rows' slacks.
    Optimal { primal: Scaled, duals: Scaled },
    /// A row cannot hold: its coefficients of the rows' slacks.
    Cannot { farkas: Scaled },
}

/// The loss of a calendar, from its numbers and that of the loss column. `TooWide` comes exactly where the fixed cash of
/// day 0 times the denominator, or the loss, is above 2^127 - 1 in absolute value.
fn loss_placed(case: &Case, primal: &Scaled, number: i128) -> Result<i128, DualFault>
    requires { number ≡ of_column case.now (at primal.now.nums) Loss }
    ensures value { IfOk result (λ loss. loss ≡ loss_placed case.now (numerators_of primal.now)) }
    ensures stays { OnOk result (¬ (LossLeaves (2 ^ 127 - 1) case.now (numerators_of primal.now))) }
    ensures too_wide { result ≡ Err DualFault.TooWide
        → LossLeaves (2 ^ 127 - 1) case.now (numerators_of primal.now) }
{
    let fixed = match times(i128::from(case.cash(0)), primal.den) {
        Some(fixed) => fixed,
        None => return Err(DualFault::TooWide),
    };
    match minus(number, fixed) {
        Some(loss) => Ok(loss),
        None => Err(DualFault::TooWide),
    }
}

/// The weights, of which the first number is that of the first scenario on day 0, and the others are those of the rows.
fn dual_weights(
    alloc: Global,
    case: &Case,
    built: &Built,
    duals: &Scaled,
) -> Result<Weights, AllocError>
    requires built { built.now ≡ named_of case.now }
    requires numbers { ArePositive (suc (length (row_names case.now))) (numerators_of duals.now) }
    ensures { IfOk result (λ w. w ≡ dual_weights case.now (numerators_of duals.now)) }
{
    // A well-formed case has a scenario.
    case.well_formed();
    let numbers = duals.nums.as_slice();
    let mut rows = by_row(alloc, case, built, &numbers[1..])?;
    rows.loss.set(0, numbers[0]);
    let full = line_weights(alloc, case, &rows)?;
    Ok(Weights {
        den: duals.den,
        scenario: rows.loss,
        limit: rows.limit,
        pool: rows.pool,
        full,
    })
}

/// The weights of which the numbers are those of the rows, and no scenario has one.
fn farkas_weights(
    alloc: Global,
    case: &Case,
    built: &Built,
    farkas: &Scaled,
) -> Result<Weights, AllocError>
    requires built { built.now ≡ named_of case.now }
    requires numbers { ArePositive (length (row_names case.now)) (numerators_of farkas.now) }
    ensures { IfOk result (λ w. w ≡ farkas_weights case.now (numerators_of farkas.now)) }
{
    let rows = by_row(alloc, case, built, farkas.nums.as_slice())?;
    let full = line_weights(alloc, case, &rows)?;
    Ok(Weights {
        den: farkas.den,
        scenario: Numbers::zeros(alloc, house_days(case))?,
        limit: rows.limit,
        pool: rows.pool,
        full,
    })
}

/// The certificate with these numbers, each at the place that its column or row names.
///
/// The amounts are the values of the columns, and the loss is that of the loss column less the fixed cash of day 0. The
/// weights are the numbers of the rows: those of limits, pools and losses as they are; of a position that of its back row
/// less that of its full row, and of collateral minus that of its full row. The cost of the loss column is the weight of
/// the first scenario on day 0. Where a row cannot hold, no scenario has a weight.
///
/// `TooWide` comes exactly where the fixed cash of day 0 times the denominator, which is not printed, or the loss is above
/// 2^127 - 1 in absolute value; a refusing certificate has no loss, so it has no such error. `NoMemory` comes for want of
/// memory alone.
pub fn cert_of(alloc: Global, case: &Case, built: &Built, parts: &Parts) -> Result<Cert, DualFault>
    requires built { built.now ≡ named_of case.now }
    requires parts { ArePartsOf case.now parts.now }
    ensures placed { IfOk result (λ cert. cert ≡ placed case.now parts.now) }
    ensures fits { IfOk result (λ cert. Fits case.now cert) }
    ensures refusing { IfOk result IsPlainlyRefusing }
    ensures stays { OnOk result (¬ (PlacedLeaves (2 ^ 127 - 1) case.now parts.now)) }
    ensures too_wide { result ≡ Err DualFault.TooWide
        → PlacedLeaves (2 ^ 127 - 1) case.now parts.now }
{
    match parts {
        Parts::Optimal { primal, duals } => {
            let columns = by_column(alloc, case, built, primal.nums.as_slice())?;
            let loss = loss_placed(case, primal, columns.loss)?;
            Ok(Cert::Closes {
                calendar: Calendar {
                    den: primal.den,
                    amounts: columns.amounts,
                },
                loss,
                weights: dual_weights(alloc, case, built, duals)?,
            })
        }
        Parts::Cannot { farkas } => Ok(Cert::Cannot {
            weights: farkas_weights(alloc, case, built, farkas)?,
        }),
    }
}

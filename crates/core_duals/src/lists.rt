// The lists that a dictionary gives.
ghost use Rattle.std.specs.Prelude.{◌≡◌, ℕ, suc, ◌+◌, ◌-◌, ◌^◌, ◌<◌, ◌==◌, if◌then◌else◌};
ghost use Rattle.std.specs.Prelude.{length, map, Err, IfOk, OnOk};
ghost use Rattle.core_sums.specs.Widths.{most};
ghost use Rattle.fractions.specs.Fraction.{zero_q};
ghost use Rattle.exact_frac.specs.Value128.{value128};
ghost use Rattle.core_dict.specs.Rows.{fraction_at};
ghost use Rattle.core_duals.specs.Lists.{primal_of, duals_of, farkas_of, CommonLeaves};
ghost use Rattle.core_duals.specs.Scaled.{IsOverCommon};

use crate::scaled::{DualFault, Scaled, over_common};
use core_dict::Store;
use exact_frac::{Exact, Frac128};
use std::alloc::{AllocError, Global};

/// The values of the variables 1 to n, where n is the number of columns, in this order: 0 for one
/// that is not basic. `TooWide` comes exactly where their least common denominator, or a numerator
/// over it, is above 2^127 - 1 in absolute value, and `NoMemory` for want of memory alone.
pub fn primal<S: Store<Frac128>>(alloc: Global, dict: &S) -> Result<Scaled, DualFault>
    ensures exact { IfOk result (IsOverCommon (primal_of (S.dictionary dict.now))) }
    ensures fits { OnOk result
        (¬ (CommonLeaves most (primal_of (S.dictionary dict.now)))) }
    ensures too_wide { result ≡ Err DualFault.TooWide
        → CommonLeaves most (primal_of (S.dictionary dict.now)) }
{
    let list = values(alloc, dict)?;
    over_common(alloc, &list)
}

/// The cost of variable n, where n is the number of columns, and then of the slacks n + 1 to n + m,
/// where m is that of rows: 0 for a basic one. The errors are those of [`primal`].
pub fn duals<S: Store<Frac128>>(alloc: Global, dict: &S) -> Result<Scaled, DualFault>
    ensures exact { IfOk result (IsOverCommon (duals_of (S.dictionary dict.now))) }
    ensures fits { OnOk result
        (¬ (CommonLeaves most (duals_of (S.dictionary dict.now)))) }
    ensures too_wide { result ≡ Err DualFault.TooWide
        → CommonLeaves most (duals_of (S.dictionary dict.now)) }
{
    let list = costs(alloc, dict)?;
    over_common(alloc, &list)
}

/// The coefficients of the slacks n + 1 to n + m in a row: 1 for the row's basic variable, the entry
/// for one that is not basic, and 0 for the others. They are those of Farkas (1902) where the row
/// has a negative value and no negative entry. The errors are those of [`primal`].
pub fn farkas<S: Store<Frac128>>(alloc: Global, dict: &S, row: usize) -> Result<Scaled, DualFault>
    requires { row < (S.dictionary dict.now).rows }
    ensures exact { IfOk result (IsOverCommon (farkas_of (S.dictionary dict.now) row)) }
    ensures fits { OnOk result
        (¬ (CommonLeaves most (farkas_of (S.dictionary dict.now) row))) }
    ensures too_wide { result ≡ Err DualFault.TooWide
        → CommonLeaves most (farkas_of (S.dictionary dict.now) row) }
{
    let list = coefficients(alloc, dict, row)?;
    over_common(alloc, &list)
}

// The values of the columns' variables.
fn values<S: Store<Frac128>>(alloc: Global, dict: &S) -> Result<Vec<Frac128>, AllocError>
    ensures { IfOk result (λ v. map value128 v.items ≡ primal_of (S.dictionary dict.now)) }
{
    let mut list = zeros(alloc, dict.cols())?;
    for row in 0..dict.rows() {
        put(&mut list, 0, dict.basic(row), dict.value(row));
    }
    Ok(list)
}

// The costs of the last column's variable and of the slacks.
fn costs<S: Store<Frac128>>(alloc: Global, dict: &S) -> Result<Vec<Frac128>, AllocError>
    ensures { IfOk result (λ v. map value128 v.items ≡ duals_of (S.dictionary dict.now)) }
{
    let cols = dict.cols();
    let mut last = Frac128::zero();
    let mut list = zeros(alloc, dict.rows())?;
    for col in 0..cols {
        let variable = dict.nonbasic(col);
        let cost = dict.cost(col);
        if variable as usize == cols {
            last = cost;
        }
        put(&mut list, cols, variable, cost);
    }
    list.insert(0, last)?;
    Ok(list)
}

// The coefficients of the slacks in a row.
fn coefficients<S: Store<Frac128>>(
    alloc: Global,
    dict: &S,
    row: usize,
) -> Result<Vec<Frac128>, AllocError>
    requires { row < (S.dictionary dict.now).rows }
    ensures { IfOk result (λ v. map value128 v.items ≡ farkas_of (S.dictionary dict.now) row) }
{
    let cols = dict.cols();
    let mut list = zeros(alloc, dict.rows())?;
    for col in 0..cols {
        put(&mut list, cols, dict.nonbasic(col), dict.entry(row, col));
    }
    put(&mut list, cols, dict.basic(row), Frac128::one());
    Ok(list)
}

// So many zeros.
fn zeros(alloc: Global, n: usize) -> Result<Vec<Frac128>, AllocError>
    ensures length { IfOk result (λ v. length v.items ≡ n) }
    ensures zero { IfOk result
        (λ v. (k : ℕ) → k < n → fraction_at value128 v.items k ≡ zero_q) }
{
    let list = vec![in alloc; Frac128::zero(); n]?;
    Ok(list)
}

// Puts the number of a variable into the list of those of the variables after so many, if it is one
// of these.
fn put(list: &mut [Frac128], before: usize, variable: u32, number: Frac128)
    ensures length { length list.new ≡ length list.old }
    ensures placed { (k : ℕ) → k < length list.old → fraction_at value128 list.new k
        ≡ (if variable == suc (before + k) then value128 number
        else fraction_at value128 list.old k) }
{
    let variable = variable as usize;
    if variable > before && variable - before <= list.len() {
        list[variable - before - 1] = number;
    }
}

// The names of the rows of a case's programme, in their order.
ghost use Rattle.std.specs.Prelude.{◌≡◌, ◌*◌, ◌++◌, ◌<◌, ◌≤◌, length, IfOk};
ghost use Rattle.core_book.specs.View.{line as line_of};
ghost use Rattle.core_model.specs.Layout.{limit_count, pool_count};
ghost use Rattle.core_lp.specs.CaseProgramme.{full_rows, back_rows, limit_rows, pool_rows, loss_rows, row_names};
ghost use Rattle.core_lp.specs.CaseProgramme.{is_position};

use crate::names::RowName;
use core_book::{Case, Side};
use core_model::{closing_cell, pool_cell, scenario_cell};
use std::alloc::{AllocError, Global};

/// Adds a row for each line.
fn push_full_rows(case: &Case, rows: &mut Vec<RowName>) -> Result<(), AllocError>
    ensures { IfOk result (λ _. rows.new.items ≡ rows.old.items ++ full_rows case.now) }
{
    for line in 0..case.lines() {
        rows.push(RowName::Full { line })?;
    }
    Ok(())
}

/// Whether a line is a position.
fn is_position(case: &Case, line: usize) -> bool
    requires { line < length case.now.lines }
    ensures { result ≡ is_position (line_of case.now line).side }
{
    match case.line(line).side {
        Side::Position => true,
        Side::Collateral => false,
    }
}

/// Adds a row for each position.
fn push_back_rows(case: &Case, rows: &mut Vec<RowName>) -> Result<(), AllocError>
    ensures { IfOk result (λ _. rows.new.items ≡ rows.old.items ++ back_rows case.now) }
{
    for line in 0..case.lines() {
        if is_position(case, line) {
            rows.push(RowName::Back { line })?;
        }
    }
    Ok(())
}

/// How many places a list by instrument, closing day and tier has: at most 2,560.
pub(crate) fn limits(case: &Case) -> usize
    ensures count { result ≡ limit_count case.now }
    ensures few { result ≤ 2560 }
{
    case.instruments() * usize::from(case.horizon()) * usize::from(case.tiers())
}

/// How many places a list by pool and closing day has: at most 320.
pub(crate) fn caps(case: &Case) -> usize
    ensures count { result ≡ pool_count case.now }
    ensures few { result ≤ 320 }
{
    case.pools() * usize::from(case.horizon())
}

/// How many house days from 1 on the scenarios have: at most 2,560.
fn losses(case: &Case) -> usize
    ensures count { result ≡ length case.now.scenarios * case.now.last }
    ensures few { result ≤ 2560 }
{
    case.scenarios() * usize::from(case.last())
}

/// How many lines there are: at most 64.
pub(crate) fn lines(case: &Case) -> usize
    ensures count { result ≡ length case.now.lines }
    ensures few { result ≤ 64 }
{
    // A well-formed case has few lines.
    case.well_formed();
    case.lines()
}

/// Adds a row for each instrument, closing day and tier.
fn push_limit_rows(case: &Case, rows: &mut Vec<RowName>) -> Result<(), AllocError>
    ensures { IfOk result (λ _. rows.new.items ≡ rows.old.items ++ limit_rows case.now) }
{
    let instruments = case.instruments();
    for place in 0..limits(case) {
        let cell = closing_cell(case, instruments, place);
        rows.push(RowName::Limit {
            instrument: cell.row,
            day: cell.day,
            tier: cell.tier,
        })?;
    }
    Ok(())
}

/// Adds a row for each pool and closing day.
fn push_pool_rows(case: &Case, rows: &mut Vec<RowName>) -> Result<(), AllocError>
    ensures { IfOk result (λ _. rows.new.items ≡ rows.old.items ++ pool_rows case.now) }
{
    let pools = case.pools();
    for place in 0..caps(case) {
        let cell = pool_cell(case, pools, place);
        rows.push(RowName::Pool {
            pool: cell.row,
            day: cell.day,
        })?;
    }
    Ok(())
}

/// Adds a row for each scenario and house day from 1 on.
fn push_loss_rows(case: &Case, rows: &mut Vec<RowName>) -> Result<(), AllocError>
    ensures { IfOk result (λ _. rows.new.items ≡ rows.old.items ++ loss_rows case.now) }
{
    let scenarios = case.scenarios();
    for place in 0..scenarios * (usize::from(case.last()) + 1) {
        let cell = scenario_cell(case, scenarios, place);
        if cell.day != 0 {
            rows.push(RowName::Loss {
                scenario: cell.row,
                day: cell.day,
            })?;
        }
    }
    Ok(())
}

/// The names of the rows of a case: full, back, limits, pools and losses.
pub(crate) fn row_names(alloc: Global, case: &Case) -> Result<Vec<RowName>, AllocError>
    ensures { IfOk result (λ rows. rows.items ≡ row_names case.now) }
{
    let mut rows = Vec::new(alloc);
    push_full_rows(case, &mut rows)?;
    push_back_rows(case, &mut rows)?;
    push_limit_rows(case, &mut rows)?;
    push_pool_rows(case, &mut rows)?;
    push_loss_rows(case, &mut rows)?;
    Ok(rows)
}

/// The number of positions.
fn positions(case: &Case) -> usize
    ensures count { result ≡ length (back_rows case.now) }
    ensures few { result ≤ length case.now.lines }
{
    let mut count = 0;
    for line in 0..case.lines() {
        if is_position(case, line) {
            count += 1;
        }
    }
    count
}

/// The number of rows: at most 5,568.
pub(crate) fn row_count(case: &Case) -> usize
    ensures count { result ≡ length (row_names case.now) }
    ensures few { result ≤ 5568 }
{
    lines(case) + positions(case) + limits(case) + caps(case) + losses(case)
}

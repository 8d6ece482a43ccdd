// Where the numbers of calendars and weights stand.
ghost use Rattle.std.specs.Prelude.{◌≡◌, suc, ◌+◌, ◌*◌, ◌<◌, ◌≤◌, length};
ghost use Rattle.core_sums.specs.Places.{at};
ghost use Rattle.core_book.specs.View.{tiers};
ghost use Rattle.core_model.specs.Closing.{IsClosingDay, IsTierNumber, line_count};
ghost use Rattle.core_model.specs.Fits.{CalendarFits, WeightsFit};
ghost use Rattle.core_model.specs.Layout.{IsClosingCell, IsPoolCell, IsScenarioCell, closing_place, plan_of, pool_place, scenario_place};
ghost use Rattle.core_model.specs.Layout.{full_weight, limit_weight, pool_weight, scenario_weight};

use crate::cert::{Calendar, Weights};
use core_book::Case;
use core_wide::Numbers;

/// A line or an instrument, from 0, a closing day and a tier, both from 1.
#[derive(Clone, Copy, Debug, PartialEq, Eq)]
pub struct ClosingCell {
    pub row: usize,
    pub day: u8,
    pub tier: u8,
}

/// A pool, from 0, and a closing day, from 1; or a scenario and a house day, both from 0.
#[derive(Clone, Copy, Debug, PartialEq, Eq)]
pub struct DayCell {
    pub row: usize,
    pub day: u8,
}

/// The line or instrument, the closing day and the tier of a place in a list of so many lines or instruments.
pub fn closing_cell(case: &Case, rows: usize, place: usize) -> ClosingCell
    requires { place < rows * case.now.horizon * tiers case.now }
    ensures { IsClosingCell case.now rows place result }
{
    let tiers = usize::from(case.tiers());
    let days = usize::from(case.horizon());
    ClosingCell {
        row: place / tiers / days,
        day: (place / tiers % days) as u8 + 1,
        tier: (place % tiers) as u8 + 1,
    }
}

/// The pool and the closing day of a place in a list of so many pools.
pub fn pool_cell(case: &Case, rows: usize, place: usize) -> DayCell
    requires { place < rows * case.now.horizon }
    ensures { IsPoolCell case.now rows place result }
{
    let days = usize::from(case.horizon());
    DayCell {
        row: place / days,
        day: (place % days) as u8 + 1,
    }
}

/// The scenario and the house day of a place in a list of so many scenarios.
pub fn scenario_cell(case: &Case, rows: usize, place: usize) -> DayCell
    requires { place < rows * suc case.now.last }
    ensures { IsScenarioCell case.now rows place result }
{
    let days = usize::from(case.last()) + 1;
    DayCell {
        row: place / days,
        day: (place % days) as u8,
    }
}

/// The number of a row and a column, both from 0, where each row has so many columns.
fn entry(numbers: &Numbers, row: usize, columns: usize, column: usize) -> i128
    requires { row * columns + column < length numbers.now }
    ensures { result ≡ at numbers.now (row * columns + column) }
{
    // The place is below the number of entries, so that a usize keeps it.
    let count = numbers.len();
    let place = row * columns + column;
    prove!(place < count);
    numbers.get(place)
}

/// The number of a line or instrument, a closing day and a tier in a list of so many lines or instruments.
fn closing_entry(case: &Case, numbers: &Numbers, rows: usize, cell: ClosingCell) -> i128
    requires count { length numbers.now ≡ rows * case.now.horizon * tiers case.now }
    requires row { cell.row < rows }
    requires day { IsClosingDay case.now cell.day }
    requires tier { IsTierNumber case.now cell.tier }
    ensures { result ≡ at numbers.now (closing_place case.now cell.row cell.day cell.tier) }
{
    // The row and the day are below the number of entries, so that a usize keeps their place.
    let count = numbers.len();
    let row = cell.row * usize::from(case.horizon()) + usize::from(cell.day - 1);
    prove!(row < count);
    entry(
        numbers,
        row,
        usize::from(case.tiers()),
        usize::from(cell.tier - 1),
    )
}

impl Calendar {
    /// The amount of a line, from 0, on a closing day in a tier, both from 1, as a numerator.
    pub fn amount(&self, case: &Case, line: usize, day: u8, tier: u8) -> i128
        requires fits { CalendarFits case.now self.now }
        requires line { line < line_count case.now }
        requires day { IsClosingDay case.now day }
        requires tier { IsTierNumber case.now tier }
        ensures { result ≡ (plan_of case.now self.now).amount line day tier }
    {
        let row = line;
        closing_entry(
            case,
            &self.amounts,
            case.lines(),
            ClosingCell { row, day, tier },
        )
    }
}

impl Weights {
    /// The weight of the limit of an instrument, from 0, on a closing day in a tier, both from 1, as a numerator.
    pub fn limit_on(&self, case: &Case, instrument: usize, day: u8, tier: u8) -> i128
        requires fits { WeightsFit case.now self.now }
        requires instrument { instrument < length case.now.instruments }
        requires day { IsClosingDay case.now day }
        requires tier { IsTierNumber case.now tier }
        ensures { result ≡ limit_weight case.now self.now instrument day tier }
    {
        let row = instrument;
        closing_entry(
            case,
            &self.limit,
            case.instruments(),
            ClosingCell { row, day, tier },
        )
    }

    /// The weight of the cap of a pool, from 0, on a closing day, from 1, as a numerator.
    pub fn pool_on(&self, case: &Case, pool: usize, day: u8) -> i128
        requires fits { WeightsFit case.now self.now }
        requires pool { pool < length case.now.pools }
        requires day { IsClosingDay case.now day }
        ensures { result ≡ pool_weight case.now self.now pool day }
    {
        entry(
            &self.pool,
            pool,
            usize::from(case.horizon()),
            usize::from(day - 1),
        )
    }

    /// The weight of a scenario and a house day, both from 0, as a numerator.
    pub fn scenario_on(&self, case: &Case, scenario: usize, day: u8) -> i128
        requires fits { WeightsFit case.now self.now }
        requires scenario { scenario < length case.now.scenarios }
        requires day { day ≤ case.now.last }
        ensures { result ≡ scenario_weight case.now self.now scenario day }
    {
        entry(
            &self.scenario,
            scenario,
            usize::from(case.last()) + 1,
            usize::from(day),
        )
    }

    /// The weight of the full closing of a line, from 0, as a numerator.
    pub fn full_of(&self, case: &Case, line: usize) -> i128
        requires fits { WeightsFit case.now self.now }
        requires line { line < line_count case.now }
        ensures { result ≡ full_weight self.now line }
    {
        self.full.get(line)
    }
}

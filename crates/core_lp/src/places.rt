// Where the numbers of columns and rows stand in the lists of a certificate.
ghost use Rattle.std.specs.Prelude.{◌≡◌, ◌+◌, ◌*◌, ◌^◌, ◌<◌, ◌≤◌};
ghost use Rattle.core_model.specs.Closing.{IsClosingDay, IsTierNumber};
ghost use Rattle.core_model.specs.Layout.{closing_place, pool_place, scenario_place};

use core_book::Case;

/// The place of a row and a column, both from 0, where each row has so many columns.
fn cell(row: usize, columns: u8, column: u8) -> usize
    requires { row < 2 ^ 32 }
    ensures value { result ≡ row * columns + column }
    ensures few { result ≤ row * 255 + 255 }
{
    row * usize::from(columns) + usize::from(column)
}

/// The place of a line or an instrument, from 0, a closing day and a tier, both from 1.
pub(crate) fn closing_index(case: &Case, row: usize, day: u8, tier: u8) -> usize
    requires row { row < 2 ^ 16 }
    requires day { IsClosingDay case.now day }
    requires tier { IsTierNumber case.now tier }
    ensures { result ≡ closing_place case.now row day tier }
{
    let days = cell(row, case.horizon(), day - 1);
    cell(days, case.tiers(), tier - 1)
}

/// The place of a pool, from 0, and a closing day, from 1.
pub(crate) fn pool_index(case: &Case, pool: usize, day: u8) -> usize
    requires pool { pool < 2 ^ 16 }
    requires day { IsClosingDay case.now day }
    ensures { result ≡ pool_place case.now pool day }
{
    cell(pool, case.horizon(), day - 1)
}

/// The place of a scenario and a house day, both from 0.
pub(crate) fn scenario_index(case: &Case, scenario: usize, day: u8) -> usize
    requires { scenario < 2 ^ 16 }
    ensures { result ≡ scenario_place case.now scenario day }
{
    cell(scenario, case.last() + 1, day)
}

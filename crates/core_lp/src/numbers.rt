// The numbers of a case's programme, by the names of a row and a column.
ghost use Rattle.std.specs.Prelude.{◌≡◌, ◌&&◌, ◌^◌, ◌<◌, ◌≤◌, length, map, true, unsigned_abs};
ghost use Rattle.core_book.specs.View.{is_allowed};
ghost use Rattle.core_lp.specs.CaseProgramme.{only_if, entry_at, close_entry, bound_of, weights_of};
ghost use Rattle.core_lp.specs.Known.{IsColumn, IsRow};

use crate::names::{Col, RowName};
use crate::weights::weight;
use core_flows::Flows;

/// A number where a test passes, else 0.
fn only_if(passes: bool, number: i64) -> i64
    ensures value { result ≡ only_if passes number }
    ensures small { unsigned_abs result ≤ unsigned_abs number }
{
    if passes { number } else { 0 }
}

/// Whether two tests pass.
fn both(first: bool, second: bool) -> bool
    ensures { result ≡ first && second }
{
    first && second
}

/// The number of a row in the column of a closing.
fn close_entry(
    flows: &Flows,
    weights: &[Vec<i64>],
    name: RowName,
    line: usize,
    day: u8,
    tier: u8,
) -> i64
    requires weights { map (λ list. list.items) weights.now ≡ weights_of flows.now }
    requires row { IsRow flows.now name }
    requires line { line < length flows.now.lines }
    requires allowed { is_allowed flows.now line day tier ≡ true }
    ensures value { result ≡ close_entry flows.now name line day tier }
    ensures small { unsigned_abs result ≤ 2 ^ 62 }
{
    let case = flows.case();
    let closed = case.line(line).instrument;
    match name {
        RowName::Full { line: full } => only_if(full == line, 1),
        RowName::Back { line: back } => only_if(back == line, -1),
        RowName::Limit {
            instrument,
            day: on,
            tier: taken,
        } => {
            let here = both(case.counts(instrument, day), on == day);
            only_if(both(both(here, taken == tier), closed == instrument), 1)
        }
        RowName::Pool { pool, day: on } => {
            let here = both(case.counts(closed, day), on == day);
            only_if(here, weight(case, weights, pool, closed))
        }
        RowName::Loss { scenario, day: by } => -(flows.unit(line, scenario, day, tier, by) as i64),
    }
}

/// The number of a row in a column.
pub(crate) fn entry(flows: &Flows, weights: &[Vec<i64>], name: RowName, col: Col) -> i64
    requires weights { map (λ list. list.items) weights.now ≡ weights_of flows.now }
    requires row { IsRow flows.now name }
    requires column { IsColumn flows.now col }
    ensures value { result ≡ entry_at flows.now name col }
    ensures small { unsigned_abs result ≤ 2 ^ 62 }
{
    match (col, name) {
        (Col::Close { line, day, tier }, _) => close_entry(flows, weights, name, line, day, tier),
        (Col::Loss, RowName::Loss { .. }) => -1,
        (Col::Loss, _) => 0,
    }
}

/// The bound of a row.
pub(crate) fn bound(flows: &Flows, name: RowName) -> i64
    requires { IsRow flows.now name }
    ensures value { result ≡ bound_of flows.now name }
    ensures small { unsigned_abs result ≤ 2 ^ 62 }
{
    let case = flows.case();
    match name {
        RowName::Full { line } => case.line(line).amount,
        RowName::Back { line } => -case.line(line).amount,
        RowName::Limit {
            instrument,
            day,
            tier,
        } => case.limit(instrument, day, tier),
        RowName::Pool { pool, .. } => case.pool(pool).cap,
        RowName::Loss { day, .. } => (flows.fixed(day) - flows.fixed(0)) as i64,
    }
}

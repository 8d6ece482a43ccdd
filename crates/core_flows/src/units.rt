// What one unit of a line pays, by the pay days of its instrument.
ghost use Rattle.std.specs.Prelude.{◌≡◌, ◌<◌, ◌≤◌, ◌-ℤ◌, ◌*ℤ◌, length, true, unsigned_abs};
ghost use Rattle.core_book.specs.WellFormed.{IsCase};
ghost use Rattle.core_book.specs.View.{instrument_of, price, is_allowed};
ghost use Rattle.core_model.specs.Closing.{kind_of, size};
ghost use Rattle.core_model.specs.Bounds.{unit};
ghost use Rattle.core_flows.specs.Limits.{most_marks, most_sale, most_unit, most_unit_cost};
ghost use Rattle.core_flows.specs.Tables.{IsPayTable};
ghost use Rattle.core_flows.specs.Units.{unit_by, unit_cost};

use crate::tables::PayTable;
use core_book::{Case, Kind};

/// The sign of a line times its instrument's multiplier: at most 10^6 in absolute value.
fn size(case: &Case, line: usize) -> i64
    requires kept { IsCase case.now }
    requires line { line < length case.now.lines }
    ensures { result ≡ size case.now line }
{
    let of = case.line(line);
    i64::from(of.sign) * case.instrument(of.instrument).mult
}

/// The change of a price from day 0 to a house day: at most 2 * 10^12 in absolute value.
fn change(case: &Case, scenario: usize, i: usize, day: u8) -> i64
    requires kept { IsCase case.now }
    requires scenario { scenario < length case.now.scenarios }
    requires instrument { i < length case.now.instruments }
    requires day { day ≤ case.now.last }
    ensures { result ≡ price case.now scenario i day -ℤ price case.now scenario i 0 }
{
    case.price(scenario, i, day) - case.price(scenario, i, 0)
}

/// The product of two numbers of 64 bits.
fn product(x: i64, y: i64) -> i128
    ensures { result ≡ x *ℤ y }
{
    i128::from(x) * i128::from(y)
}

/// The marks of one unit of a line from day 0 up to a house day: at most 2 * 10^18 in absolute value.
fn marks(case: &Case, line: usize, scenario: usize, last: u8) -> i128
    requires kept { IsCase case.now }
    requires line { line < length case.now.lines }
    requires scenario { scenario < length case.now.scenarios }
    requires last { last ≤ case.now.last }
    ensures value { result ≡ size case.now line
        *ℤ (price case.now scenario (instrument_of case.now line) last
        -ℤ price case.now scenario (instrument_of case.now line) 0) }
    ensures small { unsigned_abs result ≤ most_marks }
{
    product(
        size(case, line),
        change(case, scenario, case.line(line).instrument, last),
    )
}

/// What one unit of a line sells for on a house day: at most 10^18 in absolute value.
fn sale(case: &Case, line: usize, scenario: usize, day: u8) -> i128
    requires kept { IsCase case.now }
    requires line { line < length case.now.lines }
    requires scenario { scenario < length case.now.scenarios }
    requires day { day ≤ case.now.last }
    ensures value { result ≡ size case.now line
        *ℤ price case.now scenario (instrument_of case.now line) day }
    ensures small { unsigned_abs result ≤ most_sale }
{
    product(
        size(case, line),
        case.price(scenario, case.line(line).instrument, day),
    )
}

/// What one unit of a line, closed on the day `closed`, pays by a house day before the cost of its closing, by its
/// instrument's pay days.
fn before_cost(
    case: &Case,
    pay_table: &PayTable,
    line: usize,
    scenario: usize,
    closed: u8,
    day: u8,
) -> i128
    requires kept { IsCase case.now }
    requires pay_table { IsPayTable case.now (instrument_of case.now line) pay_table.now }
    requires line { line < length case.now.lines }
    requires scenario { scenario < length case.now.scenarios }
    requires closed { closed ≤ case.now.last }
    requires day { day ≤ case.now.last }
    ensures value { result ≡ unit_by (kind_of case.now line) case.now line scenario closed day }
    ensures small { unsigned_abs result ≤ most_marks }
{
    match case.instrument(case.line(line).instrument).kind {
        Kind::Future => marks(case, line, scenario, pay_table.marked_to(closed, day)),
        Kind::Security => {
            if pay_table.is_paid_by(closed, day) {
                sale(case, line, scenario, closed)
            } else {
                0
            }
        }
    }
}

/// What the closing of one unit of a line on the day `closed` in a tier, from 1, costs, once it is paid: at most 10^12.
fn unit_cost(case: &Case, pay_table: &PayTable, line: usize, closed: u8, tier: u8, day: u8) -> i64
    requires kept { IsCase case.now }
    requires pay_table { IsPayTable case.now (instrument_of case.now line) pay_table.now }
    requires line { line < length case.now.lines }
    requires closed { closed ≤ case.now.last }
    requires tier { 1 ≤ tier }
    ensures value { result ≡ unit_cost case.now line closed tier day }
    ensures small { unsigned_abs result ≤ most_unit_cost }
{
    let is_paid = pay_table.is_paid_by(closed, day);
    if is_paid {
        case.cost(case.line(line).instrument, tier)
    } else {
        0
    }
}

/// The cash that one unit of a line, closed on the day `closed` in a tier, pays by a house day, by its instrument's pay
/// days.
pub(crate) fn unit(
    case: &Case,
    pay_table: &PayTable,
    line: usize,
    scenario: usize,
    closed: u8,
    tier: u8,
    day: u8,
) -> i128
    requires kept { IsCase case.now }
    requires pay_table { IsPayTable case.now (instrument_of case.now line) pay_table.now }
    requires line { line < length case.now.lines }
    requires scenario { scenario < length case.now.scenarios }
    requires closed { is_allowed case.now line closed tier ≡ true }
    requires day { day ≤ case.now.last }
    ensures value { result ≡ unit case.now line scenario closed tier day }
    ensures small { unsigned_abs result ≤ most_unit }
{
    let paid = before_cost(case, pay_table, line, scenario, closed, day);
    paid - i128::from(unit_cost(case, pay_table, line, closed, tier, day))
}

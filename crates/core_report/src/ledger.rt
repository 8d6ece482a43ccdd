// The ledger of a scenario, as records.
ghost use Rattle.std.specs.Prelude.{◌≡◌, ◌≤◌, ◌<◌, ◌++◌, length, IfOk, OnOk};
ghost use Rattle.core_rows.specs.Written.{rows_text};
ghost use Rattle.core_sums.specs.Places.{at};
ghost use Rattle.core_report.specs.Records.{ledger_record, ledger_records};
ghost use Rattle.core_report.specs.Stays.{IsKeptLedger};

use crate::accepted::AcceptedCalendar;
use crate::numbers::number;
use crate::row::{Row, put};
use core_replay::Ledger;
use std::alloc::{AllocError, Global};

/// What is paid in a scenario on a house day, and its cash.
fn ledger_row(
    alloc: Global,
    accepted: &AcceptedCalendar,
    ledger: &Ledger,
    scenario: usize,
    t: u8,
) -> Result<Row, AllocError>
    requires scenario { scenario < length accepted.now.calendar.case.scenarios }
    requires day { t ≤ accepted.now.calendar.case.last }
    requires kept { IsKeptLedger accepted.now.calendar.case ledger.now }
    ensures { IfOk result (λ row. row
        ≡ ledger_record accepted.now.calendar.case accepted.now.dates.now scenario
        (at ledger.now.paid) (at ledger.now.total) ledger.now.den t) }
{
    let case = accepted.case();
    let paid = number(&ledger.paid, usize::from(t));
    let cash = number(&ledger.total, usize::from(t));
    let mut row = Row::start(alloc, b"ledger")?;
    row.push_name(case.scenario(scenario))?;
    row.push_date(accepted.dates, t)?;
    row.push_ratio(paid, ledger.den)?;
    row.push_ratio(cash, ledger.den)?;
    Ok(row)
}

/// Prints the ledger of a scenario, by house day.
pub(crate) fn put_ledger(
    alloc: Global,
    out: &mut Vec<u8>,
    accepted: &AcceptedCalendar,
    ledger: &Ledger,
    scenario: usize,
) -> Result<(), AllocError>
    requires scenario { scenario < length accepted.now.calendar.case.scenarios }
    requires kept { IsKeptLedger accepted.now.calendar.case ledger.now }
    ensures { OnOk result (out.new.items ≡ out.old.items
        ++ rows_text (ledger_records accepted.now.calendar.case accepted.now.dates.now scenario
        (at ledger.now.paid) (at ledger.now.total) ledger.now.den)) }
{
    let last = accepted.case().last();
    for t in 0..last + 1 {
        let row = ledger_row(alloc, accepted, ledger, scenario, t)?;
        put(alloc, out, &row)?;
    }
    Ok(())
}

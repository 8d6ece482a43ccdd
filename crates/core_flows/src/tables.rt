// When the flows of an instrument are paid, by house day.
ghost use Rattle.std.specs.Prelude.{◌≡◌, ◌<◌, ◌≤◌, suc, length, get_or, None, if◌then◌else◌, IfOk};
ghost use Rattle.core_days.specs.Days.{open_day_before};
ghost use Rattle.core_book.specs.Limits.{most_house_days};
ghost use Rattle.core_book.specs.View.{pays};
ghost use Rattle.core_book.specs.WellFormed.{IsCase};
ghost use Rattle.core_model.specs.Closing.{is_by};
ghost use Rattle.core_flows.specs.Units.{last_paid};
ghost use Rattle.core_flows.specs.Tables.{IsTable, IsPayTable};

use core_book::Case;
use std::alloc::{AllocError, Global};

/// The pay days of one instrument.
#[derive(Drop)]
pub(crate) struct PayTable {
    /// By house day, the house day on which what happens then is paid.
    pub(crate) pay_days: Vec<Option<u8>>,
    /// By house day, the last open day that is paid by then, 0 where there is none.
    pub(crate) last_paid: Vec<u8>,
}

/// Whether a pay day is there and is at most a house day.
fn is_by(pay_day: Option<u8>, day: u8) -> bool
    ensures { result ≡ is_by pay_day day }
{
    match pay_day {
        Some(paid) => paid <= day,
        None => false,
    }
}

impl PayTable {
    /// Whether what happens on the day `closed` is paid by a house day.
    pub(crate) fn is_paid_by(&self, closed: u8, day: u8) -> bool
        requires { closed < length self.now.pay_days.items }
        ensures { result ≡ is_by (get_or self.now.pay_days.items closed None) day }
    {
        is_by(self.pay_days[closed as usize], day)
    }

    /// The day up to whose price the marks are paid by a house day, of what is closed on the day `closed`.
    pub(crate) fn marked_to(&self, closed: u8, day: u8) -> u8
        requires closed { closed < length self.now.pay_days.items }
        requires day { day < length self.now.last_paid.items }
        ensures { result ≡ (if is_by (get_or self.now.pay_days.items closed None) day then closed
            else get_or self.now.last_paid.items day 0) }
    {
        if self.is_paid_by(closed, day) {
            closed
        } else {
            self.last_paid[day as usize]
        }
    }
}

/// The pay days of an instrument, by house day.
fn pay_days(alloc: Global, case: &Case, i: usize) -> Result<Vec<Option<u8>>, AllocError>
    requires { i < length case.now.instruments }
    ensures { IfOk result (λ days. IsTable (suc case.now.last) (λ v w. w ≡ pays case.now i v)
        days.items) }
{
    let count = case.last() + 1;
    let mut days = Vec::with_capacity(alloc, count as usize)?;
    for v in 0..count {
        days.push(case.pays(i, v))?;
    }
    Ok(days)
}

/// The last day that is paid by a house day, 0 where there is none.
fn last_paid(pay_days: &[Option<u8>], day: u8) -> u8
    requires { length pay_days.now ≤ suc most_house_days }
    ensures { result ≡ open_day_before (λ v. is_by (get_or pay_days.now v None) day)
        (length pay_days.now) }
{
    let mut last = 0;
    for v in 0..pay_days.len() as u8 {
        if is_by(pay_days[v as usize], day) {
            last = v;
        }
    }
    last
}

/// The last days that are paid, by house day.
fn last_paid_days(alloc: Global, pay_days: &[Option<u8>]) -> Result<Vec<u8>, AllocError>
    requires { length pay_days.now ≤ suc most_house_days }
    ensures { IfOk result (λ days. IsTable (length pay_days.now)
        (λ t v. v ≡ open_day_before (λ w. is_by (get_or pay_days.now w None) t)
        (length pay_days.now)) days.items) }
{
    let mut days = Vec::with_capacity(alloc, pay_days.len())?;
    for day in 0..pay_days.len() as u8 {
        days.push(last_paid(pay_days, day))?;
    }
    Ok(days)
}

/// The table of an instrument.
fn pay_table(alloc: Global, case: &Case, i: usize) -> Result<PayTable, AllocError>
    requires kept { IsCase case.now }
    requires instrument { i < length case.now.instruments }
    ensures { IfOk result (λ table. IsPayTable case.now i table) }
{
    let pay_days = pay_days(alloc, case, i)?;
    let last_paid = last_paid_days(alloc, &pay_days)?;
    Ok(PayTable {
        pay_days,
        last_paid,
    })
}

/// The tables of all instruments.
pub(crate) fn pay_tables(alloc: Global, case: &Case) -> Result<Vec<PayTable>, AllocError>
    requires { IsCase case.now }
    ensures { IfOk result (λ tables. IsTable (length case.now.instruments) (IsPayTable case.now)
        tables.items) }
{
    let count = case.instruments();
    let mut tables = Vec::with_capacity(alloc, count)?;
    for i in 0..count {
        tables.push(pay_table(alloc, case, i)?)?;
    }
    Ok(tables)
}

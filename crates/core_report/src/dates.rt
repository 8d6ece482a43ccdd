// The dates of a case's house days.
ghost use Rattle.std.specs.Prelude.{◌≡◌, ◌<◌, ◌≤ℤ◌, pos, length, IfOk};
ghost use Rattle.jiff_core.specs.Calendar.{IsBetween};
ghost use Rattle.core_sums.specs.Places.{row_at};
ghost use Rattle.core_rows.specs.Written.{date_text};
ghost use Rattle.core_report.specs.Report.{AreDates};

use core_book::Case;
use core_rows::law_of_date_texts;
use jiff::civil::Date;
use std::alloc::{AllocError, Global};
use std::marker::Model;

/// The dates of the house days, from day 0 on, which contracts see as their texts.
#[derive(Drop)]
pub(crate) struct Dates {
    list: Vec<Date>,
}

impl Model for Dates {
    ghost use Rattle.std.specs.Prelude.{List, ℕ, map};
    ghost use Rattle.core_rows.specs.Written.{date_text};
    ghost use Rattle.core_report.specs.Stays.{AreOfPrintedYears};

    ghost Value = { List (List ℕ) };

    ghost view = { λ dates. map date_text dates.list.items };

    ghost invariant = { λ dates. AreOfPrintedYears dates.list.items };
}

impl Dates {
    /// The dates of a case.
    pub(crate) fn of_case(alloc: Global, case: &Case) -> Result<Dates, AllocError>
        ensures { IfOk result (AreDates case.now) }
    {
        // The text of a date is read as this date.
        law_of_date_texts();
        let last = case.last();
        let mut list = Vec::with_capacity(alloc, usize::from(last) + 1)?;
        for t in 0..last + 1 {
            list.push(case.date(t))?;
        }
        Ok(Dates { list })
    }

    /// The date of a house day.
    pub(crate) fn on(&self, t: u8) -> Date
        requires { t < length self.now }
        ensures text { date_text result ≡ row_at self.now t }
        ensures year { IsBetween (pos 1) (pos 9999) result.year }
    {
        self.list[usize::from(t)]
    }
}

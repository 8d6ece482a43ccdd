// The flows of a case.
ghost use Rattle.std.specs.Prelude.{◌≡◌, ◌<◌, ◌≤◌, suc, length, true, unsigned_abs, IfOk};
ghost use Rattle.core_book.specs.WellFormed.{IsCase};
ghost use Rattle.core_book.specs.View.{is_allowed};
ghost use Rattle.core_model.specs.Closing.{fixed};
ghost use Rattle.core_model.specs.Bounds.{unit};
ghost use Rattle.core_flows.specs.Limits.{most_unit};
ghost use Rattle.core_flows.specs.Tables.{IsTable};

use crate::tables::{PayTable, pay_tables};
use crate::units::unit;
use core_book::Case;
use std::alloc::{AllocError, Global};
use std::marker::Model;

/// The flows of a case, tabulated so that the cash of one unit of a line is a look-up.
///
/// Contracts see the case.
#[derive(Drop)]
pub struct Flows<'a> {
    case: &'a Case,
    /// By instrument.
    pay_tables: Vec<PayTable>,
    /// By house day, the fixed cash of the days up to it.
    fixed: Vec<i128>,
}

impl<'a> Model for Flows<'a> {
    ghost use Rattle.core_book.specs.View.{CaseView};
    ghost use Rattle.core_flows.specs.Inside.{HasTables};

    ghost Value = { CaseView };

    ghost view = { λ a. a.case.now };

    ghost invariant = { HasTables };
}

/// By house day 0 to `last`, the fixed cash of the days 0 up to it.
fn fixed_sums(alloc: Global, case: &Case, last: u8) -> Result<Vec<i128>, AllocError>
    requires kept { IsCase case.now }
    requires last { last ≡ case.now.last }
    ensures { IfOk result (λ sums. IsTable (suc case.now.last) (λ t z. z ≡ fixed case.now t)
        sums.items) }
{
    let count = last + 1;
    let mut sums = Vec::with_capacity(alloc, count as usize)?;
    let mut sum = 0;
    for t in 0..count {
        sum += i128::from(case.cash(t));
        sums.push(sum)?;
    }
    Ok(sums)
}

impl<'a> Flows<'a> {
    /// The flows of a case. The only error is want of memory.
    pub fn make(alloc: Global, case: &'a Case) -> Result<Flows<'a>, AllocError>
        ensures { IfOk result (λ flows. flows ≡ case.now) }
    {
        let last = case.last();
        let pay_tables = pay_tables(alloc, case)?;
        let fixed = fixed_sums(alloc, case, last)?;
        Ok(Flows {
            case,
            pay_tables,
            fixed,
        })
    }

    /// The case of the flows. It keeps the ranges and references of a well-formed one.
    pub fn case(&self) -> &'a Case
        ensures value { result.now ≡ self.now }
        ensures kept { IsCase self.now }
    {
        self.case
    }

    /// The cash that one unit of a line (from 0) pays by the house day `day` in a scenario (from 0), where it is closed
    /// on the day `closed` in a tier (from 1), as is allowed: with the line's sign and multiplier, less the cost of the
    /// tier once it is paid, without fixed cash, and at most 2 * 10^18 + 10^12 in absolute value.
    pub fn unit(&self, line: usize, scenario: usize, closed: u8, tier: u8, day: u8) -> i128
        requires line { line < length self.now.lines }
        requires scenario { scenario < length self.now.scenarios }
        requires closed { is_allowed self.now line closed tier ≡ true }
        requires day { day ≤ self.now.last }
        ensures value { result ≡ unit self.now line scenario closed tier day }
        ensures small { unsigned_abs result ≤ most_unit }
    {
        let case = self.case;
        let pay_table = &self.pay_tables[case.line(line).instrument];
        unit(case, pay_table, line, scenario, closed, tier, day)
    }

    /// The sum of the fixed cash of the house days 0 to `day`.
    pub fn fixed(&self, day: u8) -> i128
        requires { day ≤ self.now.last }
        ensures { result ≡ fixed self.now day }
    {
        self.fixed[day as usize]
    }
}

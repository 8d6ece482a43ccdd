// The programme of a case by name.
ghost use Rattle.std.specs.Prelude.{◌≡◌, ◌<◌, length, map, get_or, IfOk};
ghost use Rattle.core_dict.specs.Programme.{height, row};
ghost use Rattle.core_lp.specs.CaseProgramme.{columns, row_names, row_of, programme_of, weights_of};
ghost use Rattle.core_lp.specs.Known.{IsRow};
ghost use Rattle.core_lp.specs.Named.{HasNames, col_at, row_at, named_of, with_row};

use crate::columns::columns;
use crate::names::{Col, RowName};
use crate::numbers::{bound, entry};
use crate::rows::row_names;
use crate::weights::weights;
use core_book::Case;
use core_dict::Programme;
use core_flows::Flows;
use std::alloc::{AllocError, Global};
use std::marker::Model;

/// The programme of a case, with the names of its columns and rows in their order.
///
/// Its columns are, by line, closing day and tier, what is closed where a closing is allowed, and last the worst loss
/// plus the fixed cash of day 0. Its rows are the full rows of the lines, the back rows of the positions, the limits by
/// instrument, closing day and tier, the caps by pool and closing day, and the losses by scenario and house day from
/// 1 on.
#[derive(Drop)]
pub struct Built {
    programme: Programme,
    cols: Vec<Col>,
    rows: Vec<RowName>,
}

impl Model for Built {
    ghost use Rattle.core_lp.specs.Named.{NamedProgramme, HasNames};

    ghost Value = { NamedProgramme };

    ghost view = { λ b. record { programme = b.programme; cols = b.cols.items; rows = b.rows.items } };

    ghost invariant = { λ b.
        let p : NamedProgramme =
        record { programme = b.programme; cols = b.cols.items; rows = b.rows.items } in
        HasNames p };
}

impl Built {
    /// The programme. Each of its columns and rows has a name.
    pub fn programme(&self) -> &Programme
        ensures value { result.now ≡ self.now.programme }
        ensures named { HasNames self.now }
    {
        &self.programme
    }

    /// What a column stands for, from 0.
    pub fn col(&self, j: usize) -> Col
        requires { j < length self.now.cols }
        ensures { result ≡ col_at self.now j }
    {
        self.cols[j]
    }

    /// What a row stands for, from 0.
    pub fn row(&self, i: usize) -> RowName
        requires { i < length self.now.rows }
        ensures { result ≡ row_at self.now i }
    {
        self.rows[i]
    }
}

/// Fills a row of a programme with the numbers of a name.
fn fill_row(
    flows: &Flows,
    weights: &[Vec<i64>],
    cols: &[Col],
    name: RowName,
    programme: &mut Programme,
    i: usize,
)
    requires weights { map (λ list. list.items) weights.now ≡ weights_of flows.now }
    requires cols { cols.now ≡ columns flows.now }
    requires name { IsRow flows.now name }
    requires row_in { i < height programme.old }
    requires width { length (row programme.old i).entries ≡ length cols.now }
    requires count { programme.old.cols ≡ length cols.now }
    ensures { programme.new ≡ with_row programme.old i (row_of flows.now name) }
{
    programme.set_bound(i, bound(flows, name));
    for j in 0..cols.len() {
        programme.set(i, j, entry(flows, weights, name, cols[j]));
    }
}

/// The programme of these columns and rows.
fn programme_of(
    alloc: Global,
    flows: &Flows,
    cols: &[Col],
    rows: &[RowName],
) -> Result<Programme, AllocError>
    requires cols { cols.now ≡ columns flows.now }
    requires rows { rows.now ≡ row_names flows.now }
    ensures { IfOk result (λ p. p ≡ programme_of flows.now) }
{
    let weights = weights(alloc, flows.case())?;
    let mut programme = Programme::make(alloc, rows.len(), cols.len())?;
    for i in 0..rows.len() {
        fill_row(flows, &weights, cols, rows[i], &mut programme, i);
    }
    Ok(programme)
}

/// The programme of a case by name, in time linear in its numbers. The only error is want of memory.
pub fn build(alloc: Global, case: &Case, flows: &Flows) -> Result<Built, AllocError>
    requires { flows.now ≡ case.now }
    ensures { IfOk result (λ built. built ≡ named_of case.now) }
{
    let cols = columns(alloc, case)?;
    let rows = row_names(alloc, case)?;
    let programme = programme_of(alloc, flows, &cols, &rows)?;
    Ok(Built {
        programme,
        cols,
        rows,
    })
}

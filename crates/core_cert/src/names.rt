// The names of a case, numbered.
ghost use Rattle.std.specs.Prelude.{◌≡◌, ◌≢◌, ◌<◌, ◌≤◌, ◌+◌, ◌*◌, ◌^◌, map, IfOk};
ghost use Rattle.std.specs.List.{AllPairs, list_any};
ghost use Rattle.std.specs.Str.{bytes_eq};
ghost use Rattle.core_cert.specs.Faults.{instrument_names, pool_names};
ghost use Rattle.core_rows.specs.Names.{place_of};
ghost use Rattle.core_cert.specs.Numbered.{key_words, lines_words};

use crate::faults::RecordFault;
use crate::fields::small_in;
use crate::forms::is_tiered;
use crate::kinds::RecordKind;
use crate::lists::NameLists;
use crate::record::side_word;
use core_book::Case;
use core_rows::{Fields, Name, fault_unless};
use indexmap::IndexSet;
use std::alloc::{AllocError, Global};
use std::marker::Model;

/// A line, by the words that name it.
#[derive(Clone, Copy, PartialEq, Eq, Hash)]
pub(crate) struct LineKey<'a> {
    pub(crate) instrument: &'a [u8],
    pub(crate) side: &'a [u8],
}

/// A case whose names and lines are found by their words. Contracts see the case.
#[derive(Drop)]
pub(crate) struct CaseNames<'a> {
    pub(crate) case: &'a Case,
    pub(crate) instruments: IndexSet<&'a [u8]>,
    pub(crate) scenarios: IndexSet<&'a [u8]>,
    pub(crate) pools: IndexSet<&'a [u8]>,
    pub(crate) lines: IndexSet<LineKey<'a>>,
}

impl<'a> Model for CaseNames<'a> {
    ghost use Rattle.core_book.specs.View.{CaseView};
    ghost use Rattle.core_cert.specs.Numbered.{IsNumbered};

    ghost Value = { CaseView };

    ghost view = { λ a. a.case.now };

    ghost invariant = { IsNumbered };
}

/// Names that differ, each with its number.
fn numbered<'a>(alloc: Global, names: &'a [Name]) -> Result<IndexSet<&'a [u8]>, AllocError>
    requires { AllPairs (λ x y. x ≢ y) names.now }
    ensures { IfOk result (λ set. map (λ k. k.now) set.keys ≡ names.now) }
{
    let mut set = IndexSet::new(alloc);
    for name in names {
        set.insert(name.bytes())?;
    }
    Ok(set)
}

/// The lines of a case, each with its number.
fn numbered_lines<'a>(
    alloc: Global,
    case: &Case,
    instruments: &'a [Name],
) -> Result<IndexSet<LineKey<'a>>, AllocError>
    requires { instruments.now ≡ instrument_names case.now }
    ensures { IfOk result (λ set. map key_words set.keys ≡ lines_words case.now) }
{
    // No two lines of a case are of one instrument and one side.
    case.well_formed();
    let mut lines = IndexSet::new(alloc);
    for l in 0..case.lines() {
        let line = case.line(l);
        lines.insert(LineKey {
            instrument: instruments[line.instrument].bytes(),
            side: side_word(line.side),
        })?;
    }
    Ok(lines)
}

/// Whether a word is one of some names.
fn has_name(names: &IndexSet<&[u8]>, word: &[u8]) -> bool
    ensures { result ≡ list_any (bytes_eq word.now) (map (λ k. k.now) names.now.keys) }
{
    names.contains(word)
}

/// The number of a name, and how many names there are where it is none of them.
fn place_of(names: &IndexSet<&[u8]>, word: &[u8]) -> usize
    ensures { result ≡ place_of word.now (map (λ k. k.now) names.now.keys) }
{
    match names.get_index_of(word) {
        Some(place) => place,
        None => names.len(),
    }
}

/// The place of a row and a column, both from 0, where each row has so many columns.
fn cell(row: u128, columns: u8, column: u8) -> u128
    requires { row < 2 ^ 80 }
    ensures { result ≡ row * columns + column }
{
    row * u128::from(columns) + u128::from(column)
}

/// How many places so many rows of so many columns have.
fn cells(rows: usize, columns: u8) -> usize
    requires rows { rows ≤ 1280 }
    requires columns { columns ≤ 64 }
    ensures { result ≡ rows * columns }
{
    rows * usize::from(columns)
}

impl<'a> CaseNames<'a> {
    ghost use Rattle.std.specs.Prelude.{◌≡◌, ◌≤◌, ◌*◌, IfOk};
    ghost use Rattle.core_book.specs.View.{tiers};
    ghost use Rattle.core_model.specs.Layout.{closing_place, pool_place, scenario_place};
    ghost use Rattle.core_cert.specs.Faults.{instrument_names, line_named, line_step, name_step, place_in, pool_names, tier_in};
    ghost use Rattle.core_cert.specs.Stated.{places_of};

    /// A case, with its names numbered.
    pub(crate) fn make(
        alloc: Global,
        case: &'a Case,
        lists: &'a NameLists,
    ) -> Result<CaseNames<'a>, AllocError>
        requires instruments { lists.now.instruments.items ≡ instrument_names case.now }
        requires scenarios { lists.now.scenarios.items ≡ case.now.scenarios }
        requires pools { lists.now.pools.items ≡ pool_names case.now }
        ensures { IfOk result (λ names. names ≡ case.now) }
    {
        // No two instruments, scenarios or pools of a case have one name.
        case.well_formed();
        Ok(CaseNames {
            case,
            instruments: numbered(alloc, &lists.instruments)?,
            scenarios: numbered(alloc, &lists.scenarios)?,
            pools: numbered(alloc, &lists.pools)?,
            lines: numbered_lines(alloc, case, &lists.instruments)?,
        })
    }

    /// The case.
    pub(crate) fn case(&self) -> &'a Case
        ensures { result.now ≡ self.now }
    {
        self.case
    }

    /// The line that a record names, and how many lines there are where the case has no such line.
    fn line_named(&self, row: &Fields) -> usize
        ensures { result ≡ line_named self.now row.now }
    {
        match self.lines.get_index_of(&LineKey {
            instrument: row.word(1),
            side: row.word(2),
        }) {
            Some(line) => line,
            None => self.lines.len(),
        }
    }

    /// The fault of a record of this kind whose scenario, instrument or pool the case has not.
    pub(crate) fn name_fault(&self, kind: RecordKind, row: &Fields) -> Option<RecordFault>
        ensures { result ≡ name_step self.now kind row.now }
    {
        let name = row.word(1);
        match kind {
            RecordKind::Amount | RecordKind::Limit | RecordKind::Full => {
                fault_unless(has_name(&self.instruments, name), RecordFault::NotInCase)
            }
            RecordKind::Scenario => {
                fault_unless(has_name(&self.scenarios, name), RecordFault::NotInCase)
            }
            RecordKind::Pool => fault_unless(has_name(&self.pools, name), RecordFault::NotInCase),
            _ => None,
        }
    }

    /// The fault of a record of this kind whose instrument has no line of its side.
    pub(crate) fn line_fault(&self, kind: RecordKind, row: &Fields) -> Option<RecordFault>
        ensures { result ≡ line_step self.now kind row.now }
    {
        match kind {
            RecordKind::Amount | RecordKind::Full => fault_unless(
                self.line_named(row) < self.case.lines(),
                RecordFault::NoSuchLine,
            ),
            _ => None,
        }
    }

    /// The place of a record of this kind in the list of the kind's numbers. A record that names nothing of the case has
    /// a place past the list's end.
    pub(crate) fn place(&self, kind: RecordKind, row: &Fields) -> u128
        ensures { result ≡ place_in self.now kind row.now }
    {
        let name = row.word(1);
        match kind {
            RecordKind::Amount => {
                let tier = self.tier_in(row, 4);
                self.closing_place(self.line_named(row), small_in(row, 3), tier)
            }
            RecordKind::Scenario => {
                self.scenario_place(place_of(&self.scenarios, name), small_in(row, 2))
            }
            RecordKind::Limit => {
                let instrument = place_of(&self.instruments, name);
                self.closing_place(instrument, small_in(row, 2), self.tier_in(row, 3))
            }
            RecordKind::Pool => self.pool_place(place_of(&self.pools, name), small_in(row, 2)),
            RecordKind::Full => self.line_named(row) as u128,
            _ => 0,
        }
    }

    /// The tier in a field, which is tier 1 where the case has no other.
    fn tier_in(&self, row: &Fields, i: usize) -> u8
        ensures { result ≡ tier_in self.now row.now i }
    {
        if is_tiered(self.case) {
            small_in(row, i)
        } else {
            1
        }
    }

    /// The place of a pool, from 0, and a closing day, from 1.
    fn pool_place(&self, pool: usize, day: u8) -> u128
        ensures { result ≡ pool_place self.now pool day }
    {
        cell(pool as u128, self.case.horizon(), day.saturating_sub(1))
    }

    /// The place of a scenario and a house day, both from 0.
    fn scenario_place(&self, scenario: usize, day: u8) -> u128
        ensures { result ≡ scenario_place self.now scenario day }
    {
        cell(scenario as u128, self.case.last() + 1, day)
    }

    /// The place of a line or an instrument, from 0, a closing day and a tier, both from 1.
    fn closing_place(&self, row: usize, day: u8, tier: u8) -> u128
        ensures { result ≡ closing_place self.now row day tier }
    {
        let days = cell(row as u128, self.case.horizon(), day.saturating_sub(1));
        cell(days, self.case.tiers(), tier.saturating_sub(1))
    }

    /// How many places so many lines or instruments have, by closing day and tier.
    fn closings(&self, rows: usize) -> usize
        requires { rows ≤ 64 }
        ensures { result ≡ rows * self.now.horizon * tiers self.now }
    {
        cells(cells(rows, self.case.horizon()), self.case.tiers())
    }

    /// How many places the list of a kind's numbers has.
    pub(crate) fn places(&self, kind: RecordKind) -> usize
        ensures { result ≡ places_of self.now kind }
    {
        // Every case keeps how many of each there may be.
        let horizon = self.case.horizon();
        match kind {
            RecordKind::Amount => self.closings(self.case.lines()),
            RecordKind::Scenario => cells(self.case.scenarios(), self.case.last() + 1),
            RecordKind::Limit => self.closings(self.case.instruments()),
            RecordKind::Pool => cells(self.case.pools(), horizon),
            RecordKind::Full => self.case.lines(),
            _ => 0,
        }
    }
}

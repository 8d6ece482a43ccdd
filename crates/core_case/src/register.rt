// The sound records that were read so far, filed by their keys.
ghost use Rattle.std.specs.Prelude.{◌≡◌, ◌<◌, ◌^◌, ◌||◌, [], ◌∷◌, ◌++◌, true, map, IfOk, IfSome};
ghost use Rattle.std.proofs.Props.{props};
ghost use Rattle.core_sums.specs.Places.{row_at};
ghost use Rattle.core_case.specs.Kinds.{heading_view, is_kind, most_records, natural_in};
ghost use Rattle.core_case.specs.Faults.{group_of, heading_of, key_of, of_kind};
ghost use Rattle.core_case.specs.declared.kinds.RecordKind.TheVariants.{End, Instrument};
ghost use Rattle.core_case.specs.Stated.{numbers_from};

use crate::faults::RecordFault;
use crate::fields::{has_expiry, is_future, natural_in, numbers_from};
use crate::heading::Heading;
use crate::kinds::RecordKind;
use core_rows::{Fields, fault_unless, same};
use indexmap::IndexMap;
use std::alloc::{AllocError, Global};
use std::marker::Model;

/// The key of a record: its kind and two words, of which those are empty that the kind's key lacks.
#[derive(Clone, Copy, PartialEq, Eq, Hash)]
pub(crate) struct Key<'a> {
    pub(crate) kind: RecordKind,
    pub(crate) first: &'a [u8],
    pub(crate) second: &'a [u8],
}

/// What is counted together: the records of a kind, of holidays those of one market and of tiers those of one
/// instrument, by its name.
#[derive(Clone, Copy, PartialEq, Eq, Hash)]
pub(crate) struct Group<'a> {
    pub(crate) kind: RecordKind,
    pub(crate) name: &'a [u8],
}

/// A record with its kind.
#[derive(Clone, Copy)]
pub(crate) struct KnownRecord<'a> {
    pub(crate) kind: RecordKind,
    pub(crate) fields: &'a Fields,
    ghost of_kind: { is_kind kind fields.now ≡ true },
}

impl<'a> KnownRecord<'a> {
    ghost use Rattle.std.specs.Prelude.{◌≡◌};
    ghost use Rattle.core_case.specs.Kinds.{is_kind};

    /// Whether the record is of a kind, without its words.
    pub(crate) fn is_of(&self, kind: RecordKind) -> bool
        ensures { result ≡ is_kind kind self.now.fields.now }
    {
        self.kind == kind
    }
}

/// A record that is filed under its key, with its prices where it is a path and they were read when it was judged.
#[derive(Drop)]
pub(crate) struct Filed<'a> {
    pub(crate) fields: &'a Fields,
    pub(crate) prices: Option<Vec<i64>>,
    ghost stated: { IfSome prices (λ v. v.items ≡ numbers_from 3 fields.now) } by { Prim.hlevel props },
}

impl<'a> Filed<'a> {
    ghost use Rattle.std.specs.Prelude.{◌≡◌, IfOk};
    ghost use Rattle.core_case.specs.Stated.{numbers_from};

    /// The prices that the record states where it is a path, which leave it.
    fn take_prices(&mut self, alloc: Global) -> Result<Vec<i64>, AllocError>
        ensures kept { self.new.fields ≡ self.old.fields }
        ensures prices { IfOk result (λ v. v.items ≡ numbers_from 3 self.old.fields.now) }
    {
        match self.prices.take() {
            Some(prices) => Ok(prices),
            None => numbers_from(alloc, self.fields, 3),
        }
    }
}

/// The sound records that were read so far. Contracts see the list of these records.
#[derive(Drop)]
pub(crate) struct Register<'a> {
    pub(crate) rows: Vec<KnownRecord<'a>>,
    pub(crate) filed: IndexMap<Key<'a>, Filed<'a>>,
    pub(crate) counts: IndexMap<Group<'a>, usize>,
    pub(crate) instruments: Vec<&'a Fields>,
    pub(crate) heading: Heading,
    pub(crate) ended: bool,
}

impl<'a> Model for Register<'a> {
    ghost use Rattle.std.specs.Prelude.{List};
    ghost use Rattle.core_rows.specs.Names.{Record};
    ghost use Rattle.core_case.specs.Filed.{records_in, Holds};

    ghost Value = { List Record };

    ghost view = { records_in };

    ghost invariant = { λ a. Holds ⟦<Key<'static> as PartialEq>⟧.eq ⟦<Group<'static> as PartialEq>⟧.eq a (records_in a) };
}

/// The key of a record of this kind.
fn key_of<'a>(kind: RecordKind, row: &'a Fields) -> Key<'a>
    ensures kind { result.kind ≡ kind }
    ensures first { result.first.now ≡ (key_of kind row.now).0 }
    ensures second { result.second.now ≡ (key_of kind row.now).1 }
{
    match kind {
        RecordKind::Core | RecordKind::House | RecordKind::Tier | RecordKind::End => Key {
            kind,
            first: b"",
            second: b"",
        },
        RecordKind::Holiday | RecordKind::Member | RecordKind::Path => Key {
            kind,
            first: row.word(1),
            second: row.word(2),
        },
        _ => Key {
            kind,
            first: row.word(1),
            second: b"",
        },
    }
}

/// What a record of this kind is counted with.
fn group_of<'a>(kind: RecordKind, row: &'a Fields) -> Group<'a>
    ensures kind { result.kind ≡ kind }
    ensures name { result.name.now ≡ group_of kind row.now }
{
    let name = match kind {
        RecordKind::Holiday | RecordKind::Tier => row.word(1),
        _ => b"",
    };
    Group { kind, name }
}

/// The number in a field of a record, 0 where there is no such record.
fn natural_at(rows: &[KnownRecord], place: usize, field: usize) -> usize
    ensures value { result ≡ natural_in (row_at (map (λ r. r.fields.now) rows.now) place) field }
    ensures bound { result < 2 ^ 63 }
{
    match rows.get(place) {
        Some(row) => natural_in(row.fields, field),
        None => 0,
    }
}

/// What the first two of these records state, 0 where there is none.
fn heading_of(rows: &[KnownRecord]) -> Heading
    ensures { heading_view result ≡ heading_of (map (λ r. r.fields.now) rows.now) }
{
    Heading {
        version: natural_at(rows, 0, 1),
        horizon: natural_at(rows, 1, 2),
        last: natural_at(rows, 1, 3),
    }
}

/// The instruments with the last record, where it is one.
fn with_instrument<'a>(
    mut instruments: Vec<&'a Fields>,
    last: &KnownRecord<'a>,
) -> Result<Vec<&'a Fields>, AllocError>
    ensures { IfOk result (λ v. map (λ r. r.now) v.items
        ≡ map (λ r. r.now) instruments.entry.items
        ++ of_kind Instrument (last.now.fields.now ∷ [])) }
{
    if last.is_of(RecordKind::Instrument) {
        instruments.push(last.fields)?;
    }
    Ok(instruments)
}

/// Whether `end` is the last record, or was there before it.
fn ends(ended: bool, last: &KnownRecord) -> bool
    ensures { result ≡ (ended || is_kind End last.now.fields.now) }
{
    ended || last.is_of(RecordKind::End)
}

impl<'a> Register<'a> {
    ghost use Rattle.std.specs.Prelude.{◌≡◌, [], ◌∷◌, ◌++◌, true, nat_lt, length, map, option_map, is_some, IfOk, IfSome};
    ghost use Rattle.std.specs.List.{list_all};
    ghost use Rattle.core_case.specs.Stated.{numbers_from, prices_of};
    ghost use Rattle.core_case.specs.Filed.{FilesOnce};
    ghost use Rattle.core_case.specs.Kinds.{heading_view, is_kind, most_records, references};
    ghost use Rattle.core_case.specs.Faults.{filed, count_in, group_of, has_ended, is_declared, name_step, names_future, security_step, repeats, has_room, of_kind, has_limit, has_path, is_complete, book_fault, heading_of};
    ghost use Rattle.core_rows.specs.Steps.{first_of};
    ghost use Rattle.std.specs.Prelude.{◌≤◌, ◌<◌, ◌^◌};
    ghost use Rattle.core_sums.specs.Places.{row_at};
    ghost use Rattle.core_case.specs.declared.kinds.RecordKind.TheVariants.{Instrument, Scenario};

    /// No record.
    pub(crate) fn make(alloc: Global) -> Register<'a>
        ensures { result ≡ [] }
    {
        Register {
            rows: Vec::new(alloc),
            filed: IndexMap::new(alloc),
            counts: IndexMap::new(alloc),
            instruments: Vec::new(alloc),
            heading: heading_of(&[]),
            ended: false,
        }
    }

    /// The filed records with one more, unless one is filed under its key.
    fn with_filed(
        mut filed: IndexMap<Key<'a>, Filed<'a>>,
        key: Key<'a>,
        more: Filed<'a>,
    ) -> Result<IndexMap<Key<'a>, Filed<'a>>, AllocError>
        ensures { IfOk result
            (FilesOnce ⟦<Key<'static> as PartialEq>⟧.eq filed.entry key.entry more.entry) }
    {
        filed.entry(key)?.or_insert(more);
        Ok(filed)
    }

    /// The records with one more of this kind, whose prices may have been read.
    pub(crate) fn with(
        self,
        kind: RecordKind,
        row: &'a Fields,
        prices: Option<Vec<i64>>,
    ) -> Result<Register<'a>, AllocError>
        requires of_kind { is_kind kind row.now ≡ true }
        requires stated { IfSome prices (λ v. v.items ≡ numbers_from 3 row.now) }
        ensures { IfOk result (λ register. register ≡ self.entry ++ (row.now ∷ [])) }
    {
        let Register {
            mut rows,
            filed,
            mut counts,
            instruments,
            mut heading,
            ended,
        } = self;
        let last = KnownRecord { kind, fields: row };
        rows.push(last)?;
        let instruments = with_instrument(instruments, &last)?;
        if rows.len() <= 2 {
            heading = heading_of(&rows);
        }
        let key = key_of(kind, row);
        let more = Filed {
            fields: row,
            prices,
        };
        let filed = Register::with_filed(filed, key, more)?;
        if most_records(kind).is_some() {
            let group = group_of(kind, row);
            let count = counts.get(&group).copied().unwrap_or(0);
            counts.insert(group, count + 1)?;
        }
        Ok(Register {
            rows,
            filed,
            counts,
            instruments,
            heading,
            ended: ends(ended, &last),
        })
    }

    /// The records, in order.
    pub(crate) fn rows(&self) -> &[KnownRecord<'a>]
        ensures { map (λ r. r.fields.now) result.now ≡ self.now }
    {
        &self.rows
    }

    /// How many records there are.
    pub(crate) fn len(&self) -> usize
        ensures { result ≡ length self.now }
    {
        self.rows.len()
    }

    /// What the first two records state: the version, the last closing day and the last house day; 0 where there is none.
    pub(crate) fn heading(&self) -> Heading
        ensures { heading_view result ≡ heading_of self.now }
    {
        self.heading
    }

    /// The second record, which states the days of the case.
    pub(crate) fn house(&self) -> &'a Fields
        requires { 2 ≤ length self.now }
        ensures { result.now ≡ row_at self.now 1 }
    {
        self.rows[1].fields
    }

    /// The first record of a kind with this key.
    pub(crate) fn find(&self, kind: RecordKind, first: &[u8], second: &[u8]) -> Option<&'a Fields>
        ensures { option_map (λ r. r.now) result ≡ filed kind first.now second.now self.now }
    {
        let key = Key {
            kind,
            first,
            second,
        };
        Some(self.filed.get(&key)?.fields)
    }

    /// The prices of an instrument in a scenario, none where no record states them. They leave the register.
    pub(crate) fn take_prices(
        &mut self,
        alloc: Global,
        scenario: &'a [u8],
        instrument: &'a [u8],
    ) -> Result<Vec<i64>, AllocError>
        ensures kept { self.new ≡ self.old }
        ensures prices { IfOk result (λ v.
            v.items ≡ prices_of self.old scenario.now instrument.now) }
    {
        let key = Key {
            kind: RecordKind::Path,
            first: scenario,
            second: instrument,
        };
        match self.filed.get_mut(&key) {
            Some(path) => path.take_prices(alloc),
            None => Ok(Vec::new(alloc)),
        }
    }

    /// Whether there is a record of a kind with this key.
    fn has(&self, kind: RecordKind, first: &[u8], second: &[u8]) -> bool
        ensures { result ≡ is_some (filed kind first.now second.now self.now) }
    {
        self.find(kind, first, second).is_some()
    }

    /// How many records there are of what a record of this kind is counted with.
    fn count(&self, kind: RecordKind, row: &Fields) -> usize
        requires { is_some (most_records kind) ≡ true }
        ensures { result ≡ count_in kind (group_of kind row.now) self.now }
    {
        self.counts.get(&group_of(kind, row)).copied().unwrap_or(0)
    }

    /// Whether `end` is among the records.
    pub(crate) fn has_ended(&self) -> bool
        ensures { result ≡ has_ended self.now }
    {
        self.ended
    }

    /// Whether a record of a kind declares this name; `HOUSE` is a market from the start.
    fn is_declared(&self, kind: RecordKind, name: &[u8]) -> bool
        ensures { result ≡ is_declared self.now kind name.now }
    {
        (kind == RecordKind::Market && same(name, b"HOUSE")) || self.has(kind, name, b"")
    }

    /// The fault of a name that no record of a kind declares.
    fn undeclared(&self, row: &Fields, place: usize, kind: RecordKind) -> Option<RecordFault>
        ensures { result ≡ name_step self.now row.now (place, kind) }
    {
        if self.is_declared(kind, row.word(place)) {
            None
        } else {
            Some(RecordFault::Undeclared)
        }
    }

    /// The fault of the names that a record refers to.
    #[tactic(auto, unfolding(core_rows::specs::Steps::first_of))]
    fn names_fault(&self, row: &Fields, kind: RecordKind) -> Option<RecordFault>
        ensures { result ≡ first_of (map (name_step self.now row.now) (references kind)) }
    {
        match kind {
            RecordKind::Holiday => self.undeclared(row, 1, RecordKind::Market),
            RecordKind::Instrument => self.undeclared(row, 3, RecordKind::Market),
            RecordKind::Limit | RecordKind::Tier | RecordKind::Position | RecordKind::Collateral =>
                { self.undeclared(row, 1, RecordKind::Instrument) }
            RecordKind::Member => self
                .undeclared(row, 1, RecordKind::Pool)
                .or(self.undeclared(row, 2, RecordKind::Instrument)),
            RecordKind::Path => self
                .undeclared(row, 1, RecordKind::Scenario)
                .or(self.undeclared(row, 2, RecordKind::Instrument)),
            _ => None,
        }
    }

    /// Whether the instrument of this name is a future.
    fn names_future(&self, name: &[u8]) -> bool
        ensures { result ≡ names_future self.now name.now }
    {
        match self.find(RecordKind::Instrument, name, b"") {
            Some(instrument) => is_future(instrument),
            None => false,
        }
    }

    /// The fault of collateral of a future, and of a security with an expiry.
    fn security_fault(&self, row: &Fields, kind: RecordKind) -> Option<RecordFault>
        ensures { result ≡ security_step self.now row.now kind }
    {
        match kind {
            RecordKind::Collateral => fault_unless(
                !self.names_future(row.word(1)),
                RecordFault::CollateralOfFuture,
            ),
            RecordKind::Instrument => fault_unless(
                is_future(row) || !has_expiry(row),
                RecordFault::ExpiryOfSecurity,
            ),
            _ => None,
        }
    }

    /// Whether a record has the key of an earlier one.
    fn repeats(&self, row: &Fields, kind: RecordKind) -> bool
        ensures { result ≡ repeats self.now row.now kind }
    {
        let key = key_of(kind, row);
        match kind {
            RecordKind::Core | RecordKind::House | RecordKind::Tier | RecordKind::End => false,
            RecordKind::Market => {
                same(key.first, b"HOUSE") || self.has(kind, key.first, key.second)
            }
            _ => self.has(kind, key.first, key.second),
        }
    }

    /// Whether the case takes one more record of this kind.
    fn has_room(&self, row: &Fields, kind: RecordKind) -> bool
        ensures { result ≡ has_room self.now row.now kind }
    {
        match most_records(kind) {
            Some(most) => self.count(kind, row) < most,
            None => true,
        }
    }

    /// Whether each instrument has a path in a scenario.
    fn has_paths(&self, scenario: &Fields) -> bool
        ensures { result ≡ list_all (has_path self.now scenario.now) (of_kind Instrument self.now) }
    {
        self.instruments.iter().all(|row| self.has(RecordKind::Path, scenario.word(1), row.word(1)))
    }

    /// Whether each scenario has the paths of all instruments.
    fn has_all_paths(&self) -> bool
        ensures { result
            ≡ list_all (λ k. list_all (has_path self.now k) (of_kind Instrument self.now))
            (of_kind Scenario self.now) }
    {
        for row in &self.rows {
            if row.is_of(RecordKind::Scenario) && !self.has_paths(row.fields) {
                return false;
            }
        }
        true
    }

    /// Whether each instrument has limits.
    fn has_limits(&self) -> bool
        ensures { result ≡ list_all (has_limit self.now) (of_kind Instrument self.now) }
    {
        self.instruments
            .iter()
            .all(|row| self.has(RecordKind::Limit, row.word(1), b""))
    }

    /// Whether there is a scenario.
    fn has_scenario(&self) -> bool
        ensures { result ≡ nat_lt 0 (length (of_kind Scenario self.now)) }
    {
        for row in &self.rows {
            if row.is_of(RecordKind::Scenario) {
                return true;
            }
        }
        false
    }

    /// Whether the records are those of a whole case but for `end`.
    fn is_complete(&self) -> bool
        ensures { result ≡ is_complete self.now }
    {
        self.has_scenario() && self.has_limits() && self.has_all_paths()
    }

    /// The fault of a record of this kind among those before it.
    #[tactic(auto, unfolding(core_rows::specs::Steps::first_of))]
    pub(crate) fn book_fault(&self, row: &Fields, kind: RecordKind) -> Option<RecordFault>
        ensures { result ≡ book_fault self.now row.now kind }
    {
        if let Some(fault) = self.names_fault(row, kind) {
            return Some(fault);
        }
        if let Some(fault) = self.security_fault(row, kind) {
            return Some(fault);
        }
        if self.repeats(row, kind) {
            return Some(RecordFault::Repeated);
        }
        if !self.has_room(row, kind) {
            return Some(RecordFault::TooMany);
        }
        if kind == RecordKind::End && !self.is_complete() {
            return Some(RecordFault::Incomplete);
        }
        None
    }
}

/// How many records of a kind a case takes, of holidays how many of one market and of tiers how many of one instrument.
fn most_records(kind: RecordKind) -> Option<usize>
    ensures { result ≡ most_records kind }
{
    match kind {
        RecordKind::Market => Some(8),
        RecordKind::Holiday => Some(400),
        RecordKind::Instrument => Some(32),
        RecordKind::Tier => Some(3),
        RecordKind::Pool => Some(16),
        RecordKind::Scenario => Some(64),
        _ => None,
    }
}

// The book that sound records state.
ghost use Rattle.std.specs.Prelude.{◌≡◌, ◌≢◌, ◌≤◌, ◌∷◌, ◌++◌, [], map, IfOk, suc, pos};
ghost use Rattle.std.specs.List.{All, AllPairs};
ghost use Rattle.jiff.specs.Words.{epoch_day};
ghost use Rattle.core_rows.specs.Fields.{IsName};
ghost use Rattle.core_sums.specs.Places.{below};
ghost use Rattle.core_book.specs.Inside.{book_view, tier_view};
ghost use Rattle.core_book.specs.WellFormed.{IsInstrument};
ghost use Rattle.core_rows.specs.Names.{field, place_of};
ghost use Rattle.core_case.specs.Faults.{heading_of, house_name, of_kind};
ghost use Rattle.core_case.specs.Stated.{case_of, cash_among, declared_names, depth_among, first_tier, holidays_among, instrument_of_record, limits_of, line_among, line_records, market_names, member_among, names_in, numbers_from, pool_of_record, prices_of, tier_of_record};
ghost use Rattle.core_case.specs.Whole.{IsWhole};

use crate::fields::{day_in, is_future, natural_in, number_in, numbers_from};
use crate::kinds::{RecordKind, is_kind};
use crate::register::{KnownRecord, Register};
use core_book::{Book, Instr, Kind, Line, Member, Pool, Side, Tier};
use core_rows::{Fields, Name, name_of, same};
use indexmap::IndexSet;
use jiff::civil::Date;
use std::alloc::{AllocError, Global};

/// The records of a kind, in order.
fn of_kind<'a>(
    alloc: Global,
    rows: &[KnownRecord<'a>],
    kind: RecordKind,
) -> Result<Vec<&'a Fields>, AllocError>
    ensures { IfOk result (λ v.
        map (λ r. r.now) v.items ≡ of_kind kind (map (λ r. r.fields.now) rows.now)) }
{
    let mut found = Vec::new(alloc);
    for row in rows {
        if row.is_of(kind) {
            found.push(row.fields)?;
        }
    }
    Ok(found)
}

/// The records of positions and of collateral, in order.
fn line_records<'a>(alloc: Global, rows: &[KnownRecord<'a>]) -> Result<Vec<&'a Fields>, AllocError>
    ensures { IfOk result (λ v.
        map (λ r. r.now) v.items ≡ line_records (map (λ r. r.fields.now) rows.now)) }
{
    let mut found = Vec::new(alloc);
    for row in rows {
        if row.is_of(RecordKind::Position) || row.is_of(RecordKind::Collateral) {
            found.push(row.fields)?;
        }
    }
    Ok(found)
}

/// Names, each with its number: its place in the order of the file.
#[derive(Drop)]
struct NameNumbers<'a> {
    names: IndexSet<&'a [u8]>,
}

/// The names that records declare, after these.
fn numbered<'a>(
    mut names: IndexSet<&'a [u8]>,
    rows: &[&'a Fields],
) -> Result<NameNumbers<'a>, AllocError>
    requires { AllPairs (λ x y. x ≢ y)
        (map (λ k. k.now) names.keys ++ names_in (map (λ r. r.now) rows.now)) }
    ensures { IfOk result (λ numbers. map (λ k. k.now) numbers.names.keys
        ≡ map (λ k. k.now) names.entry.keys ++ names_in (map (λ r. r.now) rows.now)) }
{
    for row in rows {
        names.insert(row.word(1))?;
    }
    Ok(NameNumbers { names })
}

/// The name of the house alone, which is market 0.
fn house_alone<'a>(alloc: Global) -> Result<IndexSet<&'a [u8]>, AllocError>
    ensures { IfOk result (λ names. map (λ k. k.now) names.keys ≡ house_name ∷ []) }
{
    let mut names = IndexSet::new(alloc);
    let house: &[u8] = b"HOUSE";
    names.insert(house)?;
    Ok(names)
}

/// The number of a name, and how many names there are where it is none of them.
fn place_of(names: &NameNumbers, name: &[u8]) -> usize
    ensures { result ≡ place_of name.now (map (λ k. k.now) names.now.names.keys) }
{
    match names.names.get_index_of(name) {
        Some(place) => place,
        None => names.names.len(),
    }
}

/// The limits that the limit record of an instrument states, none where there is none.
fn limits_of(
    alloc: Global,
    register: &Register,
    instrument: &Fields,
) -> Result<Vec<i64>, AllocError>
    ensures { IfOk result (λ v. v.items ≡ limits_of register.now (field instrument.now 1)) }
{
    match register.find(RecordKind::Limit, instrument.word(1), b"") {
        Some(row) => numbers_from(alloc, row, 2),
        None => Ok(Vec::new(alloc)),
    }
}

/// Tier 1 of an instrument, which costs nothing.
fn first_tier(alloc: Global, register: &Register, instrument: &Fields) -> Result<Tier, AllocError>
    ensures { IfOk result (λ tier.
        tier_view tier ≡ first_tier register.now (field instrument.now 1)) }
{
    Ok(Tier {
        cost: 0,
        limits: limits_of(alloc, register, instrument)?,
    })
}

/// The tier that a record states.
fn tier(alloc: Global, row: &Fields) -> Result<Tier, AllocError>
    ensures { IfOk result (λ tier. tier_view tier ≡ tier_of_record row.now) }
{
    Ok(Tier {
        cost: number_in(row, 2),
        limits: numbers_from(alloc, row, 3)?,
    })
}

/// The tiers of an instrument, where these records state the further ones, from tier 1 on.
fn tiers_of(
    alloc: Global,
    register: &Register,
    rows: &[&Fields],
    instrument: &Fields,
) -> Result<Vec<Tier>, AllocError>
    ensures { IfOk result (λ v. map tier_view v.items
        ≡ depth_among register.now (map (λ r. r.now) rows.now) (field instrument.now 1)) }
{
    let mut tiers = Vec::new(alloc);
    tiers.push(first_tier(alloc, register, instrument)?)?;
    for row in rows {
        if same(row.word(1), instrument.word(1)) {
            tiers.push(tier(alloc, row)?)?;
        }
    }
    Ok(tiers)
}

/// The holidays of a market, in order.
fn holidays_of(alloc: Global, holidays: &[&Fields], market: &[u8]) -> Result<Vec<Date>, AllocError>
    ensures { IfOk result (λ v.
        map epoch_day v.items ≡ holidays_among (map (λ r. r.now) holidays.now) market.now) }
{
    let mut found = Vec::new(alloc);
    for row in holidays {
        if same(row.word(1), market) {
            found.push(day_in(row, 2))?;
        }
    }
    Ok(found)
}

/// The holidays of the house and of each market.
fn holidays(
    alloc: Global,
    holidays: &[&Fields],
    markets: &[&Fields],
) -> Result<Vec<Vec<Date>>, AllocError>
    ensures { IfOk result (λ v. map (λ days. map epoch_day days.items) v.items
        ≡ map (holidays_among (map (λ r. r.now) holidays.now))
        (house_name ∷ names_in (map (λ r. r.now) markets.now))) }
{
    let mut all = Vec::new(alloc);
    all.push(holidays_of(alloc, holidays, b"HOUSE")?)?;
    for market in markets {
        all.push(holidays_of(alloc, holidays, market.word(1))?)?;
    }
    Ok(all)
}

/// The name in a field.
fn name_in(row: &Fields, i: usize) -> Name
    requires { IsName (field row.now i) }
    ensures { result ≡ field row.now i }
{
    name_of(row.word(i)).unwrap()
}

/// The instrument that a record states.
fn instrument(row: &Fields) -> Instr
    requires { IsInstrument 20 (instrument_of_record row.now) }
    ensures { result ≡ instrument_of_record row.now }
{
    Instr {
        name: name_in(row, 1),
        kind: if is_future(row) {
            Kind::Future
        } else {
            Kind::Security
        },
        mult: number_in(row, 4),
        delay: natural_in(row, 5) as u8,
        lag: natural_in(row, 6) as u8,
        expiry: natural_in(row, 7) as u8,
    }
}

/// The instruments that records state, in order.
fn instruments(alloc: Global, rows: &[&Fields]) -> Result<Vec<Instr>, AllocError>
    requires { All (IsInstrument 20) (map instrument_of_record (map (λ r. r.now) rows.now)) }
    ensures { IfOk result (λ v. v.items ≡ map instrument_of_record (map (λ r. r.now) rows.now)) }
{
    let mut instruments = Vec::with_capacity(alloc, rows.len())?;
    for row in rows {
        instruments.push(instrument(row))?;
    }
    Ok(instruments)
}

/// The market of each instrument.
fn markets(alloc: Global, rows: &[&Fields], markets: &NameNumbers) -> Result<Vec<usize>, AllocError>
    ensures { IfOk result (λ v. v.items
        ≡ map (λ r. place_of (field r 3) (map (λ k. k.now) markets.now.names.keys))
        (map (λ r. r.now) rows.now)) }
{
    let mut places = Vec::with_capacity(alloc, rows.len())?;
    for row in rows {
        places.push(place_of(markets, row.word(3)))?;
    }
    Ok(places)
}

/// The tiers of each instrument.
fn depth(
    alloc: Global,
    register: &Register,
    rows: &[&Fields],
    instruments: &[&Fields],
) -> Result<Vec<Vec<Tier>>, AllocError>
    ensures { IfOk result (λ v. map (λ tiers. map tier_view tiers.items) v.items
        ≡ map (depth_among register.now (map (λ r. r.now) rows.now))
        (names_in (map (λ r. r.now) instruments.now))) }
{
    let mut depth = Vec::with_capacity(alloc, instruments.len())?;
    for instrument in instruments {
        depth.push(tiers_of(alloc, register, rows, instrument)?)?;
    }
    Ok(depth)
}

/// The prices of each instrument in a scenario, which leave the register.
fn paths<'a>(
    alloc: Global,
    register: &mut Register<'a>,
    scenario: &'a Fields,
    instruments: &[&'a Fields],
) -> Result<Vec<Vec<i64>>, AllocError>
    ensures kept { register.new ≡ register.old }
    ensures prices { IfOk result (λ v. map (λ path. path.items) v.items
        ≡ map (prices_of register.old (field scenario.now 1))
        (names_in (map (λ r. r.now) instruments.now))) }
{
    let mut paths = Vec::with_capacity(alloc, instruments.len())?;
    for row in instruments {
        paths.push(register.take_prices(alloc, scenario.word(1), row.word(1))?)?;
    }
    Ok(paths)
}

/// The prices of each scenario and instrument, which leave the register.
fn prices<'a>(
    alloc: Global,
    register: &mut Register<'a>,
    scenarios: &[&'a Fields],
    instruments: &[&'a Fields],
) -> Result<Vec<Vec<Vec<i64>>>, AllocError>
    ensures kept { register.new ≡ register.old }
    ensures prices { IfOk result (λ v. map (λ paths. map (λ path. path.items) paths.items) v.items
        ≡ map (λ k. map (prices_of register.old k) (names_in (map (λ r. r.now) instruments.now)))
        (names_in (map (λ r. r.now) scenarios.now))) }
{
    let mut prices = Vec::with_capacity(alloc, scenarios.len())?;
    for row in scenarios {
        prices.push(paths(alloc, register, row, instruments)?)?;
    }
    Ok(prices)
}

/// The pool that a record states.
fn pool(row: &Fields) -> Pool
    requires { IsName (field row.now 1) }
    ensures { result ≡ pool_of_record row.now }
{
    Pool {
        name: name_in(row, 1),
        cap: number_in(row, 2),
    }
}

/// The pools that records state, in order.
fn pools(alloc: Global, rows: &[&Fields]) -> Result<Vec<Pool>, AllocError>
    requires { All (λ r. IsName (field r 1)) (map (λ r. r.now) rows.now) }
    ensures { IfOk result (λ v. v.items ≡ map pool_of_record (map (λ r. r.now) rows.now)) }
{
    let mut pools = Vec::with_capacity(alloc, rows.len())?;
    for row in rows {
        pools.push(pool(row))?;
    }
    Ok(pools)
}

/// The member that a record states.
fn member(row: &Fields, pools: &NameNumbers, instruments: &NameNumbers) -> Member
    ensures { result
        ≡ member_among (map (λ k. k.now) pools.now.names.keys)
        (map (λ k. k.now) instruments.now.names.keys) row.now }
{
    Member {
        pool: place_of(pools, row.word(1)),
        instrument: place_of(instruments, row.word(2)),
        weight: number_in(row, 3),
    }
}

/// The members that records state, in order.
fn members(
    alloc: Global,
    rows: &[&Fields],
    pools: &NameNumbers,
    instruments: &NameNumbers,
) -> Result<Vec<Member>, AllocError>
    ensures { IfOk result (λ v. v.items
        ≡ map (member_among (map (λ k. k.now) pools.now.names.keys)
        (map (λ k. k.now) instruments.now.names.keys)) (map (λ r. r.now) rows.now)) }
{
    let mut members = Vec::with_capacity(alloc, rows.len())?;
    for row in rows {
        members.push(member(row, pools, instruments))?;
    }
    Ok(members)
}

/// The names of the scenarios that records declare, in order.
fn scenarios(alloc: Global, rows: &[&Fields]) -> Result<Vec<Name>, AllocError>
    requires { All (λ r. IsName (field r 1)) (map (λ r. r.now) rows.now) }
    ensures { IfOk result (λ v. v.items ≡ names_in (map (λ r. r.now) rows.now)) }
{
    let mut scenarios = Vec::with_capacity(alloc, rows.len())?;
    for row in rows {
        scenarios.push(name_in(row, 1))?;
    }
    Ok(scenarios)
}

/// The line that a record of a position or of collateral states.
fn line(row: &Fields, instruments: &NameNumbers) -> Line
    ensures { result ≡ line_among (map (λ k. k.now) instruments.now.names.keys) row.now }
{
    let number = number_in(row, 2);
    Line {
        instrument: place_of(instruments, row.word(1)),
        side: if is_kind(RecordKind::Position, row) {
            Side::Position
        } else {
            Side::Collateral
        },
        sign: if number > 0 { 1 } else { -1 },
        amount: natural_in(row, 2) as i64,
    }
}

/// The lines that records state, in order.
fn lines(
    alloc: Global,
    rows: &[&Fields],
    instruments: &NameNumbers,
) -> Result<Vec<Line>, AllocError>
    ensures { IfOk result (λ v. v.items
        ≡ map (line_among (map (λ k. k.now) instruments.now.names.keys))
        (map (λ r. r.now) rows.now)) }
{
    let mut lines = Vec::with_capacity(alloc, rows.len())?;
    for row in rows {
        lines.push(line(row, instruments))?;
    }
    Ok(lines)
}

/// The fixed cash of a day, 0 where no record states it.
fn cash_on(rows: &[&Fields], day: i64) -> i64
    ensures { result ≡ cash_among (map (λ r. r.now) rows.now) day }
{
    for row in rows {
        if number_in(row, 1) == day {
            return number_in(row, 2);
        }
    }
    0
}

/// The fixed cash of the house days 0 to the last.
fn cash(alloc: Global, rows: &[&Fields], last: u8) -> Result<Vec<i64>, AllocError>
    ensures { IfOk result (λ v.
        v.items ≡ map (λ t. cash_among (map (λ r. r.now) rows.now) (pos t)) (below (suc last))) }
{
    let mut cash = Vec::with_capacity(alloc, last as usize + 1)?;
    for t in 0..last as usize + 1 {
        cash.push(cash_on(rows, t as i64))?;
    }
    Ok(cash)
}

/// The records of a kind in a register, in order.
fn rows_of_kind<'a>(
    alloc: Global,
    register: &Register<'a>,
    kind: RecordKind,
) -> Result<Vec<&'a Fields>, AllocError>
    ensures { IfOk result (λ v. map (λ r. r.now) v.items ≡ of_kind kind register.now) }
{
    of_kind(alloc, register.rows(), kind)
}

/// The names that the records of a kind declare, each with its number.
fn names_of_kind<'a>(
    alloc: Global,
    register: &Register<'a>,
    kind: RecordKind,
) -> Result<NameNumbers<'a>, AllocError>
    requires { AllPairs (λ x y. x ≢ y) (declared_names kind register.now) }
    ensures { IfOk result (λ numbers.
        map (λ k. k.now) numbers.names.keys ≡ declared_names kind register.now) }
{
    let rows = rows_of_kind(alloc, register, kind)?;
    numbered(IndexSet::new(alloc), &rows)
}

/// The names of the house and of the markets, each with its number.
fn names_of_markets<'a>(
    alloc: Global,
    register: &Register<'a>,
) -> Result<NameNumbers<'a>, AllocError>
    requires { AllPairs (λ x y. x ≢ y) (market_names register.now) }
    ensures { IfOk result (λ numbers.
        map (λ k. k.now) numbers.names.keys ≡ market_names register.now) }
{
    let rows = rows_of_kind(alloc, register, RecordKind::Market)?;
    numbered(house_alone(alloc)?, &rows)
}

/// The holidays of the house and of each market of a register.
fn book_holidays(alloc: Global, register: &Register) -> Result<Vec<Vec<Date>>, AllocError>
    ensures { IfOk result (λ v.
        map (λ days. map epoch_day days.items) v.items ≡ (case_of register.now).holidays) }
{
    let holiday_rows = rows_of_kind(alloc, register, RecordKind::Holiday)?;
    let market_rows = rows_of_kind(alloc, register, RecordKind::Market)?;
    holidays(alloc, &holiday_rows, &market_rows)
}

/// The instruments of a register.
fn book_instruments(alloc: Global, register: &Register) -> Result<Vec<Instr>, AllocError>
    requires { IsWhole register.now }
    ensures { IfOk result (λ v. v.items ≡ (case_of register.now).instruments) }
{
    let rows = rows_of_kind(alloc, register, RecordKind::Instrument)?;
    instruments(alloc, &rows)
}

/// The market of each instrument of a register.
fn book_markets(alloc: Global, register: &Register) -> Result<Vec<usize>, AllocError>
    requires { IsWhole register.now }
    ensures { IfOk result (λ v. v.items ≡ (case_of register.now).markets) }
{
    let rows = rows_of_kind(alloc, register, RecordKind::Instrument)?;
    let names = names_of_markets(alloc, register)?;
    markets(alloc, &rows, &names)
}

/// The tiers of each instrument of a register.
fn book_depth(alloc: Global, register: &Register) -> Result<Vec<Vec<Tier>>, AllocError>
    ensures { IfOk result (λ v. map (λ tiers. map tier_view tiers.items) v.items
        ≡ (case_of register.now).depth) }
{
    let tier_rows = rows_of_kind(alloc, register, RecordKind::Tier)?;
    let instrument_rows = rows_of_kind(alloc, register, RecordKind::Instrument)?;
    depth(alloc, register, &tier_rows, &instrument_rows)
}

/// The pools of a register.
fn book_pools(alloc: Global, register: &Register) -> Result<Vec<Pool>, AllocError>
    requires { IsWhole register.now }
    ensures { IfOk result (λ v. v.items ≡ (case_of register.now).pools) }
{
    let rows = rows_of_kind(alloc, register, RecordKind::Pool)?;
    pools(alloc, &rows)
}

/// The members of the pools of a register.
fn book_members(alloc: Global, register: &Register) -> Result<Vec<Member>, AllocError>
    requires { IsWhole register.now }
    ensures { IfOk result (λ v. v.items ≡ (case_of register.now).members) }
{
    let rows = rows_of_kind(alloc, register, RecordKind::Member)?;
    let pools = names_of_kind(alloc, register, RecordKind::Pool)?;
    let instruments = names_of_kind(alloc, register, RecordKind::Instrument)?;
    members(alloc, &rows, &pools, &instruments)
}

/// The names of the scenarios of a register.
fn book_scenarios(alloc: Global, register: &Register) -> Result<Vec<Name>, AllocError>
    requires { IsWhole register.now }
    ensures { IfOk result (λ v. v.items ≡ (case_of register.now).scenarios) }
{
    let rows = rows_of_kind(alloc, register, RecordKind::Scenario)?;
    scenarios(alloc, &rows)
}

/// The prices of each scenario and instrument of a register, which leave it.
fn book_prices(alloc: Global, register: &mut Register) -> Result<Vec<Vec<Vec<i64>>>, AllocError>
    ensures kept { register.new ≡ register.old }
    ensures prices { IfOk result (λ v.
        map (λ paths. map (λ path. path.items) paths.items) v.items
        ≡ (case_of register.old).prices) }
{
    let scenario_rows = rows_of_kind(alloc, register, RecordKind::Scenario)?;
    let instrument_rows = rows_of_kind(alloc, register, RecordKind::Instrument)?;
    prices(alloc, register, &scenario_rows, &instrument_rows)
}

/// The lines of a register.
fn book_lines(alloc: Global, register: &Register) -> Result<Vec<Line>, AllocError>
    requires { IsWhole register.now }
    ensures { IfOk result (λ v. v.items ≡ (case_of register.now).lines) }
{
    let rows = line_records(alloc, register.rows())?;
    let instruments = names_of_kind(alloc, register, RecordKind::Instrument)?;
    lines(alloc, &rows, &instruments)
}

/// The fixed cash of the house days of a register, 0 to the last.
fn book_cash(alloc: Global, register: &Register, last: u8) -> Result<Vec<i64>, AllocError>
    requires { last ≡ (heading_of register.now).last }
    ensures { IfOk result (λ v. v.items ≡ (case_of register.now).cash) }
{
    let rows = rows_of_kind(alloc, register, RecordKind::Cash)?;
    cash(alloc, &rows, last)
}

/// The book that the records of a register state, where these are its prices.
fn book_with(
    alloc: Global,
    register: &Register,
    prices: Vec<Vec<Vec<i64>>>,
) -> Result<Book, AllocError>
    requires whole { IsWhole register.now }
    requires prices { map (λ paths. map (λ path. path.items) paths.items) prices.items
        ≡ (case_of register.now).prices }
    ensures { IfOk result (λ book. book_view book ≡ case_of register.now) }
{
    let house = register.house();
    let last = natural_in(house, 3) as u8;
    Ok(Book {
        start: day_in(house, 1),
        horizon: natural_in(house, 2) as u8,
        last,
        holidays: book_holidays(alloc, register)?,
        instruments: book_instruments(alloc, register)?,
        markets: book_markets(alloc, register)?,
        depth: book_depth(alloc, register)?,
        pools: book_pools(alloc, register)?,
        members: book_members(alloc, register)?,
        scenarios: book_scenarios(alloc, register)?,
        prices,
        lines: book_lines(alloc, register)?,
        cash: book_cash(alloc, register, last)?,
    })
}

/// The book that the records of a register state.
pub(crate) fn state_book(alloc: Global, mut register: Register) -> Result<Book, AllocError>
    requires { IsWhole register }
    ensures { IfOk result (λ book. book_view book ≡ case_of register.entry) }
{
    let prices = book_prices(alloc, &mut register)?;
    book_with(alloc, &register, prices)
}

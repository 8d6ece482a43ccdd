// A case and its accessors.
ghost use Rattle.std.specs.Prelude.{◌≡◌, ◌<◌, length};
ghost use Rattle.std.specs.Prelude.{◌==◌, not, map, max, fold, IfOk};
ghost use Rattle.std.specs.List.{list_any};
ghost use Rattle.jiff.specs.Words.{epoch_day};
ghost use Rattle.core_book.specs.Inside.{AreOpenDays};
ghost use Rattle.core_sums.specs.Places.{at};

use crate::book::Book;
use crate::parts::{Instr, Line, Member, Pool, Tier};
use core_days::{house_days, open_flags, pay_day};
use core_rows::Name;
use jiff::civil::Date;
use std::alloc::{AllocError, Global};
use std::marker::Model;

/// A well-formed case. Closing days are 1 to the horizon H, house days 0 to the last day F. Market 0 is the house.
#[derive(Drop)]
pub struct Case {
    pub(crate) book: Book,
    /// The dates of the house days.
    pub(crate) days: Vec<Date>,
    /// Whether a market is open, by market and house day.
    pub(crate) open_days: Vec<Vec<bool>>,
    /// The greatest number of tiers of an instrument.
    pub(crate) tiers: u8,
}

impl Model for Case {
    ghost use Rattle.core_book.specs.View.{CaseView};
    ghost use Rattle.core_book.specs.Inside.{book_view, HasDays};

    ghost Value = { CaseView };

    ghost view = { λ a. book_view a.book };

    ghost invariant = { HasDays };
}

/// The number at a place of a list.
fn number_at(list: &Vec<i64>, i: usize) -> i64
    requires { i < length list.now.items }
    ensures { result ≡ at list.now.items i }
{
    list[i]
}

/// The greatest length of some lists, and 1 where there is none.
fn deepest(depth: &[Vec<Tier>]) -> usize
    ensures { result ≡ fold (λ n tiers. max n (length tiers.items)) 1 depth.now }
{
    depth.iter().fold(1, |most, tiers| most.max(tiers.len()))
}

/// Whether each market is open, by market and house day.
fn open_days(
    alloc: Global,
    days: &[Date],
    holidays: &[Vec<Date>],
) -> Result<Vec<Vec<bool>>, AllocError>
    ensures { IfOk result (λ v.
        AreOpenDays (map (λ h. map epoch_day h.items) holidays.now) (map epoch_day days.now)
        (map (λ flags. flags.items) v.items)) }
{
    let mut open_days = Vec::with_capacity(alloc, holidays.len())?;
    for market in holidays {
        open_days.push(open_flags(alloc, days, market)?)?;
    }
    Ok(open_days)
}

impl Case {
    ghost use Rattle.std.specs.Prelude.{◌≡◌, ◌<◌, ◌≤◌, ℕ, suc, length};
    ghost use Rattle.core_days.specs.Flags.{flag_at};
    ghost use Rattle.core_days.specs.Limits.{most_house_days};
    ghost use Rattle.core_book.specs.WellFormed.{IsCase};
    ghost use Rattle.core_sums.specs.Places.{row_at};
    ghost use Rattle.core_book.specs.View.{instrument, line, pool, member, tiers, tiers_of, cost, limit, price, cash, date, is_open, pays, counts, is_traded, is_allowed, instrument_of};
    ghost use Rattle.std.specs.Prelude.{IfOk};
    ghost use Rattle.jiff.specs.Words.{epoch_day};
    ghost use Rattle.core_book.specs.Inside.{book_view};

    /// The case of a book: the dates of its house days, and the open days of each market.
    pub fn of_book(alloc: Global, book: Book) -> Result<Case, AllocError>
        requires { IsCase (book_view book) }
        ensures { IfOk result (λ c. c ≡ book_view book) }
    {
        let days = house_days(alloc, book.start, &book.holidays[0], book.last)?;
        let open_days = open_days(alloc, &days, &book.holidays)?;
        let tiers = deepest(&book.depth) as u8;
        Ok(Case {
            book,
            days,
            open_days,
            tiers,
        })
    }

    /// The last closing day, 1 to 20. Every case keeps the ranges and references of a well-formed one.
    pub fn horizon(&self) -> u8
        ensures value { result ≡ self.now.horizon }
        ensures kept { IsCase self.now }
    {
        self.book.horizon
    }

    /// It keeps the ranges and references of a well-formed case. Nothing is computed: a proof that needs it asks here.
    pub fn well_formed(&self)
        ensures { IsCase self.now }
    {
        let _horizon = self.book.horizon;
    }

    /// The last house day, from the horizon to 40.
    pub fn last(&self) -> u8
        ensures value { result ≡ self.now.last }
        ensures kept { IsCase self.now }
    {
        self.book.last
    }

    /// The date of a house day.
    pub fn date(&self, t: u8) -> Date
        requires { t ≤ self.now.last }
        ensures { epoch_day result ≡ date self.now t }
    {
        self.days[t as usize]
    }

    /// How many instruments there are.
    pub fn instruments(&self) -> usize
        ensures { result ≡ length self.now.instruments }
    {
        self.book.instruments.len()
    }

    /// The instrument of an index from 0.
    pub fn instrument(&self, i: usize) -> Instr
        requires { i < length self.now.instruments }
        ensures { result ≡ instrument self.now i }
    {
        self.book.instruments[i]
    }

    /// The greatest number of tiers of an instrument, 1 to 4, and 1 where there is no instrument.
    pub fn tiers(&self) -> u8
        ensures { result ≡ tiers self.now }
    {
        self.tiers
    }

    /// The number of tiers of an instrument, 1 to 4.
    pub fn tiers_of(&self, i: usize) -> u8
        requires { i < length self.now.instruments }
        ensures { result ≡ tiers_of self.now i }
    {
        self.book.depth[i].len() as u8
    }

    /// What a unit of an instrument costs that is closed in tier `j`, from 1: 0 to 10^12, 0 in tier 1 and in a tier that
    /// the instrument does not have.
    pub fn cost(&self, i: usize, j: u8) -> i64
        requires instrument { i < length self.now.instruments }
        requires tier { 1 ≤ j }
        ensures { result ≡ cost self.now i j }
    {
        match self.book.depth[i].get(j as usize - 1) {
            Some(tier) => tier.cost,
            None => 0,
        }
    }

    /// The limit of an instrument on closing day `u` in tier `j`, both from 1: 0 to 10^9, 0 in a tier that the instrument
    /// does not have.
    pub fn limit(&self, i: usize, u: u8, j: u8) -> i64
        requires instrument { i < length self.now.instruments }
        requires from { 1 ≤ u }
        requires to { u ≤ self.now.horizon }
        requires tier { 1 ≤ j }
        ensures { result ≡ limit self.now i u j }
    {
        match self.book.depth[i].get(j as usize - 1) {
            Some(tier) => number_at(&tier.limits, u as usize - 1),
            None => 0,
        }
    }

    /// Whether an instrument's closings of a day, from 1, count towards limits and pools: false exactly on its expiry.
    pub fn counts(&self, i: usize, u: u8) -> bool
        requires { i < length self.now.instruments }
        ensures { result ≡ counts self.now i u }
    {
        u != self.book.instruments[i].expiry
    }

    /// On which house days an instrument's market is open.
    fn open_days_of(&self, i: usize) -> &Vec<bool>
        requires { i < length self.now.instruments }
        ensures count { length result.now.items ≡ suc self.now.last }
        ensures each { (t : ℕ) → t ≤ self.now.last
            → flag_at result.now.items t ≡ is_open self.now i t }
        ensures bound { self.now.last ≤ most_house_days }
    {
        &self.open_days[self.book.markets[i]]
    }

    /// Whether an instrument's market is open on a house day; day 0 counts as open.
    pub fn is_open(&self, i: usize, t: u8) -> bool
        requires instrument { i < length self.now.instruments }
        requires day { t ≤ self.now.last }
        ensures { result ≡ is_open self.now i t }
    {
        self.open_days_of(i)[t as usize]
    }

    /// The house day on which what happens to an instrument on day v is paid: None exactly where its market is closed
    /// on v or no such day is left.
    pub fn pays(&self, i: usize, v: u8) -> Option<u8>
        requires instrument { i < length self.now.instruments }
        requires day { v ≤ self.now.last }
        ensures { result ≡ pays self.now i v }
    {
        let open_days = self.open_days_of(i);
        if open_days[v as usize] {
            pay_day(open_days, v, self.instrument(i).lag)
        } else {
            None
        }
    }

    /// How many lines there are.
    pub fn lines(&self) -> usize
        ensures { result ≡ length self.now.lines }
    {
        self.book.lines.len()
    }

    /// The line of an index from 0.
    pub fn line(&self, l: usize) -> Line
        requires { l < length self.now.lines }
        ensures { result ≡ line self.now l }
    {
        self.book.lines[l]
    }

    /// The instrument of a line, from 0.
    fn instrument_of(&self, l: usize) -> usize
        requires { l < length self.now.lines }
        ensures value { result ≡ instrument_of self.now l }
        ensures known { result < length self.now.instruments }
    {
        self.book.lines[l].instrument
    }

    /// Whether an instrument is traded on a day: from its delay on, and before its expiry where it has one.
    fn is_traded(&self, i: usize, u: u8) -> bool
        requires { i < length self.now.instruments }
        ensures { result ≡ is_traded (instrument self.now i) u }
    {
        let Instr { delay, expiry, .. } = self.instrument(i);
        delay <= u && (expiry == 0 || u < expiry)
    }

    /// Whether a line may be closed on day `u` in tier `j`: it is a closing day on which the instrument's market is open
    /// and pays, the instrument has the tier, and it is traded on the day or the day is its expiry and the tier is 1.
    pub fn allowed(&self, l: usize, u: u8, j: u8) -> bool
        requires line { l < length self.now.lines }
        requires day { u ≤ self.now.last }
        ensures { result ≡ is_allowed self.now l u j }
    {
        let i = self.instrument_of(l);
        1 <= u
            && u <= self.horizon()
            && self.pays(i, u).is_some()
            && 1 <= j
            && j <= self.tiers_of(i)
            && if self.counts(i, u) {
                self.is_traded(i, u)
            } else {
                j == 1
            }
    }

    /// How many pools there are.
    pub fn pools(&self) -> usize
        ensures { result ≡ length self.now.pools }
    {
        self.book.pools.len()
    }

    /// The pool of an index from 0.
    pub fn pool(&self, p: usize) -> Pool
        requires { p < length self.now.pools }
        ensures { result ≡ pool self.now p }
    {
        self.book.pools[p]
    }

    /// How many members the pools have in all.
    pub fn members(&self) -> usize
        ensures { result ≡ length self.now.members }
    {
        self.book.members.len()
    }

    /// The member of an index from 0, in the order of the file.
    pub fn member(&self, m: usize) -> Member
        requires { m < length self.now.members }
        ensures { result ≡ member self.now m }
    {
        self.book.members[m]
    }

    /// How many scenarios there are, 1 to 64.
    pub fn scenarios(&self) -> usize
        ensures { result ≡ length self.now.scenarios }
    {
        self.book.scenarios.len()
    }

    /// The scenario of an index from 0.
    pub fn scenario(&self, k: usize) -> Name
        requires { k < length self.now.scenarios }
        ensures { result ≡ row_at self.now.scenarios k }
    {
        self.book.scenarios[k]
    }

    /// The price of an instrument on a house day in a scenario, at most 10^12 in absolute value.
    pub fn price(&self, k: usize, i: usize, t: u8) -> i64
        requires scenario { k < length self.now.scenarios }
        requires instrument { i < length self.now.instruments }
        requires day { t ≤ self.now.last }
        ensures { result ≡ price self.now k i t }
    {
        number_at(&self.book.prices[k][i], t as usize)
    }

    /// The fixed cash of a house day, at most 10^15 in absolute value and 0 where the file states none.
    pub fn cash(&self, t: u8) -> i64
        requires { t ≤ self.now.last }
        ensures { result ≡ cash self.now t }
    {
        self.book.cash[t as usize]
    }
}

// What a case states.
use crate::parts::{Instr, Line, Member, Pool, Tier};
use core_rows::Name;
use jiff::civil::Date;

/// What the records of a case state, with names as numbers.
///
/// Market 0 is the house. Holidays are by market, the market of an instrument and its tiers by instrument, tiers from
/// tier 1 on, prices by scenario, instrument and house day (0 to `last`), cash by house day. Closing days are 1 to
/// `horizon`.
#[derive(Drop)]
pub struct Book {
    pub start: Date,
    pub horizon: u8,
    pub last: u8,
    pub holidays: Vec<Vec<Date>>,
    pub instruments: Vec<Instr>,
    pub markets: Vec<usize>,
    pub depth: Vec<Vec<Tier>>,
    pub pools: Vec<Pool>,
    pub members: Vec<Member>,
    pub scenarios: Vec<Name>,
    pub prices: Vec<Vec<Vec<i64>>>,
    pub lines: Vec<Line>,
    pub cash: Vec<i64>,
}

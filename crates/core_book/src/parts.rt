// The parts of a case.
use core_rows::Name;

/// What an instrument is.
#[derive(Clone, Copy, Debug, PartialEq, Eq)]
pub enum Kind {
    /// Settled daily by the change of its price.
    Future,
    /// Paid at its price when it is closed.
    Security,
}

/// A position is closed in full; collateral may be sold up to its amount.
#[derive(Clone, Copy, Debug, PartialEq, Eq)]
pub enum Side {
    Position,
    Collateral,
}

/// An instrument.
#[derive(Clone, Copy)]
pub struct Instr {
    pub name: Name,
    pub kind: Kind,
    /// Money per point of the price and unit: 1 to 10^6.
    pub mult: i64,
    /// The first closing day: 1 to 20.
    pub delay: u8,
    /// Open days from a flow to its payment: 0 to 10.
    pub lag: u8,
    /// The closing day on which what is still open is settled, 0 where there is none. A security has none.
    pub expiry: u8,
}

/// A tier of an instrument: what one closing day takes at a cost per unit.
#[derive(Drop)]
pub struct Tier {
    /// What a unit costs that is closed in the tier: 0 to 10^12, and 0 in tier 1.
    pub cost: i64,
    /// What may be closed in the tier, by closing day: 0 to 10^9 each.
    pub limits: Vec<i64>,
}

/// A line of the book: a position or a collateral line of an instrument.
#[derive(Clone, Copy, Debug)]
pub struct Line {
    /// The instrument, from 0.
    pub instrument: usize,
    pub side: Side,
    /// 1 for a long line and -1 for a short one.
    pub sign: i8,
    /// The absolute amount: 1 to 10^9.
    pub amount: i64,
}

/// A pool of instruments under one cap.
#[derive(Clone, Copy)]
pub struct Pool {
    pub name: Name,
    /// 0 to 10^9.
    pub cap: i64,
}

/// An instrument's weight in a pool.
#[derive(Clone, Copy, Debug)]
pub struct Member {
    /// The pool, from 0.
    pub pool: usize,
    /// The instrument, from 0.
    pub instrument: usize,
    /// 1 to 10^6.
    pub weight: i64,
}

// The ranks that a house gives the variables of a case's programme.
ghost use Rattle.std.specs.Prelude.{◌≡◌, ◌+◌, ◌≤◌, ◌<◌, length, get_or, IfOk};
ghost use Rattle.core_lp.specs.Ranks.{letter_of, place_in, ranks_by, variable_count};

use crate::built::Built;
use crate::columns::column_count;
use crate::names::RowName;
use crate::rows::row_count;
use core_book::Case;
use core_rules::Ranks;
use std::alloc::{AllocError, Global};

/// The number of variables of a case's programme: one for each column, and a slack for each row. At most 10,689.
pub fn variables(case: &Case) -> u32
    ensures count { result ≡ variable_count case.now }
    ensures few { result ≤ 10689 }
{
    (column_count(case) + row_count(case)) as u32
}

/// The letter of a row.
fn letter_of(name: RowName) -> u8
    ensures { result ≡ letter_of name }
{
    match name {
        RowName::Full { .. } => b'F',
        RowName::Back { .. } => b'B',
        RowName::Limit { .. } => b'L',
        RowName::Pool { .. } => b'P',
        RowName::Loss { .. } => b'S',
    }
}

/// The place of a letter in an order, from 0, and 6 where it has none.
fn place_in(order: [u8; 6], letter: u8) -> u8
    ensures { result ≡ place_in order letter }
{
    for i in 0..6u8 {
        if order[i as usize] == letter {
            return i;
        }
    }
    6
}

/// The rank of a variable by its place, from 0.
fn rank_at(built: &Built, order: [u8; 6], place: usize) -> u8
    requires { place < length built.now.cols + length built.now.rows }
    ensures { result ≡ get_or (ranks_by built.now.cols built.now.rows order) place 0 }
{
    let cols = built.programme().cols();
    let letter = if place < cols {
        b'C'
    } else {
        letter_of(built.row(place - cols))
    };
    place_in(order, letter)
}

/// The ranks of the variables under an order of the letters C, F, B, L, P and S, which stand for the columns and
/// for the rows full, back, limit, pool and loss: the place of the letter of a variable's kind, from 0, and 6 where
/// the order lacks it. The only error is want of memory.
pub fn ranks_of(alloc: Global, built: &Built, order: [u8; 6]) -> Result<Ranks, AllocError>
    ensures { IfOk result (λ ranks. ranks ≡ ranks_by built.now.cols built.now.rows order) }
{
    let programme = built.programme();
    let count = programme.cols() + programme.rows();
    let mut ranks = Ranks::make(alloc, count)?;
    for place in 0..count {
        ranks.set(place as u32 + 1, rank_at(built, order, place));
    }
    Ok(ranks)
}

// One row of a programme.
ghost use Rattle.std.specs.Prelude.{◌≡◌, ◌<◌, IfOk, length, pos, replicate, slice_set};
ghost use Rattle.core_sums.specs.Places.{at};

use std::alloc::{AllocError, Global};
use std::marker::Model;

/// The numbers of a row by column, and its bound.
#[derive(Drop)]
pub struct Line {
    kept: Vec<i64>,
    most: i64,
}

impl Model for Line {
    ghost use Rattle.core_dict.specs.Programme.{Row};

    ghost Value = { Row };

    ghost view = { λ a. record { entries = a.kept.items; bound = a.most } };
}

impl Line {
    pub fn zeros(alloc: Global, cols: usize) -> Result<Line, AllocError>
        ensures { IfOk result (λ r. r
            ≡ record { entries = replicate cols (pos 0); bound = pos 0 }) }
    {
        let kept = vec![in alloc; 0i64; cols]?;
        Ok(Line { kept, most: 0 })
    }

    pub fn set(&mut self, col: usize, v: i64)
        requires { col < length self.old.entries }
        ensures { self.new ≡ record self.old { entries = slice_set self.old.entries col v } }
    {
        self.kept[col] = v;
    }

    pub fn set_bound(&mut self, v: i64)
        ensures { self.new ≡ record self.old { bound = v } }
    {
        self.most = v;
    }

    pub fn entry(&self, col: usize) -> i64
        requires { col < length self.now.entries }
        ensures { result ≡ at self.now.entries col }
    {
        self.kept[col]
    }

    pub fn bound(&self) -> i64
        ensures { result ≡ self.now.bound }
    {
        self.most
    }
}

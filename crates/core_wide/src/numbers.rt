// A list of whole numbers.
ghost use Rattle.std.specs.Prelude.{◌≡◌, ◌<◌, pos, Some, length, replicate, slice_get, slice_set, IfOk};

use std::alloc::{AllocError, Global};
use std::marker::Model;

/// Whole numbers of 128 bits by place, which contracts see as a list.
#[derive(Debug, Drop)]
pub struct Numbers {
    kept: Vec<i128>,
}

impl Model for Numbers {
    ghost use Rattle.std.specs.Prelude.{List, ℤ};

    ghost Value = { List ℤ };

    ghost view = { λ n. n.kept.items };
}

impl Numbers {
    /// So many zeros. The only error is want of memory.
    pub fn zeros(alloc: Global, n: usize) -> Result<Numbers, AllocError>
        ensures { IfOk result (λ v. v ≡ replicate n (pos 0)) }
    {
        let kept = vec![in alloc; 0i128; n]?;
        Ok(Numbers { kept })
    }

    /// How many numbers there are.
    pub fn len(&self) -> usize
        ensures { result ≡ length self.now }
    {
        self.kept.len()
    }

    /// The number at a place, counted from 0.
    pub fn get(&self, i: usize) -> i128
        requires { i < length self.now }
        ensures { slice_get self.now i ≡ Some result }
    {
        self.kept[i]
    }

    /// Puts a number at a place, counted from 0.
    pub fn set(&mut self, i: usize, v: i128)
        requires { i < length self.old }
        ensures { self.new ≡ slice_set self.old i v }
    {
        self.kept[i] = v;
    }

    /// The numbers in their order, as a slice.
    pub fn as_slice(&self) -> &[i128]
        ensures { result.now ≡ self.now }
    {
        &self.kept
    }
}

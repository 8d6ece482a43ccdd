// What every way to keep a dictionary does with single numbers and variables.
ghost use Rattle.std.specs.Prelude.{◌≡◌, ◌≢◌, ◌↔◌, ◌+◌, ◌<◌, ◌≤◌, ℕ, suc, IfOk, IsErr, IsTrue, length, get_or, unsigned_abs};
ghost use Rattle.fractions.specs.Fraction.{zero_q, ◌/ℚ◌};
ghost use Rattle.fractions.specs.Leaves.{OverLeaves};
ghost use Rattle.core_dict.specs.Programme.{most_size};

use exact_frac::{Exact, Left};
use std::alloc::{AllocError, Global};

/// Whether a number is 0.
#[inline(always)]
pub fn is_zero<E: Exact>(x: E) -> bool
    ensures { IsTrue result ↔ (E.value x ≡ zero_q) }
{
    x.sign() == 0
}

/// The quotient of two numbers. A 0 is not divided. The error comes where the quotient leaves the type.
pub fn divided<E: Exact>(a: E, p: E) -> Result<E, Left>
    requires { E.value p ≢ zero_q }
    ensures exact { IfOk result (λ x. E.value x ≡ E.value a /ℚ E.value p) }
    ensures left { IsErr result ↔ OverLeaves (unsigned_abs E.MOST) (E.value a) (E.value p) }
{
    if is_zero(a) {
        return Ok(a);
    }
    a.over(p)
}

/// So many variables, numbered from a number on. The only error is want of memory.
pub fn variables_from(alloc: Global, first: u32, n: usize) -> Result<Vec<u32>, AllocError>
    requires first_in { first ≤ suc most_size }
    requires few { n ≤ most_size }
    ensures width { IfOk result (λ v. length v.items ≡ n) }
    ensures variables { IfOk result (λ v. (i : ℕ) → i < n → get_or v.items i 0 ≡ first + i) }
{
    let mut all = Vec::with_capacity(alloc, n)?;
    for i in 0..n {
        all.push(first + i as u32)?;
    }
    Ok(all)
}

// Whole numbers of 64 bits: sums, products and quotients, at most 2 ^ 62 in absolute value.
ghost use Rattle.std.specs.Prelude.{◌≡◌, ◌≤◌, ◌<◌, ◌/◌, ◌*◌, ◌+ℤ◌, ◌*ℤ◌, ◌↔◌, IfOk, IsErr, unsigned_abs};
ghost use Rattle.exact_frac.specs.Signed.{signed};
ghost use Rattle.core_sums.specs.Widths.{most64};

use crate::Left;

/// The greatest number of a Frac64.
pub const MOST: u64 = 4611686018427387904;

/// a + b, or Left exactly where its absolute value is above 2^62.
pub fn numbers_sum(a: i64, b: i64) -> Result<i64, Left>
    ensures exact { IfOk result (λ n. n ≡ a +ℤ b) }
    ensures within { IfOk result (λ n. unsigned_abs n ≤ most64) }
    ensures left { IsErr result ↔ (most64 < unsigned_abs (a +ℤ b)) }
{
    match a.checked_add(b) {
        Some(n) if n.unsigned_abs() <= MOST => Ok(n),
        _ => Err(Left),
    }
}

/// a times b, or Left exactly where its absolute value is above 2^62.
pub fn numbers_product(a: i64, b: i64) -> Result<i64, Left>
    ensures exact { IfOk result (λ n. n ≡ a *ℤ b) }
    ensures within { IfOk result (λ n. unsigned_abs n ≤ most64) }
    ensures left { IsErr result ↔ (most64 < unsigned_abs (a *ℤ b)) }
{
    match a.checked_mul(b) {
        Some(n) if n.unsigned_abs() <= MOST => Ok(n),
        _ => Err(Left),
    }
}

/// n, or minus n.
pub fn with_sign(negative: bool, n: u64) -> i64
    requires { n ≤ most64 }
    ensures { result ≡ signed negative n }
{
    if negative { -(n as i64) } else { n as i64 }
}

/// a / b, rounded down. It takes no division by 1 or of equal numbers.
pub fn quotient(a: u64, b: u64) -> u64
    requires { 0 < b }
    ensures value { result ≡ a / b }
    ensures at_most { result ≤ a }
{
    if b == 1 {
        a
    } else if a == b {
        1
    } else {
        a / b
    }
}

/// a times b, or Left exactly where that is above 2^62.
pub fn product_within(a: u64, b: u64) -> Result<u64, Left>
    ensures exact { IfOk result (λ p. p ≡ a * b) }
    ensures within { IfOk result (λ p. p ≤ most64) }
    ensures left { IsErr result ↔ (most64 < a * b) }
{
    match a.checked_mul(b) {
        Some(p) if p <= MOST => Ok(p),
        _ => Err(Left),
    }
}
